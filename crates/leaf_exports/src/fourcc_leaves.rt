// FourCCs.
ghost use Rattle.std.specs.Prelude.{◌≡◌};
ghost use Rattle.fourcc.specs.Fourcc.{fourcc_parse, fourcc_to_audio_codec};
ghost use Rattle.leaf_exports.specs.FourccLeaves.{leaf_fourcc, leaf_audio_codec};

#[repr(C)]
#[derive(Clone, Copy, Debug, PartialEq, Eq)]
pub struct LeafFourcc {
    pub error: i32,
    pub fourcc: [u8; 4],
}

#[repr(C)]
#[derive(Clone, Copy, Debug, PartialEq, Eq)]
pub struct LeafAudioCodec {
    pub error: i32,
    pub codec: u8,
}

#[unsafe(no_mangle)]
pub extern "C" fn leaf_fourcc_parse(payload: &[u8]) -> LeafFourcc
    ensures { result ≡ leaf_fourcc (fourcc_parse payload.now) }
{
    match fourcc::fourcc_parse(payload) {
        Ok(fourcc) => LeafFourcc { error: 0, fourcc },
        Err(error) => LeafFourcc {
            error: error.into(),
            fourcc: [0; 4],
        },
    }
}

#[unsafe(no_mangle)]
pub extern "C" fn leaf_fourcc_to_audio_codec(fourcc: &[u8]) -> LeafAudioCodec
    ensures { result ≡ leaf_audio_codec (fourcc_to_audio_codec fourcc.now) }
{
    match fourcc::fourcc_to_audio_codec(fourcc) {
        Ok(codec) => LeafAudioCodec {
            error: 0,
            codec: codec.into(),
        },
        Err(error) => LeafAudioCodec {
            error: error.into(),
            codec: 0,
        },
    }
}
