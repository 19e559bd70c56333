// Codec configuration records. A verdict is true or false.
ghost use Rattle.std.specs.Prelude.{◌≡◌};
ghost use Rattle.wire.specs.Grammar.{accepted};
ghost use Rattle.codec_config.specs.Records.{record_valid, from_fourcc, config_codec_number};
ghost use Rattle.codec_config.specs.Heads.{av1, opus_head, flac_head};
ghost use Rattle.leaf_exports.specs.RecordLeaves.{codec_of, start_valid};

use codec_config::ConfigCodec;
use types::FrameType;

#[unsafe(no_mangle)]
pub extern "C" fn leaf_validate_avc_record(rec: &[u8]) -> bool
    ensures { result ≡ record_valid ConfigCodec.Avc rec.now }
{
    codec_config::validate_avc_record(rec)
}

#[unsafe(no_mangle)]
pub extern "C" fn leaf_validate_hevc_record(rec: &[u8]) -> bool
    ensures { result ≡ record_valid ConfigCodec.Hevc rec.now }
{
    codec_config::validate_hevc_record(rec)
}

#[unsafe(no_mangle)]
pub extern "C" fn leaf_validate_aac_config(rec: &[u8]) -> bool
    ensures { result ≡ record_valid ConfigCodec.Aac rec.now }
{
    codec_config::validate_aac_config(rec)
}

#[unsafe(no_mangle)]
pub extern "C" fn leaf_validate_av1_record(rec: &[u8]) -> bool
    ensures { result ≡ accepted (av1 rec.now) }
{
    codec_config::validate_av1_record(rec)
}

#[unsafe(no_mangle)]
pub extern "C" fn leaf_validate_opus_record(rec: &[u8]) -> bool
    ensures { result ≡ accepted (opus_head rec.now) }
{
    codec_config::validate_opus_record(rec)
}

#[unsafe(no_mangle)]
pub extern "C" fn leaf_validate_flac_record(rec: &[u8]) -> bool
    ensures { result ≡ accepted (flac_head rec.now) }
{
    codec_config::validate_flac_record(rec)
}

#[unsafe(no_mangle)]
pub extern "C" fn leaf_config_codec_from_fourcc(fourcc: &[u8]) -> u8
    ensures { result ≡ config_codec_number (from_fourcc fourcc.now) }
{
    ConfigCodec::from_fourcc(fourcc).into()
}

// The Rust's codecs by their numbers; any other number is Opaque.
#[tactic(auto, unfolding(crate::specs::RecordLeaves::codec_of))]
fn codec_of(number: u8) -> ConfigCodec
    ensures { result ≡ codec_of number }
{
    match number {
        0 => ConfigCodec::Avc,
        1 => ConfigCodec::Hevc,
        _ => ConfigCodec::Opaque,
    }
}

#[unsafe(no_mangle)]
pub extern "C" fn leaf_validate_config_record(number: u8, rec: &[u8]) -> bool
    ensures { result ≡ record_valid (codec_of number) rec.now }
{
    codec_config::validate_config_record(codec_of(number), rec)
}

// The rule of a sequence start. A frame type above 3 has none, and gives false.
#[unsafe(no_mangle)]
pub extern "C" fn leaf_sequence_start_config_valid(
    number: u32,
    fourcc: &[u8; 4],
    rec: &[u8],
) -> bool
    ensures { result ≡ start_valid number fourcc.now rec.now }
{
    FrameType::from_number(number).is_ok_and(|frame_type| {
        codec_config::sequence_start_config_valid(frame_type, *fourcc, rec)
    })
}
