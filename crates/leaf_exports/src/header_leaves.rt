// Tag headers.
ghost use Rattle.std.specs.Prelude.{◌≡◌};
ghost use Rattle.exvideo.specs.Video.{video_header};
ghost use Rattle.exaudio.specs.Audio.{audio_header};
ghost use Rattle.leaf_exports.specs.HeaderLeaves.{leaf_video, leaf_audio};

use exvideo::VideoHeaderResult;
use types::{AudioHeader, ErrorCode, VideoHeader};

#[repr(C)]
#[derive(Clone, Copy, Debug, PartialEq, Eq)]
pub struct LeafVideoHeader {
    pub error: i32,
    pub is_ex_header: u8,
    pub packet_type: u8,
    pub frame_type: u8,
    pub fourcc: [u8; 4],
    pub composition_time: u32,
    pub header_size: usize,
}

#[repr(C)]
#[derive(Clone, Copy, Debug, PartialEq, Eq)]
pub struct LeafAudioHeader {
    pub error: i32,
    pub is_ex_header: u8,
    pub packet_type: u8,
    pub audio_codec: u8,
    pub sample_rate: u8,
    pub sample_size: u8,
    pub channels: u8,
    pub aac_packet_type: u8,
    pub fourcc: [u8; 4],
    pub header_size: usize,
}

#[unsafe(no_mangle)]
pub extern "C" fn leaf_exvideo_parse(payload: &[u8]) -> LeafVideoHeader
    ensures { result ≡ leaf_video (video_header payload.now) }
{
    let VideoHeaderResult { error, header } = exvideo::exvideo_parse(payload);
    let VideoHeader {
        is_ex_header,
        packet_type,
        fourcc,
        frame_type,
        composition_time,
        header_size,
    } = header;
    LeafVideoHeader {
        error: error.into(),
        is_ex_header,
        packet_type,
        frame_type,
        fourcc,
        composition_time,
        header_size,
    }
}

#[unsafe(no_mangle)]
pub extern "C" fn leaf_exaudio_parse(payload: &[u8]) -> LeafAudioHeader
    ensures { result ≡ leaf_audio (audio_header payload.now) }
{
    let (error, header) = match exaudio::exaudio_parse(payload) {
        Ok(header) => (ErrorCode::Ok, header),
        Err(error) => (error, AudioHeader::default()),
    };
    let AudioHeader {
        is_ex_header,
        packet_type,
        fourcc,
        audio_codec,
        sample_rate,
        sample_size,
        channels,
        aac_packet_type,
        header_size,
    } = header;
    LeafAudioHeader {
        error: error.into(),
        is_ex_header,
        packet_type,
        audio_codec: audio_codec.into(),
        sample_rate,
        sample_size,
        channels,
        aac_packet_type,
        fourcc,
        header_size,
    }
}
