// The video tag header.
#![tactic(auto)]

ghost use Rattle.std.specs.Prelude.{◌≡◌, true, false, ◌<◌, ◌≤◌, pos, ◌-ℤ◌};
ghost use Rattle.exvideo.specs.Video.{
  is_enhanced,
  is_command,
  is_timed,
  time_at,
  legacy_header,
  enhanced_header,
  video_header,
};
ghost use Rattle.exvideo.specs.Video.{accept as accepted, refuse as refused};

use types::{ErrorCode, PacketType, VideoFrameType, VideoHeader};

// Result<()>, and the header as far as it was filled.
// Kept (1): `&mut` headers come by value beside the answer, and a refused header stands as far as it was filled (clause of exvideo_parse).
#[derive(Clone, Copy, Debug, PartialEq, Eq)]
pub struct VideoHeaderResult {
    pub error: ErrorCode,
    pub header: VideoHeader,
}

// Whether the FourCC's CodedFrames have a composition time.
#[tactic(auto, unfolding(crate::specs::Video::is_timed))]
fn is_composition_time_codec(tag: u8, fourcc: [u8; 4]) -> bool
    ensures { result ≡ is_timed tag fourcc }
{
    PacketType(tag % 16) == PacketType::CODED_FRAMES
        && (fourcc::same_fourcc(fourcc, *b"avc1")
            || fourcc::same_fourcc(fourcc, *b"hvc1")
            || fourcc::same_fourcc(fourcc, *b"vvc1"))
}

// SI24 of the FLV specification: a 24-bit number below 8,388,608 is itself, any other is itself less 16,777,216.
fn si24(n: usize) -> i32
    requires { n < 16777216 }
    ensures itself { n < 8388608 → result ≡ pos n }
    ensures less { 8388608 ≤ n → result ≡ pos n -ℤ pos 16777216 }
{
    let n = n as i32;
    if n < 8388608 { n } else { n - 16777216 }
}

#[tactic(auto, unfolding(crate::specs::Video::time_at, crate::specs::Video::signed24, crate::specs::Video::pattern32))]
fn composition_time(payload: &[u8], at: usize) -> u32
    ensures { result ≡ time_at payload.now at }
{
    si24(wire::be24_at(payload, at)).cast_unsigned()
}

// Asked of an enhanced tag: a command frame carries a videoCommand and no FourCC. A ModEx wrapper is excluded, since its frame type describes the inner
// packet.
#[tactic(auto, unfolding(crate::specs::Video::is_command, crate::specs::Video::tag_frame_type))]
fn is_command(tag: u8) -> bool
    ensures { is_enhanced tag ≡ true → result ≡ is_command tag }
{
    VideoFrameType(tag / 16 % 8) == VideoFrameType::COMMAND
        && !matches!(
            PacketType(tag % 16),
            PacketType::METADATA | PacketType::MODEX
        )
}

fn accept(header: VideoHeader) -> VideoHeaderResult
    ensures { result ≡ accepted header }
{
    VideoHeaderResult {
        error: ErrorCode::Ok,
        header,
    }
}

fn refuse(header: VideoHeader) -> VideoHeaderResult
    ensures { result ≡ refused header }
{
    VideoHeaderResult {
        error: ErrorCode::Io,
        header,
    }
}

#[tactic(auto, unfolding(crate::specs::Video::legacy_header, crate::specs::Video::is_legacy_avc, crate::specs::Video::tag_frame_type))]
fn parse_legacy(tag: u8, payload: &[u8]) -> VideoHeaderResult
    requires { is_enhanced tag ≡ false }
    ensures { result ≡ legacy_header tag payload.now }
{
    let header = VideoHeader {
        frame_type: tag / 16,
        header_size: 1,
        ..VideoHeader::default()
    };
    // AVCVIDEOPACKET: AVCPacketType, CompositionTime.
    if tag % 16 != 7 || payload.len() < 5 {
        return accept(header);
    }
    accept(VideoHeader {
        composition_time: composition_time(payload, 2),
        header_size: 5,
        ..header
    })
}

#[tactic(auto, unfolding(crate::specs::Video::enhanced_header, crate::specs::Video::tag_frame_type))]
fn parse_enhanced(tag: u8, payload: &[u8]) -> VideoHeaderResult
    requires { is_enhanced tag ≡ true }
    ensures { result ≡ enhanced_header tag payload.now }
{
    let header = VideoHeader {
        is_ex_header: 1,
        packet_type: tag % 16,
        frame_type: tag / 16 % 8,
        ..VideoHeader::default()
    };
    if is_command(tag) {
        if payload.len() < 2 {
            return refuse(header);
        }
        return accept(VideoHeader {
            header_size: 2,
            ..header
        });
    }
    if payload.len() < 5 {
        return refuse(header);
    }
    let header = VideoHeader {
        fourcc: fourcc::fourcc_at(payload, 1),
        header_size: 5,
        ..header
    };
    if !is_composition_time_codec(tag, header.fourcc) {
        return accept(header);
    }
    if payload.len() < 8 {
        return refuse(header);
    }
    accept(VideoHeader {
        composition_time: composition_time(payload, 5),
        header_size: 8,
        ..header
    })
}

#[tactic(auto, unfolding(crate::specs::Video::video_header))]
pub fn exvideo_parse(payload: &[u8]) -> VideoHeaderResult
    ensures { result ≡ video_header payload.now }
{
    let [tag, ..] = *payload else {
        return refuse(VideoHeader::default());
    };
    if wire::is_ex_header(tag) {
        parse_enhanced(tag, payload)
    } else {
        parse_legacy(tag, payload)
    }
}
