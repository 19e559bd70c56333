// The head of a frame: its length, byte 0, byte 1 of legacy AVC, and its tag header.
ghost use Rattle.std.specs.Prelude.{◌≡◌, cond, ◌&&◌, eqb, ltb};
ghost use Rattle.wire.specs.Wire.{byte_at};
ghost use Rattle.exvideo.specs.Video.{tag_frame_type, is_legacy_avc};
ghost use Rattle.init_cache.specs.Head.{
  of_video,
  to_video,
  of_audio,
  no_header,
  frame_head,
  is_readable,
  is_enhanced_of,
  is_video_of,
  is_avc_of,
  is_aac_of,
};

use exvideo::VideoHeaderResult;
use types::{AudioCodec, AudioHeader, ErrorCode, PacketType, VideoFrameType, VideoHeader};

// CodecID of legacy AVC, SoundFormat of legacy AAC.
pub(crate) const CODEC_ID_AVC: u8 = 7;

const SOUND_FORMAT_AAC: u8 = 10;

// AVCPacketType of a sequence header and of coded NAL units, AACPacketType of a sequence header.
pub(crate) const AVC_SEQUENCE_HEADER: u8 = 0;

pub(crate) const AVC_NALU: u8 = 1;

pub(crate) const AAC_SEQUENCE_HEADER: u8 = 0;

// AudioHeader and VideoHeader in one, with the header's error: the fields that both have, those of video, those of audio.
// Kept (1): as VideoHeaderResult, which it is made of and gives back: a refused header stands as far as it was filled.
#[derive(Clone, Copy, Debug, PartialEq, Eq)]
pub struct TagHeader {
    pub error: ErrorCode,
    pub is_ex_header: u8,
    pub packet_type: u8,
    pub fourcc: [u8; 4],
    pub header_size: usize,
    pub frame_type: u8,
    pub composition_time: u32,
    pub audio_codec: AudioCodec,
    pub sample_rate: u8,
    pub sample_size: u8,
    pub channels: u8,
    pub aac_packet_type: u8,
}

// The payload's length, its byte 0, byte 1 of legacy AVC, and the header.
#[derive(Clone, Copy, Debug, PartialEq, Eq)]
pub struct FrameHead {
    pub size: usize,
    pub tag: u8,
    pub avc_packet_type: u8,
    pub header: TagHeader,
}

impl From<VideoHeaderResult> for TagHeader {
    ghost from_gives = { λ parsed header. header ≡ of_video parsed };

    fn from(parsed: VideoHeaderResult) -> TagHeader {
        let VideoHeaderResult { error, header } = parsed;
        let fourcc = header.fourcc;
        TagHeader {
            error,
            is_ex_header: header.is_ex_header,
            packet_type: header.packet_type,
            fourcc,
            header_size: header.header_size,
            frame_type: header.frame_type,
            composition_time: header.composition_time,
            ..TagHeader::none()
        }
    }
}

// The header that the tag header was made of.
impl From<TagHeader> for VideoHeaderResult {
    ghost from_gives = { λ header parsed. parsed ≡ to_video header };

    fn from(header: TagHeader) -> VideoHeaderResult {
        let fourcc = header.fourcc;
        VideoHeaderResult {
            error: header.error,
            header: VideoHeader {
                is_ex_header: header.is_ex_header,
                packet_type: header.packet_type,
                fourcc,
                frame_type: header.frame_type,
                composition_time: header.composition_time,
                header_size: header.header_size,
            },
        }
    }
}

// A refused audio header is the default.
impl From<Result<AudioHeader, ErrorCode>> for TagHeader {
    ghost from_gives = { λ parsed header. header ≡ of_audio parsed };

    fn from(parsed: Result<AudioHeader, ErrorCode>) -> TagHeader {
        match parsed {
            Ok(header) => {
                let fourcc = header.fourcc;
                TagHeader {
                    is_ex_header: header.is_ex_header,
                    packet_type: header.packet_type,
                    fourcc,
                    header_size: header.header_size,
                    audio_codec: header.audio_codec,
                    sample_rate: header.sample_rate,
                    sample_size: header.sample_size,
                    channels: header.channels,
                    aac_packet_type: header.aac_packet_type,
                    ..TagHeader::none()
                }
            }
            Err(error) => TagHeader {
                error,
                ..TagHeader::none()
            },
        }
    }
}

impl TagHeader {
    // Types 2 and 3 have no header, and no error.
    pub fn none() -> TagHeader
        ensures { result ≡ no_header }
    {
        TagHeader {
            error: ErrorCode::Ok,
            is_ex_header: 0,
            packet_type: 0,
            fourcc: [0; 4],
            header_size: 0,
            frame_type: 0,
            composition_time: 0,
            audio_codec: AudioCodec::default(),
            sample_rate: 0,
            sample_size: 0,
            channels: 0,
            aac_packet_type: 0,
        }
    }
}

// Codec nibble 7 of a legacy tag.
#[tactic(auto, unfolding(exvideo::specs::Video::is_legacy_avc))]
fn is_legacy_avc(tag: u8) -> bool
    ensures { result ≡ is_legacy_avc tag }
{
    !wire::is_ex_header(tag) && tag % 16 == CODEC_ID_AVC
}

// The frame type that byte 0 names: 3 bits where bit 7 is set, or else the high nibble.
#[tactic(auto, unfolding(exvideo::specs::Video::tag_frame_type))]
fn tag_frame_type(tag: u8) -> u8
    ensures { result ≡ tag_frame_type tag }
{
    if wire::is_ex_header(tag) {
        tag / 16 % 8
    } else {
        tag / 16
    }
}

// AVCPacketType of legacy AVC, 0 of any other video.
fn avc_packet_type(payload: &[u8], tag: u8) -> u8
    ensures { result ≡ cond (is_legacy_avc tag) (byte_at payload.now 1) 0 }
{
    if is_legacy_avc(tag) {
        wire::byte_at(payload, 1)
    } else {
        0
    }
}

#[tactic(auto, unfolding(crate::specs::Head::frame_head, crate::specs::Head::tag_header))]
pub(crate) fn video_head(payload: &[u8]) -> FrameHead
    ensures { result ≡ frame_head 1 payload.now }
{
    let tag = wire::byte_at(payload, 0);
    FrameHead {
        size: payload.len(),
        tag,
        avc_packet_type: avc_packet_type(payload, tag),
        header: TagHeader::from(exvideo::exvideo_parse(payload)),
    }
}

#[tactic(auto, unfolding(crate::specs::Head::frame_head, crate::specs::Head::tag_header))]
pub(crate) fn audio_head(payload: &[u8]) -> FrameHead
    ensures { result ≡ frame_head 0 payload.now }
{
    let tag = wire::byte_at(payload, 0);
    FrameHead {
        size: payload.len(),
        tag,
        avc_packet_type: 0,
        header: TagHeader::from(exaudio::exaudio_parse(payload)),
    }
}

impl FrameHead {
    pub(crate) fn is_readable(self) -> bool
        ensures { result ≡ is_readable self }
    {
        self.header.error.is_ok()
    }

    // A readable enhanced header of a packet type.
    #[tactic(auto, unfolding(crate::specs::Head::is_enhanced_of))]
    pub fn is_enhanced_of(self, packet_type: PacketType) -> bool
        ensures { result ≡ is_enhanced_of packet_type.0 self }
    {
        self.is_readable()
            && self.header.is_ex_header == 1
            && PacketType(self.header.packet_type) == packet_type
    }

    // Video of a frame type. Enhanced and legacy tags both spell a command as 5, and in both its low nibble is no packet type or codec.
    #[tactic(auto, unfolding(crate::specs::Head::is_video_of))]
    pub fn is_video_of(self, video_frame_type: VideoFrameType) -> bool
        ensures { result ≡ is_video_of video_frame_type.0 1 self }
    {
        VideoFrameType(tag_frame_type(self.tag)) == video_frame_type
    }

    // Byte 1 is there and is this AVCPacketType. Asked of legacy AVC.
    pub(crate) fn has_avc_packet_type(self, number: u8) -> bool
        ensures { result ≡ (ltb 1 self.size && eqb self.avc_packet_type number) }
    {
        1 < self.size && self.avc_packet_type == number
    }

    // Video that is legacy AVC of an AVCPacketType.
    #[tactic(auto, unfolding(crate::specs::Head::is_avc_of))]
    pub(crate) fn is_avc_of(self, number: u8) -> bool
        ensures { result ≡ is_avc_of number 1 self }
    {
        is_legacy_avc(self.tag) && self.has_avc_packet_type(number)
    }

    // Audio that is legacy AAC of an AACPacketType.
    #[tactic(auto, unfolding(crate::specs::Head::is_aac_of))]
    pub(crate) fn is_aac_of(self, number: u8) -> bool
        ensures { result ≡ is_aac_of number 0 self }
    {
        self.tag / 16 == SOUND_FORMAT_AAC && 1 < self.size && self.header.aac_packet_type == number
    }
}
