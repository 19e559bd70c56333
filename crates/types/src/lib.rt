// The types of src/types.rs that the frame side uses: error numbers, frame types, packet types, audio codecs, the tag headers, ModEx and the
// track descriptor.
#![tactic(auto)]

#[cfg(test)]
mod tests;

ghost use Rattle.std.specs.Prelude.{◌≡◌, cond};
ghost use Rattle.types.specs.Types.{
  error_number,
  is_ok,
  frame_number,
  frame_type_of,
  frame_type_answer,
  value,
  refusal,
  is_audio,
  is_video,
  is_script_or_metadata,
  is_unknown_type,
  packet_type_of,
  codec_number,
  multitrack_number,
  default_multitrack,
  modex_number,
};

// The Rust's error codes that are in scope, and those of the added entries.
#[derive(Clone, Copy, Debug, PartialEq, Eq)]
pub enum ErrorCode {
    Ok = 0,
    Io = -1,
    Protocol = -3,
    Chunk = -5,
    Unsupported = -7,
    UnknownFrameType = -21,
    OutputTooShort = -22,
    NoSuchTrack = -23,
    NotAContainer = -24,
    Truncated = -25,
    OutOfBounds = -26,
    BadLength = -27,
    BadValue = -28,
    NotFlv = -29,
    WrongBackPointer = -30,
    SlotTooShort = -31,
    OutOfRange = -32,
    DebtLimit = -33,
}

impl From<ErrorCode> for i32 {
    ghost from_gives = { λ error number. number ≡ error_number error };

    #[tactic(auto, unfolding(crate::specs::Types::error_number))]
    fn from(error: ErrorCode) -> i32 {
        error as i32
    }
}

impl ErrorCode {
    pub fn is_ok(self) -> bool
        ensures { result ≡ is_ok self }
    {
        self == ErrorCode::Ok
    }
}

// The kind of message that a payload came in.
#[derive(Clone, Copy, Debug, PartialEq, Eq)]
pub enum FrameType {
    Audio = 0,
    Video = 1,
    Script = 2,
    Metadata = 3,
}

impl FrameType {
    pub const AUDIO: FrameType = FrameType::Audio;

    pub const VIDEO: FrameType = FrameType::Video;

    pub const SCRIPT: FrameType = FrameType::Script;

    pub const METADATA: FrameType = FrameType::Metadata;

    // Kept (4): the name that the requirement has (docs/DECISIONS.md).
    #[tactic(auto, unfolding(crate::specs::Types::frame_type_of))]
    pub fn from_number(n: u32) -> Result<FrameType, ErrorCode>
        ensures meaning { result ≡ frame_type_of n }
        ensures numbers { frame_type_answer result ≡ cond (is_unknown_type n) (refusal ErrorCode.UnknownFrameType) (value n) }
    {
        match n {
            0 => Ok(FrameType::AUDIO),
            1 => Ok(FrameType::VIDEO),
            2 => Ok(FrameType::SCRIPT),
            3 => Ok(FrameType::METADATA),
            _ => Err(ErrorCode::UnknownFrameType),
        }
    }

    pub fn is_audio(self) -> bool
        ensures { result ≡ is_audio (frame_number self) }
    {
        self == FrameType::AUDIO
    }

    pub fn is_video(self) -> bool
        ensures { result ≡ is_video (frame_number self) }
    {
        self == FrameType::VIDEO
    }

    pub fn is_script_or_metadata(self) -> bool
        ensures { result ≡ is_script_or_metadata (frame_number self) }
    {
        matches!(self, FrameType::Script | FrameType::Metadata)
    }
}

impl From<FrameType> for u32 {
    ghost from_gives = { λ frame_type number. number ≡ frame_number frame_type };

    fn from(frame_type: FrameType) -> u32 {
        frame_type as u32
    }
}

#[derive(Clone, Copy, Debug, PartialEq, Eq, Default)]
pub enum AudioCodec {
    #[default]
    Pcm = 0,
    Adpcm = 1,
    Mp3 = 2,
    PcmLe = 3,
    Nelly16k = 4,
    Nelly8k = 5,
    Nelly = 6,
    G711A = 7,
    G711U = 8,
    Aac = 10,
    Speex = 11,
    Opus = 14,
}

impl From<AudioCodec> for u8 {
    ghost from_gives = { λ codec number. number ≡ codec_number codec };

    fn from(codec: AudioCodec) -> u8 {
        codec as u8
    }
}

// A packet type of Enhanced RTMP v2: four bits on the wire. Audio and video number theirs apart, so that one number can have two names.
#[derive(Clone, Copy, Debug, PartialEq, Eq)]
pub struct PacketType(pub u8);

impl PacketType {
    pub const SEQUENCE_START: PacketType = PacketType(0);

    pub const CODED_FRAMES: PacketType = PacketType(1);

    // Video; audio has Metadata there.
    pub const CODED_FRAMES_X: PacketType = PacketType(3);

    // Video; audio has MultichannelConfig there.
    pub const METADATA: PacketType = PacketType(4);

    pub const AUDIO_METADATA: PacketType = PacketType(3);

    pub const AUDIO_MULTICHANNEL: PacketType = PacketType(4);

    pub const AUDIO_MULTITRACK: PacketType = PacketType(5);

    pub const VIDEO_MULTITRACK: PacketType = PacketType(6);

    pub const MODEX: PacketType = PacketType(7);

    // Kept (4): likewise.
    pub fn from_number(n: u8) -> PacketType
        ensures { result ≡ packet_type_of n }
    {
        PacketType(n)
    }
}

// A video frame type of FLV: the high nibble of a legacy tag, three bits of an enhanced one. Two are in scope by name.
#[derive(Clone, Copy, Debug, PartialEq, Eq)]
pub struct VideoFrameType(pub u8);

impl VideoFrameType {
    pub const KEY: VideoFrameType = VideoFrameType(1);

    pub const COMMAND: VideoFrameType = VideoFrameType(5);
}

// The capability mask of the connect command, of which one bit is in scope.
#[derive(Clone, Copy, Debug, PartialEq, Eq)]
pub struct CapsExMask(pub u32);

impl CapsExMask {
    pub const MODEX: CapsExMask = CapsExMask(0x04);
}

#[derive(Clone, Copy, Debug, PartialEq, Eq, Default)]
pub struct VideoHeader {
    pub is_ex_header: u8,
    pub packet_type: u8,
    pub fourcc: [u8; 4],
    pub frame_type: u8,
    pub composition_time: u32,
    pub header_size: usize,
}

#[derive(Clone, Copy, Debug, PartialEq, Eq, Default)]
pub struct AudioHeader {
    pub is_ex_header: u8,
    pub packet_type: u8,
    pub fourcc: [u8; 4],
    pub audio_codec: AudioCodec,
    pub sample_rate: u8,
    pub sample_size: u8,
    pub channels: u8,
    pub aac_packet_type: u8,
    pub header_size: usize,
}

#[derive(Clone, Copy, Debug, PartialEq, Eq, Default)]
pub enum MultitrackType {
    #[default]
    Audio = 0,
    Video = 1,
    Metadata = 2,
}

impl From<MultitrackType> for u8 {
    ghost from_gives = { λ track_type number. number ≡ multitrack_number track_type };

    fn from(track_type: MultitrackType) -> u8 {
        track_type as u8
    }
}

// The AMF0 track descriptor.
#[derive(Clone, Copy, Debug, PartialEq, Eq)]
pub struct Multitrack {
    pub track_type: MultitrackType,
    pub track_name: [u8; 64],
}

// Kept (4): by hand, since a derived `default` says nothing of 64 elements (tried).
impl Default for Multitrack {
    ghost is_default = { λ multitrack. multitrack ≡ default_multitrack };

    fn default() -> Multitrack {
        Multitrack {
            track_type: MultitrackType::default(),
            track_name: [0; 64],
        }
    }
}

#[derive(Clone, Copy, Debug, PartialEq, Eq, Default)]
pub enum ModexType {
    TimestampOffsetNano = 0,
    #[default]
    Nop = 1,
}

impl From<ModexType> for u8 {
    ghost from_gives = { λ modex_type number. number ≡ modex_number modex_type };

    fn from(modex_type: ModexType) -> u8 {
        modex_type as u8
    }
}

// What one ModEx layer says.
#[derive(Clone, Copy, Debug, PartialEq, Eq, Default)]
pub struct Modex {
    pub modex_type: ModexType,
    pub offset: u64,
    pub next_packet_type: u8,
}
