// The cache kind of a frame, from what is seen of it: the rules of video and those of audio apart.
ghost use Rattle.std.specs.Prelude.{◌≡◌, not, ◌&&◌, ◌||◌};
ghost use Rattle.types.specs.Types.{frame_number};
ghost use Rattle.multitrack_media.specs.Container.{opens_container};
ghost use Rattle.init_cache.specs.Head.{is_readable, is_enhanced_of, is_video_of};
ghost use Rattle.init_cache.specs.Seen.{is_container_of};
ghost use Rattle.init_cache.specs.Kind.{
  kind_number,
  kind_by_number,
  start_kind,
  is_legacy_frame,
  single_kind,
  kind_of,
  cache_kind,
};

use crate::head::{AAC_SEQUENCE_HEADER, AVC_NALU, AVC_SEQUENCE_HEADER, CODEC_ID_AVC, FrameHead};
use crate::seen::{Seen, inspect};
use types::{FrameType, PacketType, VideoFrameType};

// How a relayed media frame should be treated by the init-frame cache.
#[derive(Clone, Copy, Debug, PartialEq, Eq)]
pub enum CacheFrameKind {
    LiveOnly = 0,
    VideoSequenceHeader = 1,
    AudioSequenceHeader = 2,
    VideoKeyframe = 3,
}

impl From<CacheFrameKind> for u8 {
    ghost from_gives = { λ kind number. number ≡ kind_number kind };

    fn from(kind: CacheFrameKind) -> u8 {
        kind as u8
    }
}

// The kind of a number; LiveOnly also where no kind has it.
impl From<u32> for CacheFrameKind {
    ghost from_gives = { λ number kind. kind ≡ kind_by_number number };

    #[tactic(auto, unfolding(crate::specs::Kind::kind_by_number))]
    fn from(number: u32) -> CacheFrameKind {
        match number {
            1 => CacheFrameKind::VideoSequenceHeader,
            2 => CacheFrameKind::AudioSequenceHeader,
            3 => CacheFrameKind::VideoKeyframe,
            _ => CacheFrameKind::LiveOnly,
        }
    }
}

impl FrameHead {
    // A container by its byte 0, or a refused header.
    fn is_unreadable(self, frame_type: FrameType) -> bool
        ensures { result ≡ (opens_container (frame_number frame_type) self.tag || not (is_readable self)) }
    {
        multitrack_media::opens_container(frame_type, self.tag) || !self.is_readable()
    }

    fn is_ex_keyframe(self) -> bool
        ensures { result ≡ (is_video_of 1 1 self && (is_enhanced_of 1 self || is_enhanced_of 3 self)) }
    {
        self.is_video_of(VideoFrameType::KEY)
            && (self.is_enhanced_of(PacketType::CODED_FRAMES)
                || self.is_enhanced_of(PacketType::CODED_FRAMES_X))
    }

    // Legacy AVC: frame type 1 is a "keyframe" for the end of sequence (AVCPacketType 2) as well as for a coded IDR (type 1).
    #[tactic(auto, unfolding(crate::specs::Kind::is_legacy_frame, crate::specs::Head::is_avc_of, exvideo::specs::Video::is_legacy_avc))]
    fn is_legacy_keyframe(self) -> bool
        ensures { result ≡ (is_video_of 1 1 self && is_legacy_frame 1 self) }
    {
        self.is_video_of(VideoFrameType::KEY)
            && !wire::is_ex_header(self.tag)
            && (self.tag % 16 != CODEC_ID_AVC || self.has_avc_packet_type(AVC_NALU))
    }
}

impl Seen {
    // A sequence header is only cacheable when its configuration records are structurally valid; a malformed one is relayed live but never cached.
    fn sequence_header_kind(self, frame_type: FrameType) -> CacheFrameKind
        ensures { result ≡ start_kind (frame_number frame_type) self }
    {
        if !self.all_valid() {
            CacheFrameKind::LiveOnly
        } else if frame_type.is_video() {
            CacheFrameKind::VideoSequenceHeader
        } else {
            CacheFrameKind::AudioSequenceHeader
        }
    }

    // An accepted container of frame type 1 that has coded frames.
    fn is_container_keyframe(self) -> bool
        ensures { result ≡ (is_video_of 1 1 self.head && (is_container_of 1 self || is_container_of 3 self)) }
    {
        self.head.is_video_of(VideoFrameType::KEY)
            && (self.is_container_of(PacketType::CODED_FRAMES)
                || self.is_container_of(PacketType::CODED_FRAMES_X))
    }

    // Video with a readable header that is no container.
    #[tactic(auto, unfolding(crate::specs::Kind::single_kind, crate::specs::Head::is_aac_of))]
    fn single_video_kind(self) -> CacheFrameKind
        ensures { result ≡ single_kind 1 self }
    {
        let head = self.head;
        if head.is_enhanced_of(PacketType::SEQUENCE_START) {
            return self.sequence_header_kind(FrameType::VIDEO);
        }
        if head.is_ex_keyframe() {
            return CacheFrameKind::VideoKeyframe;
        }
        if head.is_avc_of(AVC_SEQUENCE_HEADER) {
            return self.sequence_header_kind(FrameType::VIDEO);
        }
        if head.is_legacy_keyframe() {
            return CacheFrameKind::VideoKeyframe;
        }
        CacheFrameKind::LiveOnly
    }

    // Audio likewise. None of it is a keyframe.
    #[tactic(auto, unfolding(crate::specs::Kind::single_kind, crate::specs::Head::is_video_of, crate::specs::Head::is_avc_of))]
    fn single_audio_kind(self) -> CacheFrameKind
        ensures { result ≡ single_kind 0 self }
    {
        let head = self.head;
        if head.is_enhanced_of(PacketType::SEQUENCE_START) {
            return self.sequence_header_kind(FrameType::AUDIO);
        }
        if head.is_aac_of(AAC_SEQUENCE_HEADER) {
            return self.sequence_header_kind(FrameType::AUDIO);
        }
        CacheFrameKind::LiveOnly
    }

    #[tactic(auto, unfolding(crate::specs::Kind::kind_of))]
    pub fn video_kind(self) -> CacheFrameKind
        ensures { result ≡ kind_of 1 self }
    {
        let head = self.head;
        if head.is_video_of(VideoFrameType::COMMAND) {
            return CacheFrameKind::LiveOnly;
        }
        if self.is_container_of(PacketType::SEQUENCE_START) {
            return self.sequence_header_kind(FrameType::VIDEO);
        }
        if self.is_container_keyframe() {
            return CacheFrameKind::VideoKeyframe;
        }
        if head.is_unreadable(FrameType::VIDEO) {
            return CacheFrameKind::LiveOnly;
        }
        self.single_video_kind()
    }

    #[tactic(auto, unfolding(crate::specs::Kind::kind_of, crate::specs::Head::is_video_of))]
    pub fn audio_kind(self) -> CacheFrameKind
        ensures { result ≡ kind_of 0 self }
    {
        let head = self.head;
        if self.is_container_of(PacketType::SEQUENCE_START) {
            return self.sequence_header_kind(FrameType::AUDIO);
        }
        if head.is_unreadable(FrameType::AUDIO) {
            return CacheFrameKind::LiveOnly;
        }
        self.single_audio_kind()
    }

    #[tactic(auto, unfolding(crate::specs::Kind::kind_of))]
    pub fn kind_of(self, frame_type: FrameType) -> CacheFrameKind
        ensures { result ≡ kind_of (frame_number frame_type) self }
    {
        match frame_type {
            FrameType::Audio => self.audio_kind(),
            FrameType::Video => self.video_kind(),
            FrameType::Script | FrameType::Metadata => CacheFrameKind::LiveOnly,
        }
    }
}

// Classify a publisher media frame for init-cache storage.
#[tactic(auto, unfolding(crate::specs::Kind::cache_kind))]
pub fn classify_cache_frame(frame_type: FrameType, payload: &[u8]) -> CacheFrameKind
    ensures { result ≡ cache_kind (frame_number frame_type) payload.now }
{
    inspect(frame_type, payload).kind_of(frame_type)
}
