// The delivery hint of a frame: how a live media frame may be treated under congestion.
#![tactic(auto)]

ghost use Rattle.std.specs.Prelude.{◌≡◌, cond, [], ◌∷◌, ℕ, eqb, leb};
ghost use Rattle.types.specs.Types.{frame_number};
ghost use Rattle.init_cache.specs.Kind.{kind_number};
ghost use Rattle.delivery.specs.Hint.{
  hint_number,
  hint_from,
  hint_numbers,
  is_sequence_header,
  is_command_frame,
  names_packet_type,
  is_metadata,
  is_critical,
  is_resync_point,
  hint_of,
  delivery_hint,
};

use init_cache::head::FrameHead;
use init_cache::kind::CacheFrameKind;
use init_cache::seen::Seen;
use types::{FrameType, PacketType, VideoFrameType};

#[derive(Clone, Copy, Debug, PartialEq, Eq)]
pub enum DeliveryHint {
    // Codec headers (sequence headers, init data) and script/metadata: everything after depends on them, so a congested receiver still gets them.
    Critical = 0,
    // A point a receiver can resume from after skipped frames without decode errors: a video keyframe, or any audio frame on a route without video.
    ResyncPoint = 1,
    // Everything else (dependent video frames, audio next to video): skipped while the receiver is behind.
    Droppable = 2,
}

impl DeliveryHint {
    // Stable one-byte wire code (cluster media protocol).
    // Kept (4): `to_u8` and `from_u8`, the Rust's names, are promised by docs/REQUIREMENTS.md and ASSURANCE.md.
    pub fn to_u8(self) -> u8
        ensures { result ≡ hint_number self }
    {
        self as u8
    }

    // Inverse of to_u8.
    #[tactic(auto, unfolding(crate::specs::Hint::hint_from))]
    pub fn from_u8(code: u8) -> Option<DeliveryHint>
        ensures meaning { result ≡ hint_from code }
        ensures numbers { hint_numbers result ≡ cond (leb code 2) (code ∷ []) [] }
    {
        match code {
            0 => Some(DeliveryHint::Critical),
            1 => Some(DeliveryHint::ResyncPoint),
            2 => Some(DeliveryHint::Droppable),
            _ => None,
        }
    }

    // Classify one live frame. The payload is without its ModEx layers. The route flag says whether the frame's stream carries video: 0 it does not, any
    // other number it does.
    #[tactic(auto, unfolding(crate::specs::Hint::delivery_hint))]
    pub fn classify(frame_type: FrameType, payload: &[u8], route_has_video: u32) -> DeliveryHint
        ensures { result ≡ delivery_hint (frame_number frame_type) route_has_video payload.now }
    {
        let seen = init_cache::seen::inspect(frame_type, payload);
        DeliveryHint::of_seen(frame_type, seen, seen.kind_of(frame_type), route_has_video)
    }

    // The same from what is seen of the frame, and its kind.
    #[tactic(auto, unfolding(crate::specs::Hint::hint_of, crate::specs::Hint::is_critical))]
    fn of_seen(
        frame_type: FrameType,
        seen: Seen,
        kind: CacheFrameKind,
        route_has_video: u32,
    ) -> DeliveryHint
        ensures { result ≡ hint_of (frame_number frame_type) route_has_video seen kind }
    {
        match frame_type {
            FrameType::Audio => DeliveryHint::of_audio(seen, kind, route_has_video),
            FrameType::Video => DeliveryHint::of_video(seen, kind),
            FrameType::Script | FrameType::Metadata => DeliveryHint::Critical,
        }
    }

    #[tactic(auto, unfolding(crate::specs::Hint::hint_of))]
    pub fn of_audio(seen: Seen, kind: CacheFrameKind, route_has_video: u32) -> DeliveryHint
        ensures { result ≡ hint_of 0 route_has_video seen kind }
    {
        if is_critical_audio(seen, kind) {
            DeliveryHint::Critical
        } else if is_audio_resync_point(kind, route_has_video) {
            DeliveryHint::ResyncPoint
        } else {
            DeliveryHint::Droppable
        }
    }

    // The route flag has no say in video.
    #[tactic(auto, unfolding(crate::specs::Hint::hint_of, crate::specs::Hint::is_resync_point))]
    pub fn of_video(seen: Seen, kind: CacheFrameKind) -> DeliveryHint
        ensures { (flag : ℕ) → result ≡ hint_of 1 flag seen kind }
    {
        if is_critical_video(seen, kind) {
            DeliveryHint::Critical
        } else if kind == CacheFrameKind::VideoKeyframe {
            DeliveryHint::ResyncPoint
        } else {
            DeliveryHint::Droppable
        }
    }
}

fn is_sequence_header(kind: CacheFrameKind) -> bool
    ensures { result ≡ is_sequence_header kind }
{
    matches!(
        kind,
        CacheFrameKind::VideoSequenceHeader | CacheFrameKind::AudioSequenceHeader
    )
}

// StartSeek and EndSeek, enhanced or legacy frame type 5. The frame type of an unpeeled ModEx wrapper describes the packet inside.
#[tactic(auto, unfolding(crate::specs::Hint::is_command_frame))]
fn is_video_command(head: FrameHead) -> bool
    ensures { result ≡ is_command_frame 1 head }
{
    head.is_video_of(VideoFrameType::COMMAND)
        && (PacketType(head.tag % 16) != PacketType::MODEX || !wire::is_ex_header(head.tag))
}

// A packet type of a readable enhanced header or of an accepted container.
#[tactic(auto, unfolding(crate::specs::Hint::names_packet_type))]
fn names_packet_type(seen: Seen, packet_type: PacketType) -> bool
    ensures { result ≡ names_packet_type packet_type.0 seen }
{
    seen.head.is_enhanced_of(packet_type) || seen.is_container_of(packet_type)
}

// Nothing replays metadata or MultichannelConfig later.
#[tactic(auto, unfolding(crate::specs::Hint::is_metadata))]
fn is_audio_metadata(seen: Seen) -> bool
    ensures { result ≡ is_metadata 0 seen }
{
    names_packet_type(seen, PacketType::AUDIO_MULTICHANNEL)
        || names_packet_type(seen, PacketType::AUDIO_METADATA)
}

#[tactic(auto, unfolding(crate::specs::Hint::is_critical, crate::specs::Hint::is_command_frame, init_cache::specs::Head::is_video_of))]
fn is_critical_audio(seen: Seen, kind: CacheFrameKind) -> bool
    ensures { result ≡ is_critical 0 seen kind }
{
    // The RTMP "audio silence" message is a zero-length audio payload.
    is_sequence_header(kind) || seen.head.size == 0 || is_audio_metadata(seen)
}

#[tactic(auto, unfolding(crate::specs::Hint::is_critical, crate::specs::Hint::is_metadata))]
fn is_critical_video(seen: Seen, kind: CacheFrameKind) -> bool
    ensures { result ≡ is_critical 1 seen kind }
{
    is_sequence_header(kind)
        || is_video_command(seen.head)
        || names_packet_type(seen, PacketType::METADATA)
}

// Audio on a route without video serves as the resync point instead of a keyframe that never comes.
#[tactic(auto, unfolding(crate::specs::Hint::is_resync_point))]
fn is_audio_resync_point(kind: CacheFrameKind, route_has_video: u32) -> bool
    ensures { result ≡ is_resync_point 0 route_has_video kind }
{
    kind == CacheFrameKind::VideoKeyframe || route_has_video == 0
}
