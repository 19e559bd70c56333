// What is seen of a frame. Audio and video are inspected by functions of their own: one for both would not be put in line, and its answer would go
// through memory (docs/PERFORMANCE.md).
ghost use Rattle.std.specs.Prelude.{◌≡◌, ◌<◌};
ghost use Rattle.wire.specs.Wire.{byte_at};
ghost use Rattle.types.specs.Types.{frame_number};
ghost use Rattle.multitrack_media.specs.Container.{container_of};
ghost use Rattle.init_cache.specs.Head.{frame_head};
ghost use Rattle.init_cache.specs.Seen.{count_tracks, seen as seenOf, is_container_of, all_valid};
ghost use Rattle.init_cache.specs.Single.{seen_single};

use crate::head::{FrameHead, TagHeader, audio_head, video_head};
use crate::verdicts::{SequenceStart, count_valid_tracks, record_valid_from};
use types::{FrameType, PacketType};

// What kind and hint depend on. Without an accepted container there are 0 tracks, of packet type 0.
#[derive(Clone, Copy, Debug, PartialEq, Eq)]
pub struct Seen {
    pub head: FrameHead,
    pub tracks: usize,
    pub packet_type: u8,
    pub records: usize,
    pub valid_records: usize,
}

impl Seen {
    // An accepted container of a packet type.
    #[tactic(auto, unfolding(crate::specs::Seen::is_container_of))]
    pub fn is_container_of(self, packet_type: PacketType) -> bool
        ensures { result ≡ is_container_of packet_type.0 self }
    {
        self.tracks != 0 && PacketType(self.packet_type) == packet_type
    }

    pub(crate) fn all_valid(self) -> bool
        ensures { result ≡ all_valid self }
    {
        self.valid_records == self.records
    }
}

// The number of tracks, 0 without an accepted container. Tracks are walked only where byte 0 opens one.
#[tactic(auto, using(crate::proofs::Records::tracks_closed, crate::proofs::Records::tracks_opened, types::proofs::Laws::is_known))]
fn count_tracks(frame_type: FrameType, payload: &[u8], tag: u8) -> usize
    requires { tag ≡ byte_at payload.now 0 }
    ensures { result ≡ count_tracks (container_of (frame_number frame_type) payload.now) }
{
    if multitrack_media::opens_container(frame_type, tag) {
        multitrack_media::known_track_count(frame_type, payload).unwrap_or(0)
    } else {
        0
    }
}

// A container is walked once more only where its records are judged. Inlined: as a call of its own it would take the head from memory, also for the frames
// that are no container, and what reads the head behind it would wait for what was stored (docs/PERFORMANCE.md, "Loads that wait").
#[tactic(auto, using(crate::proofs::Records::seen_container, crate::proofs::Records::seen_starts))]
#[inline(always)]
fn inspect_container(frame_type: FrameType, payload: &[u8], head: FrameHead, tracks: usize) -> Seen
    requires head { head ≡ frame_head (frame_number frame_type) payload.now }
    requires tracks { tracks ≡ count_tracks (container_of (frame_number frame_type) payload.now) }
    requires some { 0 < tracks }
    ensures { result ≡ seenOf (frame_number frame_type) payload.now }
{
    let packet_type = wire::byte_at(payload, 1) % 16;
    if PacketType(packet_type) != PacketType::SEQUENCE_START {
        return Seen {
            head,
            tracks,
            packet_type,
            records: 0,
            valid_records: 0,
        };
    }
    let form = multitrack_media::multitrack_type(payload);
    let from = multitrack_media::tracks_start(form);
    Seen {
        head,
        tracks,
        packet_type,
        records: tracks,
        valid_records: count_valid_tracks(frame_type, payload, form, from, tracks),
    }
}

// Inlined, as above.
#[inline(always)]
fn inspect_single(payload: &[u8], head: FrameHead, start: Option<SequenceStart>) -> Seen
    ensures { result ≡ seen_single head start payload.now }
{
    let (records, valid_records) = match start {
        Some(SequenceStart { codec, from }) => {
            (1, usize::from(record_valid_from(codec, payload, from)))
        }
        None => (0, 0),
    };
    Seen {
        head,
        tracks: 0,
        packet_type: 0,
        records,
        valid_records,
    }
}

// Two functions, here and below: the older kit put one for both not in line, and its answer went through memory (docs/PERFORMANCE.md).
#[tactic(auto, using(crate::proofs::Cases::head_tag, crate::proofs::Records::seen_single_lem))]
pub fn inspect_video(payload: &[u8]) -> Seen
    ensures { result ≡ seenOf 1 payload.now }
{
    let head = video_head(payload);
    let tracks = count_tracks(FrameType::VIDEO, payload, head.tag);
    if tracks == 0 {
        return inspect_single(payload, head, head.video_start());
    }
    inspect_container(FrameType::VIDEO, payload, head, tracks)
}

#[tactic(auto, using(crate::proofs::Cases::head_tag, crate::proofs::Records::seen_single_lem))]
pub fn inspect_audio(payload: &[u8]) -> Seen
    ensures { result ≡ seenOf 0 payload.now }
{
    let head = audio_head(payload);
    let tracks = count_tracks(FrameType::AUDIO, payload, head.tag);
    if tracks == 0 {
        return inspect_single(payload, head, head.audio_start());
    }
    inspect_container(FrameType::AUDIO, payload, head, tracks)
}

// Types 2 and 3.
#[tactic(auto, using(crate::proofs::Records::seen_script))]
fn inspect_script(payload: &[u8]) -> Seen
    ensures script { result ≡ seenOf 2 payload.now }
    ensures metadata { result ≡ seenOf 3 payload.now }
{
    let head = FrameHead {
        size: payload.len(),
        tag: wire::byte_at(payload, 0),
        avc_packet_type: 0,
        header: TagHeader::none(),
    };
    Seen {
        head,
        tracks: 0,
        packet_type: 0,
        records: 0,
        valid_records: 0,
    }
}

pub fn inspect(frame_type: FrameType, payload: &[u8]) -> Seen
    ensures { result ≡ seenOf (frame_number frame_type) payload.now }
{
    match frame_type {
        FrameType::Audio => inspect_audio(payload),
        FrameType::Video => inspect_video(payload),
        FrameType::Script | FrameType::Metadata => inspect_script(payload),
    }
}
