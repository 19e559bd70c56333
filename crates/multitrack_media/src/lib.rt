// Containers of Enhanced RTMP v2 multitrack audio and video: acceptance, the number of tracks, and a track by number.
#![tactic(auto)]

ghost use Rattle.std.specs.Prelude.{◌≡◌, cond, ◌+◌, ◌≤◌, leb, length};
ghost use Rattle.wire.specs.Wire.{byte_at, high};
ghost use Rattle.types.specs.Types.{frame_number};
ghost use Rattle.multitrack_media.specs.Container.{
  opens_container,
  form_number,
  form_in,
  own_number,
  legal_head,
  sized_at,
  header_at,
  track_fourcc,
  place_at,
  heads_at,
  tracks_start,
  container_heads,
};
ghost use Rattle.multitrack_media.specs.Answer.{
  track_count,
  count_answer,
  count_numbers,
  no_track,
  track_info,
  track_part,
  video_frame_type,
  first_track_fourcc,
  has_packet_type,
  has_sequence_start,
  has_metadata,
  has_keyframe,
};
ghost use Rattle.multitrack_media.specs.Positions.{walk_of, count_heads};
ghost use Rattle.multitrack_media.specs.Halves.{halves_count, HalvesAt};

use types::{ErrorCode, FrameType, PacketType, VideoFrameType};

// A container packed with empty tracks costs no more than this many turns.
pub const MAX_MULTITRACK_SUBTRACKS: usize = 4096;

#[derive(Clone, Copy, Debug, PartialEq, Eq)]
pub enum AvMultitrackType {
    OneTrack,
    ManyTracks,
    ManyTracksManyCodecs,
}

// What a track's head says: the id, the body's start in the payload and its length.
#[derive(Clone, Copy, Debug, PartialEq, Eq)]
pub struct TrackHeader {
    pub track_id: u8,
    pub start: usize,
    pub length: usize,
}

// A track's id, FourCC and place: its body's start in the payload, and its length.
#[derive(Clone, Copy, Debug, PartialEq, Eq, Default)]
pub struct TrackPlace {
    pub id: u8,
    pub fourcc: [u8; 4],
    pub start: usize,
    pub length: usize,
}

// What a track request finds.
// Kept (1): its count stands beside the refusal -23 (clause `meaning` of track_info).
#[derive(Clone, Copy, Debug, PartialEq, Eq)]
pub struct TrackInfo {
    pub error: ErrorCode,
    pub count: usize,
    pub track_id: u8,
    pub packet_type: u8,
    pub fourcc: [u8; 4],
    pub video_frame_type: u8,
    pub start: usize,
    pub length: usize,
}

// The number of tracks, the number of one about halfway, and where the head of that one starts; or the count once more, and any place.
#[derive(Clone, Copy, Debug, PartialEq, Eq)]
pub struct Halves {
    pub count: usize,
    pub middle: usize,
    pub at: usize,
}

// The number of tracks, and where the head of the wanted one starts, 0 if there is none.
#[derive(Clone, Copy, Debug, PartialEq, Eq)]
struct Walk {
    count: usize,
    at: usize,
}

// Whether a payload with this byte 0 is a container, accepted or not.
#[tactic(auto, unfolding(crate::specs::Container::opens_container))]
pub fn opens_container(frame_type: FrameType, tag: u8) -> bool
    ensures { result ≡ opens_container (frame_number frame_type) tag }
{
    match frame_type {
        // The high nibble 9 is the enhanced header. Legacy sound formats can have a low nibble of 5.
        FrameType::Audio => tag / 16 == 9 && PacketType(tag % 16) == PacketType::AUDIO_MULTITRACK,
        // The low nibble of a command is no packet type.
        FrameType::Video => {
            wire::is_ex_header(tag)
                && VideoFrameType(tag / 16 % 8) != VideoFrameType::COMMAND
                && PacketType(tag % 16) == PacketType::VIDEO_MULTITRACK
        }
        FrameType::Script | FrameType::Metadata => false,
    }
}

pub fn is_multitrack_container(frame_type: FrameType, payload: &[u8]) -> bool
    ensures { result ≡ opens_container (frame_number frame_type) (byte_at payload.now 0) }
{
    opens_container(frame_type, wire::byte_at(payload, 0))
}

// The form that byte 1 names, in a legal head.
#[tactic(auto, unfolding(crate::specs::Container::form_of))]
pub fn multitrack_type(payload: &[u8]) -> AvMultitrackType
    ensures meaning { result ≡ form_in payload.now }
    ensures number { form_number result ≡ cond (leb (high (byte_at payload.now 1)) 2) (high (byte_at payload.now 1)) 2 }
{
    match wire::byte_at(payload, 1) / 16 {
        0 => AvMultitrackType::OneTrack,
        1 => AvMultitrackType::ManyTracks,
        _ => AvMultitrackType::ManyTracksManyCodecs,
    }
}

// A container's own number: the packet type that says container.
// Kept (1): public and named in docs/REQUIREMENTS.md; a FrameType would ask more.
pub fn own_number(frame_type: u32) -> u8
    ensures { result ≡ own_number frame_type }
{
    if frame_type == 0 {
        PacketType::AUDIO_MULTITRACK.0
    } else {
        PacketType::VIDEO_MULTITRACK.0
    }
}

// Bytes 0 and 1 of a container, which names no container inside it.
#[tactic(auto, unfolding(crate::specs::Container::legal_head))]
fn legal_head(frame_type: FrameType, payload: &[u8]) -> bool
    ensures { result ≡ legal_head (frame_number frame_type) (byte_at payload.now 0) (byte_at payload.now 1) }
{
    let second = wire::byte_at(payload, 1);
    is_multitrack_container(frame_type, payload)
        && second / 16 <= 2
        && second % 16 != own_number(frame_type.into())
}

// Where the first track's head starts: behind the shared FourCC, if there is one.
pub fn tracks_start(form: AvMultitrackType) -> usize
    ensures { result ≡ tracks_start form }
{
    match form {
        AvMultitrackType::OneTrack | AvMultitrackType::ManyTracks => 6,
        AvMultitrackType::ManyTracksManyCodecs => 2,
    }
}

// An id byte at `at`, a 24-bit length and the body, which may be empty.
#[tactic(auto, unfolding(crate::specs::Container::sized_at, crate::specs::Container::body_at))]
fn read_sized_header(payload: &[u8], at: usize) -> Option<TrackHeader>
    ensures { result ≡ sized_at payload.now at }
{
    if payload.len() <= at {
        return None;
    }
    let start = at + 4;
    if payload.len() < start {
        return None;
    }
    let length = wire::be24_at(payload, at + 1);
    if payload.len() < start + length {
        return None;
    }
    Some(TrackHeader {
        track_id: payload[at],
        start,
        length,
    })
}

// The track whose head starts at `at`. In OneTrack the body is the rest. In line, since an Option that a function returns goes through memory.
// Kept (5): payload, form and place apart, here and below, as the clauses of this crate and those above name them.
#[tactic(auto, unfolding(crate::specs::Container::header_at, crate::specs::Container::sized_at, crate::specs::Container::body_at))]
#[inline(always)]
pub fn read_track_header(payload: &[u8], form: AvMultitrackType, at: usize) -> Option<TrackHeader>
    ensures { result ≡ header_at form payload.now at }
{
    if payload.len() <= at {
        return None;
    }
    match form {
        AvMultitrackType::OneTrack => Some(TrackHeader {
            track_id: payload[at],
            start: at + 1,
            length: payload.len() - at - 1,
        }),
        AvMultitrackType::ManyTracks => read_sized_header(payload, at),
        AvMultitrackType::ManyTracksManyCodecs => read_sized_header(payload, at + 4),
    }
}

// The FourCC of the track whose head starts at `at`.
#[tactic(auto, unfolding(crate::specs::Container::track_fourcc))]
fn track_fourcc(payload: &[u8], form: AvMultitrackType, at: usize) -> [u8; 4]
    ensures { result ≡ track_fourcc form payload.now at }
{
    match form {
        AvMultitrackType::OneTrack | AvMultitrackType::ManyTracks => fourcc::fourcc_at(payload, 2),
        AvMultitrackType::ManyTracksManyCodecs => fourcc::fourcc_at(payload, at),
    }
}

// The track whose head starts at `at`, with its FourCC. All 0 where no track starts.
// Kept (1): all 0, and no Option: the clause of track_at says so (place_at).
#[tactic(auto, unfolding(crate::specs::Container::place_at))]
pub fn track_at(payload: &[u8], form: AvMultitrackType, at: usize) -> TrackPlace
    ensures { result ≡ place_at form payload.now at }
{
    let Some(header) = read_track_header(payload, form, at) else {
        return TrackPlace::default();
    };
    TrackPlace {
        id: header.track_id,
        fourcc: track_fourcc(payload, form, at),
        start: header.start,
        length: header.length,
    }
}

// Over all tracks to the payload's end, the first of which has its head at `from`: how many they are, and where the head of track `number` starts.
#[tactic(auto, using(crate::proofs::Walks::walk_laws))]
fn walk_heads(payload: &[u8], form: AvMultitrackType, from: usize, number: usize) -> Option<Walk>
    ensures { result ≡ walk_of number (heads_at 4096 form payload.now from) }
{
    let mut at = from;
    let mut wanted = 0;
    for count in 0..MAX_MULTITRACK_SUBTRACKS {
        let header = read_track_header(payload, form, at)?;
        if number == count {
            wanted = at;
        }
        at = header.start + header.length;
        if at == payload.len() {
            return Some(Walk {
                count: count + 1,
                at: wanted,
            });
        }
    }
    None
}

// The same of a container.
#[tactic(auto, unfolding(crate::specs::Container::container_heads, crate::specs::Positions::walk_of))]
fn walk_tracks(frame_type: FrameType, payload: &[u8], number: usize) -> Option<Walk>
    ensures { result ≡ walk_of number (container_heads (frame_number frame_type) payload.now) }
{
    if !legal_head(frame_type, payload) {
        return None;
    }
    let form = multitrack_type(payload);
    walk_heads(payload, form, tracks_start(form), number)
}

// The number of tracks. Anything but an accepted container is refused with -24.
#[tactic(auto, using(crate::proofs::Requests::count_walked, crate::proofs::Requests::count_numbered, types::proofs::Laws::is_known))]
pub fn known_track_count(frame_type: FrameType, payload: &[u8]) -> Result<usize, ErrorCode>
    ensures meaning { result ≡ track_count (frame_number frame_type) payload.now }
    ensures numbers { count_answer result ≡ count_numbers (frame_number frame_type) payload.now }
{
    match walk_tracks(frame_type, payload, 0) {
        Some(walk) => Ok(walk.count),
        None => Err(ErrorCode::NotAContainer),
    }
}

// The same by the frame type's number. Refused are, in this order: -21 a frame type above 3; -24 anything but an accepted container.
// Kept (1): by number, here and below, since -21 is an answer of these calls (track_count, track_info).
#[tactic(auto, using(crate::proofs::Requests::count_typed, crate::proofs::Requests::count_numbered))]
pub fn track_count(frame_type: u32, payload: &[u8]) -> Result<usize, ErrorCode>
    ensures meaning { result ≡ track_count frame_type payload.now }
    ensures numbers { count_answer result ≡ count_numbers frame_type payload.now }
{
    known_track_count(FrameType::from_number(frame_type)?, payload)
}

// Over all tracks as `walk_heads`. The middle is the largest power of two that is below the count; no answer depends on which it is.
#[tactic(auto, using(crate::proofs::Halving::halves_laws))]
fn walk_halves(payload: &[u8], form: AvMultitrackType, from: usize) -> Result<Halves, ErrorCode>
    ensures count { halves_count result ≡ count_heads 0 (heads_at 4096 form payload.now from) }
    ensures middle { HalvesAt form payload.now from result }
{
    let mut next = from;
    let mut there = from;
    let mut middle = 0;
    for tracks in 0..MAX_MULTITRACK_SUBTRACKS {
        let header = read_track_header(payload, form, next).ok_or(ErrorCode::NotAContainer)?;
        if middle <= tracks / 2 {
            there = next;
            middle = tracks;
        }
        next = header.start + header.length;
        if next == payload.len() {
            let count = tracks + 1;
            return Ok(Halves {
                count,
                middle: if middle == 0 { count } else { middle },
                at: there,
            });
        }
    }
    Err(ErrorCode::NotAContainer)
}

// The number of tracks as `track_count`, and where a track about halfway has its head, for two walks side by side.
#[tactic(auto, using(crate::proofs::Halving::count_legal, crate::proofs::Requests::count_typed))]
pub fn track_halves(frame_type: u32, payload: &[u8]) -> Result<Halves, ErrorCode>
    ensures count { halves_count result ≡ track_count frame_type payload.now }
    ensures middle { HalvesAt (form_in payload.now) payload.now (tracks_start (form_in payload.now)) result }
{
    if !legal_head(FrameType::from_number(frame_type)?, payload) {
        return Err(ErrorCode::NotAContainer);
    }
    let form = multitrack_type(payload);
    walk_halves(payload, form, tracks_start(form))
}

// A request that is refused: the count, and every field of a track 0.
pub fn no_track(error: ErrorCode, count: usize) -> TrackInfo
    ensures { result ≡ no_track error count }
{
    TrackInfo {
        error,
        count,
        track_id: 0,
        packet_type: 0,
        fourcc: [0; 4],
        video_frame_type: 0,
        start: 0,
        length: 0,
    }
}

// In video the frame type of byte 0, else 0.
pub fn video_frame_type(frame_type: FrameType, payload: &[u8]) -> u8
    ensures { result ≡ video_frame_type (frame_number frame_type) payload.now }
{
    match frame_type {
        FrameType::Video => wire::byte_at(payload, 0) / 16 % 8,
        FrameType::Audio | FrameType::Script | FrameType::Metadata => 0,
    }
}

// Track `number` of a container, of a frame type that is known.
// Kept (5): a request's three parts apart, here and below: public functions have them so (`track_info`, `track_payload`).
#[tactic(auto, using(crate::proofs::Requests::info_walked, types::proofs::Laws::is_known))]
fn known_track_info(frame_type: FrameType, payload: &[u8], number: usize) -> TrackInfo
    ensures { result ≡ track_info (frame_number frame_type) payload.now number }
{
    let Some(Walk { count, at }) = walk_tracks(frame_type, payload, number) else {
        return no_track(ErrorCode::NotAContainer, 0);
    };
    if count <= number {
        return no_track(ErrorCode::NoSuchTrack, count);
    }
    let TrackPlace {
        id: track_id,
        fourcc,
        start,
        length,
    } = track_at(payload, multitrack_type(payload), at);
    TrackInfo {
        error: ErrorCode::Ok,
        count,
        track_id,
        packet_type: wire::byte_at(payload, 1) % 16,
        fourcc,
        video_frame_type: video_frame_type(frame_type, payload),
        start,
        length,
    }
}

// The same by the frame type's number. Refused are, in this order: -21 a frame type above 3; -24 anything but an accepted container; -23 a number
// that is not below the count.
#[tactic(auto, using(crate::proofs::Requests::info_typed, crate::proofs::Answers::info_inside))]
pub fn track_info(frame_type: u32, payload: &[u8], number: usize) -> TrackInfo
    ensures meaning { result ≡ track_info frame_type payload.now number }
    ensures inside { result.start + result.length ≤ length payload.now }
{
    match FrameType::from_number(frame_type) {
        Ok(media) => known_track_info(media, payload, number),
        Err(error) => no_track(error, 0),
    }
}

// The body of that track, as a part of the payload; empty where the request is refused.
#[tactic(auto, unfolding(crate::specs::Answer::track_part))]
pub fn track_payload(frame_type: u32, payload: &[u8], number: usize) -> &[u8]
    ensures { result.now ≡ track_part frame_type payload.now number }
{
    let track = track_info(frame_type, payload, number);
    &payload[track.start..track.start + track.length]
}

#[tactic(auto, using(crate::proofs::Requests::first_walked))]
pub fn first_track_fourcc(frame_type: FrameType, payload: &[u8]) -> Option<[u8; 4]>
    ensures { result ≡ first_track_fourcc (frame_number frame_type) payload.now }
{
    let walk = walk_tracks(frame_type, payload, 0)?;
    Some(track_at(payload, multitrack_type(payload), walk.at).fourcc)
}

// An accepted container of a packet type.
#[tactic(auto, using(crate::proofs::Requests::packet_walked))]
fn has_packet_type(frame_type: FrameType, payload: &[u8], packet_type: PacketType) -> bool
    ensures { result ≡ has_packet_type (frame_number frame_type) payload.now packet_type.0 }
{
    PacketType(wire::byte_at(payload, 1) % 16) == packet_type
        && walk_tracks(frame_type, payload, 0).is_some()
}

#[tactic(auto, unfolding(crate::specs::Answer::has_sequence_start))]
pub fn multitrack_has_sequence_start(frame_type: FrameType, payload: &[u8]) -> bool
    ensures { result ≡ has_sequence_start (frame_number frame_type) payload.now }
{
    has_packet_type(frame_type, payload, PacketType::SEQUENCE_START)
}

#[tactic(auto, using(crate::proofs::Answers::packet_closed), unfolding(crate::specs::Answer::has_metadata, crate::specs::Container::opens_container))]
pub fn multitrack_has_metadata(frame_type: FrameType, payload: &[u8]) -> bool
    ensures { result ≡ has_metadata (frame_number frame_type) payload.now }
{
    match frame_type {
        FrameType::Audio => has_packet_type(frame_type, payload, PacketType::AUDIO_METADATA),
        FrameType::Video => has_packet_type(frame_type, payload, PacketType::METADATA),
        FrameType::Script | FrameType::Metadata => false,
    }
}

#[tactic(auto, unfolding(crate::specs::Answer::has_keyframe))]
pub fn multitrack_has_keyframe(payload: &[u8]) -> bool
    ensures { result ≡ has_keyframe payload.now }
{
    VideoFrameType(video_frame_type(FrameType::VIDEO, payload)) == VideoFrameType::KEY
        && (has_packet_type(FrameType::VIDEO, payload, PacketType::CODED_FRAMES)
            || has_packet_type(FrameType::VIDEO, payload, PacketType::CODED_FRAMES_X))
}
