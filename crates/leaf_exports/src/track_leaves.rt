// Containers. A frame type above 3 is -21, and false.
ghost use Rattle.std.specs.Prelude.{◌≡◌, false};
ghost use Rattle.multitrack_media.specs.Answer.{track_count, track_info, first_track_fourcc, has_sequence_start, has_metadata, has_keyframe};
ghost use Rattle.leaf_exports.specs.TrackLeaves.{leaf_count, leaf_track, leaf_first, no_first, is_container, answer_of};

use multitrack_media::{
    TrackInfo, is_multitrack_container, multitrack_has_metadata, multitrack_has_sequence_start,
};
use types::FrameType;

#[repr(C)]
#[derive(Clone, Copy, Debug, PartialEq, Eq)]
pub struct LeafCount {
    pub error: i32,
    pub count: usize,
}

#[repr(C)]
#[derive(Clone, Copy, Debug, PartialEq, Eq)]
pub struct LeafTrack {
    pub error: i32,
    pub fourcc: [u8; 4],
    pub count: usize,
    pub start: usize,
    pub length: usize,
    pub track_id: u8,
    pub packet_type: u8,
    pub video_frame_type: u8,
}

// Kept (1): the C interface.
#[repr(C)]
#[derive(Clone, Copy, Debug, PartialEq, Eq, Default)]
pub struct LeafFirst {
    pub found: bool,
    pub fourcc: [u8; 4],
}

#[unsafe(no_mangle)]
pub extern "C" fn leaf_track_count(number: u32, payload: &[u8]) -> LeafCount
    ensures { result ≡ leaf_count (track_count number payload.now) }
{
    match multitrack_media::track_count(number, payload) {
        Ok(count) => LeafCount { error: 0, count },
        Err(error) => LeafCount {
            error: error.into(),
            count: 0,
        },
    }
}

#[unsafe(no_mangle)]
pub extern "C" fn leaf_track_info(number: u32, payload: &[u8], track: usize) -> LeafTrack
    ensures { result ≡ leaf_track (track_info number payload.now track) }
{
    let TrackInfo {
        error,
        count,
        track_id,
        packet_type,
        fourcc,
        video_frame_type,
        start,
        length,
    } = multitrack_media::track_info(number, payload, track);
    LeafTrack {
        error: error.into(),
        fourcc,
        count,
        start,
        length,
        track_id,
        packet_type,
        video_frame_type,
    }
}

// Kept (2): `leaf_multitrack_has_sequence_start` and `leaf_multitrack_has_metadata` differ in the call alone: the C interface.
#[unsafe(no_mangle)]
pub extern "C" fn leaf_is_multitrack_container(number: u32, payload: &[u8]) -> bool
    ensures { result ≡ answer_of is_container false number payload.now }
{
    FrameType::from_number(number).is_ok_and(|media| is_multitrack_container(media, payload))
}

#[unsafe(no_mangle)]
pub extern "C" fn leaf_first_track_fourcc(number: u32, payload: &[u8]) -> LeafFirst
    ensures { result ≡ leaf_first (answer_of first_track_fourcc no_first number payload.now) }
{
    if let Ok(frame_type) = FrameType::from_number(number)
        && let Some(fourcc) = multitrack_media::first_track_fourcc(frame_type, payload)
    {
        return LeafFirst {
            found: true,
            fourcc,
        };
    }
    LeafFirst::default()
}

#[unsafe(no_mangle)]
pub extern "C" fn leaf_multitrack_has_sequence_start(number: u32, payload: &[u8]) -> bool
    ensures { result ≡ answer_of has_sequence_start false number payload.now }
{
    FrameType::from_number(number).is_ok_and(|media| multitrack_has_sequence_start(media, payload))
}

#[unsafe(no_mangle)]
pub extern "C" fn leaf_multitrack_has_metadata(number: u32, payload: &[u8]) -> bool
    ensures { result ≡ answer_of has_metadata false number payload.now }
{
    FrameType::from_number(number).is_ok_and(|media| multitrack_has_metadata(media, payload))
}

#[unsafe(no_mangle)]
pub extern "C" fn leaf_multitrack_has_keyframe(payload: &[u8]) -> bool
    ensures { result ≡ has_keyframe payload.now }
{
    multitrack_media::multitrack_has_keyframe(payload)
}
