// What a viewer that joins late is sent: video sequence header, audio sequence header, keyframe, whichever are held.
ghost use Rattle.std.specs.Prelude.{◌≡◌, cond, ◌&&◌, ◌-◌, eqb};
ghost use Rattle.frame_store.specs.Store.{lent_store, is_held};
ghost use Rattle.frame_store.specs.Late.{late_frame, late_info};

use crate::StoreLengths;
use init_cache::kind::CacheFrameKind;

// How many frames are held, and kind and length of one of them. Kind 0: the number is not below the count.
#[derive(Clone, Copy, Debug, PartialEq, Eq)]
pub struct LateInfo {
    pub count: usize,
    pub kind: CacheFrameKind,
    pub length: usize,
}

#[tactic(auto, unfolding(crate::specs::Store::is_held))]
fn is_held(length: usize, buffer: &[u8]) -> bool
    ensures { result ≡ is_held length buffer.now }
{
    0 < length && length <= buffer.len()
}

// Kind and length of a frame that is held.
#[derive(Clone, Copy, Debug, PartialEq, Eq)]
pub struct LateFrame {
    pub kind: CacheFrameKind,
    pub length: usize,
}

// The frame of this number, where `first` is the first one if it is held, and `other` the one that is found among those behind it.
fn choose(held: bool, number: usize, first: LateFrame, other: LateFrame) -> LateFrame
    ensures { result ≡ cond (held && eqb number 0) first other }
{
    if held && number == 0 { first } else { other }
}

// The number of the same frame among those behind one that is held or not.
fn behind(held: bool, number: usize) -> usize
    ensures { result ≡ cond held (number - 1) number }
{
    if held {
        number.saturating_sub(1)
    } else {
        number
    }
}

// The frame of this number, from 0 on, of those that are held.
pub fn late_info(
    lengths: StoreLengths,
    video: &[u8],
    audio: &[u8],
    keyframe: &[u8],
    number: usize,
) -> LateInfo
    ensures { result ≡ late_info (lent_store lengths video.now audio.now keyframe.now) number }
{
    let has_video = is_held(lengths.video, video);
    let has_audio = is_held(lengths.audio, audio);
    let has_keyframe = is_held(lengths.keyframe, keyframe);
    let behind_video = behind(has_video, number);
    let behind_audio = behind(has_audio, behind_video);
    let none = LateFrame {
        kind: CacheFrameKind::LiveOnly,
        length: 0,
    };
    let third = LateFrame {
        kind: CacheFrameKind::VideoKeyframe,
        length: lengths.keyframe,
    };
    let third = choose(has_keyframe, behind_audio, third, none);
    let second = LateFrame {
        kind: CacheFrameKind::AudioSequenceHeader,
        length: lengths.audio,
    };
    let second = choose(has_audio, behind_video, second, third);
    let first = LateFrame {
        kind: CacheFrameKind::VideoSequenceHeader,
        length: lengths.video,
    };
    let first = choose(has_video, number, first, second);
    LateInfo {
        count: usize::from(has_video) + usize::from(has_audio) + usize::from(has_keyframe),
        kind: first.kind,
        length: first.length,
    }
}

// Its bytes, which are the front of the buffer of its kind; none if the number is not below the count.
pub fn late_part<'a>(
    lengths: StoreLengths,
    video: &'a [u8],
    audio: &'a [u8],
    keyframe: &'a [u8],
    number: usize,
) -> &'a [u8]
    ensures { result.now ≡ (late_frame (lent_store lengths video.now audio.now keyframe.now) number).bytes }
{
    let info = late_info(lengths, video, audio, keyframe, number);
    match info.kind {
        CacheFrameKind::LiveOnly => &[],
        CacheFrameKind::VideoSequenceHeader => &video[..info.length],
        CacheFrameKind::AudioSequenceHeader => &audio[..info.length],
        CacheFrameKind::VideoKeyframe => &keyframe[..info.length],
    }
}
