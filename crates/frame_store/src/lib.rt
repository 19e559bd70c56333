// The store of one route: the last video sequence header, audio sequence header and keyframe, for viewers that join late. Buffers and record are lent to
// each call.
#![tactic(auto)]

pub mod late;

ghost use Rattle.std.specs.Prelude.{◌≡◌, cond, length};
ghost use Rattle.init_cache.specs.Kind.{kind_number};
ghost use Rattle.frame.specs.Pass.{pass_output};
ghost use Rattle.outputs.specs.Outputs.{put_at};
ghost use Rattle.frame_store.specs.Store.{
  fits,
  lent_store,
  no_lengths,
  is_too_long,
  keep_in,
  offered,
  store_after,
  store_answer,
};

use frame::Report;
use init_cache::kind::CacheFrameKind;
use outputs::put;
use types::ErrorCode;

// How many bytes of each slot's buffer are held. Empty is 0; a length past its buffer counts as empty.
#[derive(Clone, Copy, Debug, PartialEq, Eq, Default)]
pub struct StoreLengths {
    pub video: usize,
    pub audio: usize,
    pub keyframe: usize,
}

impl StoreLengths {
    pub fn empty() -> StoreLengths
        ensures { result ≡ no_lengths }
    {
        StoreLengths::default()
    }
}

// The call's error, which is the pass's or -31, and the pass's whole report.
// Kept (1): beside -31 the report stands (clause `answer` of store_frame).
#[derive(Clone, Copy, Debug, PartialEq, Eq)]
pub struct StoreAnswer {
    pub error: ErrorCode,
    pub report: Report,
}

#[derive(Clone, Copy, Debug, PartialEq, Eq)]
pub struct Stored {
    pub answer: StoreAnswer,
    pub lengths: StoreLengths,
}

// What becomes of a frame: whether it is longer than its slot, and the lengths then.
// Kept (1): a frame that is too long empties its slot, so the lengths say something in both cases (clause `store` of keep).
#[derive(Clone, Copy, Debug, PartialEq, Eq)]
pub struct Kept {
    pub too_long: bool,
    pub lengths: StoreLengths,
}

// Puts a frame into the slot of its own kind: the length of what the slot then holds, or none if the frame is too long.
#[tactic(auto, using(crate::proofs::Keeping::room_at))]
fn put_in(frame: &[u8], slot: &mut [u8]) -> Option<usize>
    ensures answer { result ≡ cond (fits frame.now slot.old) (Some (length frame.now)) None }
    ensures slot { slot.new ≡ put_at slot.old 0 frame.now }
{
    put(frame, slot, 0).then_some(frame.len())
}

// A frame goes into the slot of its kind. Of kind 0 there is none, and a frame that the pass refuses has kind 0.
// Kept (5, 6): three lent buffers and the record of lengths stay parameters of public functions: a struct of `&mut` slices has no name in their clauses (tried).
pub fn keep(
    kind: CacheFrameKind,
    frame: &[u8],
    lengths: StoreLengths,
    video: &mut [u8],
    audio: &mut [u8],
    keyframe: &mut [u8],
) -> Kept
    ensures too_long { result.too_long ≡ is_too_long (kind_number kind) frame.now (lent_store lengths video.old audio.old keyframe.old) }
    ensures store { lent_store result.lengths video.new audio.new keyframe.new
        ≡ keep_in (lent_store lengths video.old audio.old keyframe.old) (kind_number kind) frame.now }
{
    match kind {
        CacheFrameKind::LiveOnly => Kept {
            too_long: false,
            lengths,
        },
        CacheFrameKind::VideoSequenceHeader => {
            let held = put_in(frame, video);
            Kept {
                too_long: held.is_none(),
                lengths: StoreLengths {
                    video: held.unwrap_or(0),
                    keyframe: 0,
                    ..lengths
                },
            }
        }
        CacheFrameKind::AudioSequenceHeader => {
            let held = put_in(frame, audio);
            Kept {
                too_long: held.is_none(),
                lengths: StoreLengths {
                    audio: held.unwrap_or(0),
                    ..lengths
                },
            }
        }
        CacheFrameKind::VideoKeyframe => {
            let held = put_in(frame, keyframe);
            Kept {
                too_long: held.is_none(),
                lengths: StoreLengths {
                    keyframe: held.unwrap_or(0),
                    ..lengths
                },
            }
        }
    }
}

// The whole pass, and then the store: a result of kind 1 to 3 goes into the slot of its kind, and a video sequence header empties the keyframe. Refused
// are, in this order: what the pass refuses, which changes no slot; -31 a frame longer than its slot, which is then empty. Beside -31 the pass's report and
// output stand.
// Kept (1, 5, 6): the frame type is a number as in frame_pass; the lent buffers as in keep.
pub fn store_frame(
    lengths: StoreLengths,
    frame_type: u32,
    payload: &[u8],
    caps_ex_mask: u32,
    route_has_video: u32,
    output: &mut [u8],
    video: &mut [u8],
    audio: &mut [u8],
    keyframe: &mut [u8],
) -> Stored
    ensures answer { result.answer ≡ store_answer (offered frame_type caps_ex_mask route_has_video payload.now (length output.old))
        (lent_store lengths video.old audio.old keyframe.old) }
    ensures output { output.new ≡ pass_output frame_type caps_ex_mask payload.now output.old }
    ensures store { lent_store result.lengths video.new audio.new keyframe.new
        ≡ store_after (offered frame_type caps_ex_mask route_has_video payload.now (length output.old))
        (lent_store lengths video.old audio.old keyframe.old) }
{
    let report = frame::frame_pass(frame_type, payload, caps_ex_mask, route_has_video, output);
    let Kept { too_long, lengths } = keep(
        report.kind,
        &output[..report.result_length],
        lengths,
        video,
        audio,
        keyframe,
    );
    let error = if too_long {
        ErrorCode::SlotTooShort
    } else {
        report.error
    };
    Stored {
        answer: StoreAnswer { error, report },
        lengths,
    }
}
