// Sound coded by ITU-T G.711: what a code means, and how loud a frame is, so that a scopist sees which microphone is live.
#![tactic(auto)]

pub mod expansion;

ghost use Rattle.std.specs.Prelude.{◌≡◌};
ghost use Rattle.g711.specs.Level.{sound_level, level_answer};
ghost use Rattle.g711.specs.Loudness.{loudest_code};

use crate::expansion::{a_law, mu_law};
use types::{ErrorCode, FrameType};

// Legacy sound formats, the high nibble of byte 0.
const SOUND_FORMAT_G711A: u8 = 7;

const SOUND_FORMAT_G711U: u8 = 8;

// The quietest positive code of each law. The low seven bits in which a code differs from it say how loud the code is.
const QUIETEST_A_LAW: u8 = 0xD5;

const QUIETEST_MU_LAW: u8 = 0xFF;

// The loudest of some codes, as a positive one. They are compared before any is expanded, so that the loop is one of bytes.
fn loudest(codes: &[u8], quietest: u8) -> u8
    ensures { result ≡ loudest_code quietest codes.now }
{
    let most = codes
        .iter()
        .fold(0, |most, code| most.max((*code ^ quietest) % 128));
    most ^ quietest
}

// In audio: 0 without a sample, and in any other format.
fn sound_level(payload: &[u8]) -> u32
    ensures { result ≡ sound_level payload.now }
{
    if payload.len() < 2 {
        return 0;
    }
    let samples = &payload[1..];
    let peak = match payload[0] / 16 {
        SOUND_FORMAT_G711A => a_law(loudest(samples, QUIETEST_A_LAW)),
        SOUND_FORMAT_G711U => mu_law(loudest(samples, QUIETEST_MU_LAW)),
        _ => 0,
    };
    peak as u32
}

// The level of a payload as it is: nothing is peeled.
// Kept (1): by number, since -21 is an answer of this call (level_answer).
#[tactic(auto, using(crate::proofs::Levels::by_type))]
pub fn level(frame_type: u32, payload: &[u8]) -> Result<u32, ErrorCode>
    ensures { result ≡ level_answer frame_type payload.now }
{
    let frame_type = FrameType::from_number(frame_type)?;
    Ok(if frame_type.is_audio() {
        sound_level(payload)
    } else {
        0
    })
}
