// The AMF0 multitrack descriptor.
#![tactic(auto)]

ghost use Rattle.std.specs.Prelude.{◌≡◌};
ghost use Rattle.std.specs.Float.{binary64};
ghost use Rattle.std.specs.Float.Ieee.{of_bits};
ghost use Rattle.multitrack.specs.Descriptor.{type_of_double, type_of_bits, name_field, descriptor};
ghost use Rattle.multitrack.specs.Descriptor.{answer as answered};

use types::{ErrorCode, Multitrack, MultitrackType};

// AMF0 markers.
const AMF0_NUMBER: u8 = 0;

const AMF0_STRING: u8 = 2;

// The longest name that is kept; the field has one byte more.
const MAX_NAME: usize = 63;

// Result<()>, and the descriptor as far as it was read.
// Kept (1): `&mut` headers come by value beside the answer, and a refusal leaves the track type that was read (clause of multitrack_parse).
#[derive(Clone, Copy, Debug, PartialEq, Eq)]
pub struct MultitrackResult {
    pub error: ErrorCode,
    pub multitrack: Multitrack,
}

// The track type of a double's bit pattern.
#[tactic(auto, using(crate::proofs::Doubles::nan_above, crate::proofs::Doubles::bits_by_type, std::proofs::lemmas::Float::not_nan_f64_bits), unfolding(crate::specs::Descriptor::type_of_double))]
pub fn track_type(bits: u64) -> MultitrackType
    ensures double { result ≡ type_of_double (of_bits binary64 bits) }
    ensures exact { result ≡ type_of_bits bits }
{
    // f64::from_bits is undefined at the patterns of a NaN, so they are answered first.
    if 0x7FF0_0000_0000_0000 < bits % 0x8000_0000_0000_0000 {
        return MultitrackType::Metadata;
    }
    let type_val = f64::from_bits(bits);
    if type_val == 0.0 {
        MultitrackType::Audio
    } else if type_val == 1.0 {
        MultitrackType::Video
    } else {
        MultitrackType::Metadata
    }
}

// A name in its field: the bytes that are kept, and zeros.
#[tactic(auto, using(crate::proofs::Laws::name_kept))]
fn name_field(name: &[u8]) -> [u8; 64]
    ensures { result ≡ name_field name.now }
{
    let size = name.len().min(MAX_NAME);
    let mut field = [0; 64];
    field[..size].copy_from_slice(&name[..size]);
    field
}

fn answer(error: ErrorCode, track_type: MultitrackType, track_name: [u8; 64]) -> MultitrackResult
    ensures { result ≡ answered error track_type track_name }
{
    MultitrackResult {
        error,
        multitrack: Multitrack {
            track_type,
            track_name,
        },
    }
}

#[tactic(auto, unfolding(crate::specs::Descriptor::descriptor, crate::specs::Descriptor::track_type_of))]
pub fn multitrack_parse(payload: &[u8]) -> MultitrackResult
    ensures { result ≡ descriptor payload.now }
{
    if payload.len() < 9 {
        return answer(ErrorCode::Io, MultitrackType::default(), [0; 64]);
    }
    if payload[0] != AMF0_NUMBER {
        return answer(ErrorCode::Protocol, MultitrackType::default(), [0; 64]);
    }
    let track_type = track_type(wire::be64_at(payload, 1));
    if payload.len() < 12 {
        return answer(ErrorCode::Io, track_type, [0; 64]);
    }
    if payload[9] != AMF0_STRING {
        return answer(ErrorCode::Protocol, track_type, [0; 64]);
    }
    let Some(name) = payload.get(12..12 + wire::be16_at(payload, 10)) else {
        return answer(ErrorCode::Io, track_type, [0; 64]);
    };
    answer(ErrorCode::Ok, track_type, name_field(name))
}
