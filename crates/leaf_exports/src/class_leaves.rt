// Cache kinds and delivery hints by their numbers. A frame type above 3 is -21; a number that names no hint is -1, as the Rust's None.
ghost use Rattle.std.specs.Prelude.{◌≡◌};
ghost use Rattle.leaf_exports.specs.TrackLeaves.{answer_of};
ghost use Rattle.leaf_exports.specs.ClassLeaves.{leaf_kind, leaf_hint, leaf_from, unknown_type};

use delivery::DeliveryHint;
use types::{ErrorCode, FrameType};

#[repr(C)]
#[derive(Clone, Copy, Debug, PartialEq, Eq)]
pub struct LeafNumber {
    pub error: i32,
    pub value: u8,
}

const UNKNOWN_TYPE: LeafNumber = LeafNumber {
    error: ErrorCode::UnknownFrameType as i32,
    value: 0,
};

#[unsafe(no_mangle)]
pub extern "C" fn leaf_classify_cache_frame(number: u32, payload: &[u8]) -> LeafNumber
    ensures { result ≡ answer_of leaf_kind unknown_type number payload.now }
{
    let Ok(frame_type) = FrameType::from_number(number) else {
        return UNKNOWN_TYPE;
    };
    LeafNumber {
        error: 0,
        value: init_cache::kind::classify_cache_frame(frame_type, payload).into(),
    }
}

#[unsafe(no_mangle)]
pub extern "C" fn leaf_delivery_hint_classify(
    number: u32,
    payload: &[u8],
    route_has_video: u32,
) -> LeafNumber
    ensures { result ≡ answer_of (leaf_hint route_has_video) unknown_type number payload.now }
{
    let Ok(frame_type) = FrameType::from_number(number) else {
        return UNKNOWN_TYPE;
    };
    LeafNumber {
        error: 0,
        value: DeliveryHint::classify(frame_type, payload, route_has_video).to_u8(),
    }
}

#[unsafe(no_mangle)]
pub extern "C" fn leaf_delivery_hint_from_u8(code: u8) -> LeafNumber
    ensures { result ≡ leaf_from code }
{
    match DeliveryHint::from_u8(code) {
        Some(hint) => LeafNumber {
            error: 0,
            value: hint.to_u8(),
        },
        None => LeafNumber {
            error: -1,
            value: 0,
        },
    }
}
