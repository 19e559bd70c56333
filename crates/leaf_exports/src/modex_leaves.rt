// ModEx.
ghost use Rattle.std.specs.Prelude.{◌≡◌, length};
ghost use Rattle.modex.specs.Modex.{layer_at, peel_result, peel_output, modex_prefix, modex_result};
ghost use Rattle.leaf_exports.specs.ModexLeaves.{
  modex_of,
  leaf_layer,
  leaf_peel,
  leaf_peel_typed,
  leaf_peel_output,
  leaf_prefix,
  leaf_modex,
};

use modex::{ModexLayer, ModexPrefix, ModexResult};
use types::{ErrorCode, FrameType, Modex, ModexType};

#[repr(C)]
#[derive(Clone, Copy, Debug, PartialEq, Eq, Default)]
pub struct LeafLayer {
    pub error: i32,
    pub modex_type: u8,
    pub next_packet_type: u8,
    pub data_start: usize,
    pub data_end: usize,
    pub next_pos: usize,
}

#[repr(C)]
#[derive(Clone, Copy, Debug, PartialEq, Eq)]
pub struct LeafPeel {
    pub error: i32,
    pub length: usize,
}

#[repr(C)]
#[derive(Clone, Copy, Debug, PartialEq, Eq)]
pub struct LeafModex {
    pub error: i32,
    pub modex_type: u8,
    pub next_packet_type: u8,
    pub consumed: usize,
    pub offset: u64,
}

impl From<Result<usize, ErrorCode>> for LeafPeel {
    ghost from_gives = { λ length peel. peel ≡ leaf_peel length };

    fn from(length: Result<usize, ErrorCode>) -> LeafPeel {
        match length {
            Ok(length) => LeafPeel { error: 0, length },
            Err(error) => LeafPeel {
                error: error.into(),
                length: 0,
            },
        }
    }
}

impl From<ModexPrefix> for LeafModex {
    ghost from_gives = { λ prefix leaf. leaf ≡ leaf_prefix prefix };

    fn from(prefix: ModexPrefix) -> LeafModex {
        LeafModex {
            error: prefix.error.into(),
            modex_type: prefix.modex.modex_type.into(),
            next_packet_type: prefix.modex.next_packet_type,
            consumed: prefix.consumed,
            offset: prefix.modex.offset,
        }
    }
}

impl From<ModexResult> for LeafModex {
    ghost from_gives = { λ answer leaf. leaf ≡ leaf_modex answer };

    fn from(ModexResult { error, modex }: ModexResult) -> LeafModex {
        LeafModex::from(ModexPrefix {
            error,
            consumed: 0,
            modex,
        })
    }
}

#[tactic(auto, unfolding(types::specs::Types::error_number))]
#[unsafe(no_mangle)]
pub extern "C" fn leaf_parse_modex_layer(payload: &[u8], pos: usize) -> LeafLayer
    ensures { result ≡ leaf_layer (layer_at payload.now pos) }
{
    match modex::parse_modex_layer(payload, pos) {
        Some(
            ModexLayer {
                modex_type,
                next_packet_type,
                data_start,
                data_end,
                next_pos,
            },
        ) => LeafLayer {
            error: 0,
            modex_type,
            next_packet_type,
            data_start,
            data_end,
            next_pos,
        },
        None => LeafLayer {
            error: ErrorCode::Io.into(),
            ..LeafLayer::default()
        },
    }
}

#[unsafe(no_mangle)]
pub extern "C" fn leaf_normalize_modex_payload(
    payload: &[u8],
    mask: u32,
    output: &mut [u8],
) -> LeafPeel
    ensures answer { result ≡ leaf_peel (peel_result 1 mask payload.now (length output.old)) }
    ensures output { output.new ≡ peel_output 1 mask payload.now output.old }
{
    modex::normalize_modex_payload(payload, mask, output).into()
}

// A frame type above 3 is -21.
#[unsafe(no_mangle)]
pub extern "C" fn leaf_normalize_modex_payload_with_frame_type(
    payload: &[u8],
    mask: u32,
    number: u32,
    output: &mut [u8],
) -> LeafPeel
    ensures answer { result ≡ leaf_peel_typed number mask payload.now (length output.old) }
    ensures output { output.new ≡ leaf_peel_output number mask payload.now output.old }
{
    match FrameType::from_number(number) {
        Ok(frame_type) => {
            modex::normalize_modex_payload_with_frame_type(payload, mask, frame_type, output).into()
        }
        Err(error) => LeafPeel::from(Err(error)),
    }
}

// A Modex by its numbers: 0 is TimestampOffsetNano, any other number Nop.
#[tactic(auto, unfolding(crate::specs::ModexLeaves::modex_of, crate::specs::ModexLeaves::modex_type_of))]
fn modex_of(number: u8, offset: u64, next: u8) -> Modex
    ensures { result ≡ modex_of number offset next }
{
    let modex_type = match number {
        0 => ModexType::TimestampOffsetNano,
        _ => ModexType::Nop,
    };
    Modex {
        modex_type,
        offset,
        next_packet_type: next,
    }
}

// Kept (2): two entries of the C interface, here and below.
#[unsafe(no_mangle)]
pub extern "C" fn leaf_modex_parse_prefix(
    number: u8,
    offset: u64,
    next: u8,
    payload: &[u8],
) -> LeafModex
    ensures { result ≡ leaf_prefix (modex_prefix (modex_of number offset next) payload.now) }
{
    modex::modex_parse_prefix(modex_of(number, offset, next), payload).into()
}

#[unsafe(no_mangle)]
pub extern "C" fn leaf_modex_parse(number: u8, offset: u64, next: u8, payload: &[u8]) -> LeafModex
    ensures { result ≡ leaf_modex (modex_result (modex_of number offset next) payload.now) }
{
    modex::modex_parse(modex_of(number, offset, next), payload).into()
}
