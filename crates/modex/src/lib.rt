// ModEx wrappers of Enhanced RTMP v2: one layer, a chain of layers, and the payload without them.
#![tactic(auto)]

ghost use Rattle.std.specs.Prelude.{◌≡◌, cond, [], ◌∷◌, suc, ◌+◌, ◌-◌, ◌≤◌, ◌<◌, ltb, length};
ghost use Rattle.wire.specs.Wire.{byte_at, high, low, be24_at};
ghost use Rattle.outputs.specs.Outputs.{in_front};
ghost use Rattle.types.specs.Types.{frame_number};
ghost use Rattle.modex.specs.Modex.{
  data_at,
  layer_at,
  layer_error,
  option_at,
  chain_at,
  is_wrapped,
  chain_of,
  without_chain,
  peel_result,
  peel_answer,
  peel_numbers,
  peel_output,
  modex_prefix,
  modex_result,
};
ghost use Rattle.modex.specs.Offsets.{
  peel_offset_result,
  peel_offset_output,
  peel_offset_answer,
  peel_offset_numbers,
  has_bad_offset,
  chain_offset,
  offsets_from,
  timed_chain,
  plain_offset,
  OnWalk,
  Inside,
};
ghost use Rattle.modex.specs.InPlace.{in_place_result, in_place_payload};

use outputs::put;
use types::{CapsExMask, ErrorCode, FrameType, Modex, ModexType, PacketType};

// A peer could nest wrappers without end, and have each frame cost its whole length.
const MAX_MODEX_CHAIN_LAYERS: usize = 32;

// Number of bytes in a TimestampOffsetNano, and the largest one.
const TIMESTAMP_OFFSET_NANO_LEN: usize = 3;

const TIMESTAMP_OFFSET_NANO_MAX: usize = 999999;

// One layer, with positions in the payload that was parsed.
#[derive(Clone, Copy, Debug, PartialEq, Eq)]
pub struct ModexLayer {
    pub modex_type: u8,
    pub next_packet_type: u8,
    pub data_start: usize,
    pub data_end: usize,
    pub next_pos: usize,
}

// Where a layer's data starts and ends, and how long it is.
#[derive(Clone, Copy)]
struct DataSpan {
    start: usize,
    end: usize,
    size_minus_one: usize,
}

// Where a chain of layers ends, and the packet type that its last layer names.
#[derive(Clone, Copy, Debug, PartialEq, Eq)]
pub struct ModexChain {
    pub next_pos: usize,
    pub next_packet_type: u8,
}

// Where the last offset of a chain's layers stands, at the payload's end if there is none, and whether any layer of type 0 is bad: under three data bytes, or
// an offset over the largest.
// Kept (1): both fields always say something, so an Option is no plainer.
#[derive(Clone, Copy, Debug, PartialEq, Eq)]
pub struct Offsets {
    pub at: usize,
    pub bad: bool,
}

// The chain that is peeled off, if there is one, and its offsets.
#[derive(Clone, Copy, Debug, PartialEq, Eq)]
pub struct TimedChain {
    pub chain: Option<ModexChain>,
    pub offsets: Offsets,
}

// Where a walk over the layers of a chain stands: at a position, with so many layers left, behind the offsets of those before.
#[derive(Clone, Copy)]
struct Walk {
    pos: usize,
    left: usize,
    offsets: Offsets,
}

// The length of what was written, and the offset of the chain that was peeled off.
#[derive(Clone, Copy, Debug, PartialEq, Eq)]
pub struct Peeled {
    pub length: usize,
    pub offset: u32,
}

// Where the peeled payload starts in the payload that was lent, at whose end it ends, and the offset of the chain that was peeled off.
#[derive(Clone, Copy, Debug, PartialEq, Eq)]
pub struct PeeledInPlace {
    pub start: usize,
    pub offset: u32,
}

// The number of bytes read, and the Modex.
// Kept (1): a refusal hands the given Modex back beside the error.
#[derive(Clone, Copy, Debug, PartialEq, Eq)]
pub struct ModexPrefix {
    pub error: ErrorCode,
    pub consumed: usize,
    pub modex: Modex,
}

// Kept (1): likewise.
#[derive(Clone, Copy, Debug, PartialEq, Eq)]
pub struct ModexResult {
    pub error: ErrorCode,
    pub modex: Modex,
}

// The data of the layer at a position. The option byte stands at its end: a payload without that byte truncates the layer. Numbers and no `Option`, so that
// the position stays in a register from layer to layer; the size is handed on beside the end, so that the test of it need not wait for the end. The two
// sizes end apart: with one end for both the walk is slower.
#[tactic(auto, unfolding(crate::specs::Modex::layer_at, crate::specs::Modex::data_at))]
fn data_span(payload: &[u8], pos: usize) -> DataSpan
    ensures cut { length payload.now ≤ result.end → layer_at payload.now pos ≡ None }
    ensures whole { result.end < length payload.now → layer_at payload.now pos ≡ Some (record {
      modex_type = high (byte_at payload.now result.end);
      next_packet_type = low (byte_at payload.now result.end);
      data_start = result.start;
      data_end = result.end;
      next_pos = result.end + 1;
    }) }
    ensures size { result.end < length payload.now → result.end ≡ result.start + suc result.size_minus_one }
{
    if payload.len() <= pos {
        return DataSpan {
            start: payload.len(),
            end: payload.len(),
            size_minus_one: 0,
        };
    }
    let size_minus_one = usize::from(payload[pos]);
    if size_minus_one == 255 {
        let start = pos + 3;
        let size_minus_one = wire::be16_at(payload, pos + 1);
        return DataSpan {
            start,
            end: start + size_minus_one + 1,
            size_minus_one,
        };
    }
    let start = pos + 1;
    DataSpan {
        start,
        end: start + size_minus_one + 1,
        size_minus_one,
    }
}

#[tactic(auto, unfolding(crate::specs::Modex::layer_at, crate::specs::Modex::data_at, crate::specs::Modex::option_at))]
pub fn parse_modex_layer(payload: &[u8], pos: usize) -> Option<ModexLayer>
    ensures meaning { result ≡ layer_at payload.now pos }
    ensures readable { layer_error result ≡ cond (ltb (option_at payload.now pos) (length payload.now)) ErrorCode.Ok ErrorCode.Io }
{
    let span = data_span(payload, pos);
    let option = *payload.get(span.end)?;
    Some(ModexLayer {
        modex_type: option / 16,
        next_packet_type: option % 16,
        data_start: span.start,
        data_end: span.end,
        next_pos: span.end + 1,
    })
}

// Whether the offset at a position is over the largest. Its first byte decides, unless it is that of the largest; so one byte of each layer is read. A
// smaller one returns by itself: as one expression the walk is slower.
fn is_over(payload: &[u8], at: usize) -> bool
    requires { at < length payload.now }
    ensures { result ≡ ltb 999999 (be24_at payload.now at) }
{
    let first = usize::from(payload[at]);
    if first < TIMESTAMP_OFFSET_NANO_MAX / 65536 {
        return false;
    }
    TIMESTAMP_OFFSET_NANO_MAX / 65536 < first
        || TIMESTAMP_OFFSET_NANO_MAX % 65536 < wire::be16_at(payload, at + 1)
}

// The offsets behind one more layer.
// Kept (1): a layer's type is a number, of which ModexType names two.
#[tactic(auto, unfolding(crate::specs::Offsets::offsets_from, crate::specs::Offsets::any_bad, crate::specs::Offsets::last_stands))]
fn offsets_after(before: Offsets, payload: &[u8], modex_type: u8, span: DataSpan) -> Offsets
    requires inside { span.end < length payload.now }
    requires size { span.end ≡ span.start + suc span.size_minus_one }
    ensures { result ≡ offsets_from before payload.now
        (record { modex_type = modex_type; next_packet_type = 0; data_start = span.start; data_end = span.end; next_pos = 0 } ∷ []) }
{
    if modex_type != 0 {
        return before;
    }
    if span.size_minus_one < TIMESTAMP_OFFSET_NANO_LEN - 1 || is_over(payload, span.start) {
        return Offsets {
            at: span.start,
            bad: true,
        };
    }
    Offsets {
        at: span.start,
        ..before
    }
}

#[tactic(auto, unfolding(crate::specs::Offsets::timed_chain, crate::specs::Offsets::offsets_from, crate::specs::Offsets::any_bad, crate::specs::Offsets::last_stands))]
fn no_chain(payload: &[u8]) -> TimedChain
    ensures { result ≡ timed_chain payload.now None }
{
    TimedChain {
        chain: None,
        offsets: Offsets {
            at: payload.len(),
            bad: false,
        },
    }
}

// Whether the layer at a position is an offset as encoders write it, before another layer: `02`, three bytes of which the first is that of no offset over the
// largest, `07`.
#[tactic(auto, unfolding(crate::specs::Offsets::plain_offset))]
fn is_plain_offset(payload: &[u8], pos: usize, left: usize) -> bool
    requires { pos ≤ suc (length payload.now) }
    ensures { result ≡ plain_offset payload.now pos left }
{
    0 < left
        && pos + 4 < payload.len()
        && payload[pos] == 2
        && payload[pos + 4] == 7
        && usize::from(payload[pos + 1]) < TIMESTAMP_OFFSET_NANO_MAX / 65536
}

// The walk behind the first layers that are plain offsets. Each is five bytes long, so that the next one is found without waiting for its size.
#[tactic(auto, unfolding(crate::specs::Offsets::plain_offset))]
fn walk_plain_offsets(payload: &[u8]) -> Walk
    ensures { OnWalk payload.now result.left result.pos result.offsets }
{
    let mut pos = 1;
    let mut left = MAX_MODEX_CHAIN_LAYERS;
    let mut at = payload.len();
    // Kept (3): the layers say where it ends; those that are left are counted down, since the walk behind it goes on with them.
    while is_plain_offset(payload, pos, left) {
        at = pos + 1;
        pos += 5;
        left -= 1;
    }
    Walk {
        pos,
        left,
        offsets: Offsets { at, bad: false },
    }
}

// The chain from byte 1 on, from where a walk over it stands.
#[tactic(auto, unfolding(crate::specs::Offsets::timed_chain), using(crate::proofs::Laws::chain_broken, crate::proofs::Laws::chain_none, crate::proofs::OffsetLaws::walk_ends, crate::proofs::OffsetLaws::walk_more))]
fn modex_chain(payload: &[u8], walk: Walk) -> TimedChain
    requires { OnWalk payload.now walk.left walk.pos walk.offsets }
    ensures meaning { result ≡ timed_chain payload.now (chain_at 32 payload.now 1) }
    ensures inside { Inside payload.now result.chain }
{
    let mut pos = walk.pos;
    let mut offsets = walk.offsets;
    for _ in 0..walk.left {
        let span = data_span(payload, pos);
        let Some(&option) = payload.get(span.end) else {
            return no_chain(payload);
        };
        offsets = offsets_after(offsets, payload, option / 16, span);
        let next_packet_type = option % 16;
        if PacketType(next_packet_type) != PacketType::MODEX {
            return TimedChain {
                chain: Some(ModexChain {
                    next_pos: span.end + 1,
                    next_packet_type,
                }),
                offsets,
            };
        }
        pos = span.end + 1;
    }
    no_chain(payload)
}

// Kept (5): payload, mask and type, here and below, are the parameters of the Rust original's functions.
#[tactic(auto, unfolding(crate::specs::Modex::is_wrapped))]
fn is_wrapped(payload: &[u8], caps_ex_mask: u32, frame_type: FrameType) -> bool
    ensures { result ≡ is_wrapped (frame_number frame_type) caps_ex_mask payload.now }
{
    let [tag, ..] = payload else {
        return false;
    };
    caps_ex_mask / CapsExMask::MODEX.0 % 2 == 1
        && wire::is_ex_header(*tag)
        && PacketType(*tag % 16) == PacketType::MODEX
        && (!frame_type.is_audio() || *tag / 16 == 9)
}

// The chain that is peeled off a payload. Inlined, so that a payload with no chain costs no call.
#[tactic(auto, unfolding(crate::specs::Modex::chain_of, crate::specs::Modex::peeled_layers, crate::specs::Offsets::has_bad_offset, crate::specs::Offsets::timed_chain, crate::specs::Offsets::offsets_from), using(crate::proofs::OffsetLaws::timed_last))]
#[inline(always)]
fn peeled_chain(payload: &[u8], caps_ex_mask: u32, frame_type: FrameType) -> TimedChain
    ensures chain { result.chain ≡ chain_of (frame_number frame_type) caps_ex_mask payload.now }
    ensures inside { Inside payload.now result.chain }
    ensures bad { result.offsets.bad ≡ has_bad_offset (frame_number frame_type) caps_ex_mask payload.now }
    ensures last { be24_at payload.now result.offsets.at ≡ chain_offset (frame_number frame_type) caps_ex_mask payload.now }
{
    if is_wrapped(payload, caps_ex_mask, frame_type) {
        return modex_chain(payload, walk_plain_offsets(payload));
    }
    no_chain(payload)
}

// How long a payload is without its chain.
#[tactic(auto, unfolding(crate::specs::Modex::without_chain))]
fn length_without(payload: &[u8], chain: Option<ModexChain>) -> usize
    requires { Inside payload.now chain }
    ensures { result ≡ length (without_chain payload.now chain) }
{
    match chain {
        Some(chain) => payload.len() - chain.next_pos + 1,
        None => payload.len(),
    }
}

// A payload without its chain goes into the front of the output. The byte before the body is copied along, and then replaced.
#[tactic(auto, unfolding(crate::specs::Modex::without_chain), using(crate::proofs::Outputs::put_ends, crate::proofs::Outputs::put_none))]
fn put_without(payload: &[u8], chain: Option<ModexChain>, output: &mut [u8])
    requires inside { Inside payload.now chain }
    requires chain_in_bounds { length (without_chain payload.now chain) ≤ length output.old }
    ensures { output.new ≡ in_front (without_chain payload.now chain) output.old }
{
    match chain {
        Some(chain) => {
            put(&payload[chain.next_pos - 1..], output, 0);
            output[0] = payload[0] / 16 * 16 + chain.next_packet_type;
        }
        None => {
            put(payload, output, 0);
        }
    }
}

pub fn normalize_modex_payload(
    payload: &[u8],
    caps_ex_mask: u32,
    output: &mut [u8],
) -> Result<usize, ErrorCode>
    ensures answer { result ≡ peel_result 1 caps_ex_mask payload.now (length output.old) }
    ensures output { output.new ≡ peel_output 1 caps_ex_mask payload.now output.old }
    ensures numbers { peel_answer result ≡ peel_numbers 1 caps_ex_mask payload.now (length output.old) }
{
    normalize_modex_payload_with_frame_type(payload, caps_ex_mask, FrameType::VIDEO, output)
}

// The peeled payload goes into the front of the output: its length.
#[tactic(auto, unfolding(crate::specs::Modex::peeled, crate::specs::Modex::peel_result, crate::specs::Modex::peel_output, crate::specs::Modex::peel_numbers))]
pub fn normalize_modex_payload_with_frame_type(
    payload: &[u8],
    caps_ex_mask: u32,
    frame_type: FrameType,
    output: &mut [u8],
) -> Result<usize, ErrorCode>
    ensures answer { result ≡ peel_result (frame_number frame_type) caps_ex_mask payload.now (length output.old) }
    ensures output { output.new ≡ peel_output (frame_number frame_type) caps_ex_mask payload.now output.old }
    ensures numbers { peel_answer result ≡ peel_numbers (frame_number frame_type) caps_ex_mask payload.now (length output.old) }
{
    let chain = peeled_chain(payload, caps_ex_mask, frame_type).chain;
    let length = length_without(payload, chain);
    if output.len() < length {
        return Err(ErrorCode::OutputTooShort);
    }
    put_without(payload, chain, output);
    Ok(length)
}

// As above, with the offset of the chain. Refused are, in this order: -22 an output shorter than the peeled payload; -3 a bad layer. A refusal leaves the
// output as it is.
#[tactic(auto, unfolding(crate::specs::Modex::peeled, crate::specs::Modex::peel_output, crate::specs::Offsets::peel_offset_result, crate::specs::Offsets::peel_offset_output, crate::specs::Offsets::peel_offset_numbers))]
pub fn normalize_modex_payload_with_offset(
    payload: &[u8],
    caps_ex_mask: u32,
    frame_type: FrameType,
    output: &mut [u8],
) -> Result<Peeled, ErrorCode>
    ensures answer { result ≡ peel_offset_result (frame_number frame_type) caps_ex_mask payload.now (length output.old) }
    ensures output { output.new ≡ peel_offset_output (frame_number frame_type) caps_ex_mask payload.now output.old }
    ensures numbers { peel_offset_answer result ≡ peel_offset_numbers (frame_number frame_type) caps_ex_mask payload.now (length output.old) }
{
    let TimedChain { chain, offsets } = peeled_chain(payload, caps_ex_mask, frame_type);
    let length = length_without(payload, chain);
    if output.len() < length {
        return Err(ErrorCode::OutputTooShort);
    }
    if offsets.bad {
        return Err(ErrorCode::Protocol);
    }
    put_without(payload, chain, output);
    Ok(Peeled {
        length,
        offset: wire::be24_at(payload, offsets.at) as u32,
    })
}

// The peeled payload is made at the payload's end, without a copy: its byte 0 replaces the last option byte. Refused is a bad layer, with -3; a refusal
// leaves the payload as it is.
#[tactic(auto, unfolding(crate::specs::InPlace::in_place_result, crate::specs::InPlace::in_place_payload, crate::specs::InPlace::peeled_start, crate::specs::InPlace::peeled_in_place))]
pub fn normalize_modex_payload_in_place(
    payload: &mut [u8],
    caps_ex_mask: u32,
    frame_type: FrameType,
) -> Result<PeeledInPlace, ErrorCode>
    ensures answer { result ≡ in_place_result (frame_number frame_type) caps_ex_mask payload.old }
    ensures payload { payload.new ≡ in_place_payload (frame_number frame_type) caps_ex_mask payload.old }
{
    let TimedChain { chain, offsets } = peeled_chain(payload, caps_ex_mask, frame_type);
    if offsets.bad {
        return Err(ErrorCode::Protocol);
    }
    let offset = wire::be24_at(payload, offsets.at) as u32;
    let Some(chain) = chain else {
        return Ok(PeeledInPlace { start: 0, offset });
    };
    let start = chain.next_pos - 1;
    payload[start] = payload[0] / 16 * 16 + chain.next_packet_type;
    Ok(PeeledInPlace { start, offset })
}

#[tactic(auto, unfolding(crate::specs::Modex::modex_result))]
pub fn modex_parse(modex: Modex, payload: &[u8]) -> ModexResult
    ensures { result ≡ modex_result modex payload.now }
{
    let ModexPrefix { error, modex, .. } = modex_parse_prefix(modex, payload);
    ModexResult { error, modex }
}

// One layer from the first byte on. A refusal hands the given Modex back.
#[tactic(auto, unfolding(crate::specs::Modex::modex_prefix), using(crate::proofs::Laws::layer_facts_lem))]
pub fn modex_parse_prefix(modex: Modex, payload: &[u8]) -> ModexPrefix
    ensures { result ≡ modex_prefix modex payload.now }
{
    let Some(layer) = parse_modex_layer(payload, 0) else {
        return ModexPrefix {
            error: ErrorCode::Io,
            consumed: 0,
            modex,
        };
    };
    if layer.modex_type != 0 {
        return ModexPrefix {
            error: ErrorCode::Ok,
            consumed: layer.next_pos,
            modex: Modex {
                modex_type: ModexType::Nop,
                offset: 0,
                next_packet_type: layer.next_packet_type,
            },
        };
    }
    if layer.data_end - layer.data_start < TIMESTAMP_OFFSET_NANO_LEN {
        return ModexPrefix {
            error: ErrorCode::Protocol,
            consumed: 0,
            modex,
        };
    }
    ModexPrefix {
        error: ErrorCode::Ok,
        consumed: layer.next_pos,
        modex: Modex {
            modex_type: ModexType::TimestampOffsetNano,
            offset: wire::be24_at(payload, layer.data_start) as u64,
            next_packet_type: layer.next_packet_type,
        },
    }
}
