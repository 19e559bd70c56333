// The places of an FLV file in their order, and what each is refused with: the header and the first back-pointer, then of each tag the head, the body and
// the back-pointer.
ghost use Rattle.std.specs.Prelude.{◌≡◌, cond, ◌+◌, ◌-◌, min, ◌≤◌, ◌<◌, ltb, length, Ok, Err, IfOk, OnOk};
ghost use Rattle.wire.specs.Wire.{part};
ghost use Rattle.types.specs.Types.{outcome};
ghost use Rattle.flv.specs.Files.{
  is_header,
  start_refusal,
  start_error,
  body_size,
  tag_refusal,
  is_frame_byte,
  frame_type_byte,
};
ghost use Rattle.flv.specs.Calls.{pointer_refusal, body_refusal, tag_size};

use types::ErrorCode;

pub const HEADER: usize = 9;

// The header and the first back-pointer.
pub const START: usize = 13;

pub const HEAD: usize = 11;

pub const BACK_POINTER: usize = 4;

// A tag without its body.
pub const TAG: usize = 15;

// The part of n bytes from a place on, as far as the bytes go. A test and no `at.min(..)`, which a read behind it would wait for.
fn part(bytes: &[u8], at: usize, n: usize) -> &[u8]
    ensures bytes { result.now ≡ part bytes.now at n }
    ensures long { length result.now ≡ min n (length bytes.now - at) }
{
    if bytes.len() < at {
        return &[];
    }
    let rest = &bytes[at..];
    &rest[..n.min(rest.len())]
}

// Whether a header of nine bytes is right.
#[tactic(auto, unfolding(crate::specs::Files::is_header))]
pub fn is_header(header: &[u8]) -> bool
    ensures { result ≡ is_header header.now }
{
    // `FLV`, version 1
    wire::be32_at(header, 0) == 0x464C5601 && wire::be32_at(header, 5) == 9
}

// The refusals of a back-pointer, over the bytes read of it: it says how long what stands before it is.
#[tactic(auto, unfolding(crate::specs::Calls::pointer_refusal))]
fn pointer_refusal(pointer: &[u8], before: usize) -> Result<(), ErrorCode>
    ensures refusal { result ≡ outcome (pointer_refusal pointer.now before) }
    ensures whole { OnOk result (4 ≤ length pointer.now) }
{
    if pointer.len() < BACK_POINTER {
        return Err(ErrorCode::Truncated);
    }
    if wire::be32_at(pointer, 0) as usize != before {
        return Err(ErrorCode::WrongBackPointer);
    }
    Ok(())
}

// The refusals of a file's start, over the bytes read of its header and of its first back-pointer.
#[tactic(auto, unfolding(crate::specs::Files::start_refusal, crate::specs::Calls::pointer_refusal))]
pub fn start_refusal(header: &[u8], pointer: &[u8]) -> Result<(), ErrorCode>
    ensures { result ≡ outcome (start_refusal header.now pointer.now) }
{
    if header.len() < HEADER {
        return Err(ErrorCode::Truncated);
    }
    if !is_header(header) {
        return Err(ErrorCode::NotFlv);
    }
    pointer_refusal(pointer, 0)
}

// The refusals of the start of a file in memory.
#[tactic(auto, unfolding(crate::specs::Files::start_error))]
pub(crate) fn start_error(file: &[u8]) -> Result<(), ErrorCode>
    ensures { result ≡ outcome (start_error file.now) }
{
    start_refusal(part(file, 0, HEADER), part(file, HEADER, BACK_POINTER))
}

// Whether a tag of this type byte is a frame.
pub fn is_frame(byte: u8) -> bool
    ensures { result ≡ is_frame_byte byte }
{
    matches!(byte, 8 | 9 | 18)
}

// The frame type of a frame's type byte.
pub fn frame_type(byte: u8) -> u8
    ensures { result ≡ frame_type_byte byte }
{
    match byte {
        8 => 0,
        9 => 1,
        _ => 2,
    }
}

// The body's length that a whole head asks for.
fn head_size(head: &[u8]) -> Result<usize, ErrorCode>
    ensures size { result ≡ cond (ltb (length head.now) 11) (Err ErrorCode.Truncated) (Ok (body_size head.now)) }
    ensures bound { IfOk result (λ size. size < 16777216) }
{
    if head.len() < HEAD {
        return Err(ErrorCode::Truncated);
    }
    Ok(wire::be24_at(head, 1))
}

// The refusals of a tag behind its head.
#[tactic(auto, unfolding(crate::specs::Calls::pointer_refusal))]
fn body_refusal(size: usize, got: usize, pointer: &[u8]) -> Result<(), ErrorCode>
    requires { size < 16777216 }
    ensures refusal { result ≡ outcome (body_refusal size got pointer.now) }
    ensures whole { OnOk result (4 ≤ length pointer.now) }
{
    if got < size {
        return Err(ErrorCode::Truncated);
    }
    pointer_refusal(pointer, size + HEAD)
}

// The refusals of a tag, over the bytes read of its head, the number of bytes read of its body, and the bytes read of its back-pointer.
#[tactic(auto, unfolding(crate::specs::Files::tag_refusal, crate::specs::Calls::pointer_refusal))]
pub fn tag_refusal(head: &[u8], got: usize, pointer: &[u8]) -> Result<(), ErrorCode>
    ensures { result ≡ outcome (tag_refusal head.now got pointer.now) }
{
    body_refusal(head_size(head)?, got, pointer)
}

// The body's length of the tag that some bytes begin with, or why that tag is refused.
#[tactic(auto, using(std::proofs::lemmas::Bool::Decides::nat_tests), unfolding(crate::specs::Files::tag_refusal, crate::specs::Calls::pointer_refusal, crate::specs::Calls::tag_size))]
pub(crate) fn tag_size(tag: &[u8]) -> Result<usize, ErrorCode>
    ensures size { result ≡ tag_size tag.now }
    ensures within { IfOk result (λ size. size + 15 ≤ length tag.now) }
{
    let size = head_size(part(tag, 0, HEAD))?;
    let got = part(tag, HEAD, size).len();
    body_refusal(size, got, part(tag, HEAD + size, BACK_POINTER))?;
    Ok(size)
}
