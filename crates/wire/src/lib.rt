// What every crate reads with: a byte, and big-endian numbers at a position. A byte past the end reads as 0.
#![tactic(auto)]

ghost use Rattle.std.specs.Prelude.{◌≡◌, cond, ◌<◌, min};
ghost use Rattle.wire.specs.Wire.{byte_at, bit, be16_at, be24_at, be32_at, be64_at};

pub fn byte_at(payload: &[u8], at: usize) -> u8
    ensures { result ≡ byte_at payload.now at }
{
    payload.get(at).copied().unwrap_or(0)
}

// Bit 7 of a tag, which byte 0 is. In video it says that the header is enhanced; every ModEx wrapper has it too.
pub fn is_ex_header(tag: u8) -> bool
    ensures { result ≡ bit 7 tag }
{
    tag & 0x80 != 0
}

pub fn be16_at(payload: &[u8], at: usize) -> usize
    ensures { (result ≡ be16_at payload.now at) × (result < 65536) }
{
    if payload.len() <= at {
        return 0;
    }
    usize::from(payload[at]) * 256 + usize::from(byte_at(payload, at + 1))
}

pub fn be24_at(payload: &[u8], at: usize) -> usize
    ensures { (result ≡ be24_at payload.now at) × (result < 16777216) }
{
    if payload.len() <= at {
        return 0;
    }
    usize::from(payload[at]) * 65536 + be16_at(payload, at + 1)
}

pub fn be32_at(payload: &[u8], at: usize) -> u64
    ensures { (result ≡ be32_at payload.now at) × (result < 4294967296) }
{
    if payload.len() <= at {
        return 0;
    }
    (usize::from(payload[at]) * 16777216 + be24_at(payload, at + 1)) as u64
}

pub fn be64_at(payload: &[u8], at: usize) -> u64
    ensures { result ≡ be64_at payload.now at }
{
    if payload.len() <= at {
        return 0;
    }
    be32_at(payload, at) * 4294967296 + be32_at(payload, at + 4)
}
