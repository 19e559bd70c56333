// Times of 64 bits, which rows hold as patterns: two's complement.
use std::io;

// The payload is the time.
pub(crate) fn run_split(rt: &impl Print, payload: &[u8]) -> io::Result<()> {
    let split = frame::time::split_time(wire::be64_at(payload, 0).cast_signed());
    print!(rt; "split_time {} {}", split.milliseconds, split.offset)
}
