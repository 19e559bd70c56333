// The composition time in nanoseconds, and the two numbers that it is made of.
ghost use Rattle.std.specs.Prelude.{◌≡◌};
ghost use Rattle.exvideo.specs.Video.{signed32};
ghost use Rattle.frame.specs.Time.{split_time};
ghost use Rattle.frame.specs.Time.{nanoseconds as inNanoseconds};

// Milliseconds, and an offset of at most 999,999 nanoseconds.
#[derive(Clone, Copy, Debug, PartialEq, Eq)]
pub struct SplitTime {
    pub milliseconds: i64,
    pub offset: u32,
}

// composition_time as i32 as i64.
// Kept (4): by hand; with `cast_signed` the proof did not close (tried).
fn signed(composition_time: u32) -> i64
    ensures { result ≡ signed32 composition_time }
{
    let pattern = composition_time as i64;
    if composition_time < 2147483648 {
        return pattern;
    }
    pattern - 4294967296
}

// The milliseconds of a header, and an offset.
pub(crate) fn nanoseconds(composition_time: u32, offset: u32) -> i64
    ensures { result ≡ inNanoseconds (signed32 composition_time) offset }
{
    signed(composition_time) * 1000000 + (offset as i64)
}

// Rounded down: -999,999 nanoseconds are -1 millisecond and 1 nanosecond. Below 0 the number is split as -1 - n.
// Kept (4): by hand; with `div_euclid` the proof did not close (tried).
pub fn split_time(ns: i64) -> SplitTime
    ensures { result ≡ split_time ns }
{
    if ns < 0 {
        let n = (-1 - ns) as u64;
        return SplitTime {
            milliseconds: -1 - ((n / 1000000) as i64),
            offset: (999999 - n % 1000000) as u32,
        };
    }
    let n = ns as u64;
    SplitTime {
        milliseconds: (n / 1000000) as i64,
        offset: (n % 1000000) as u32,
    }
}
