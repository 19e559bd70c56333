// What is printed, and compared, in a form of its own.
use std::fmt;
use types::ErrorCode;

// An error number without its sign.
pub(crate) fn magnitude(e: ErrorCode) -> u64 {
    u64::from(i32::from(e).unsigned_abs())
}

// An answer's error as it is printed, which is 0 beside a value, and the value, which is its default beside an error.
pub(crate) fn parts<T: Copy + Default>(answer: Result<T, ErrorCode>) -> (i32, T) {
    match answer {
        Ok(value) => (0, value),
        Err(error) => (i32::from(error), T::default()),
    }
}

// Bytes, as two hexadecimal digits each.
#[derive(Clone, Copy)]
pub(crate) struct Hex<'a>(pub(crate) &'a [u8]);

impl fmt::Display for Hex<'_> {
    fn fmt<W: fmt::Write>(&self, f: &mut fmt::Formatter<W>) -> fmt::Result {
        for byte in self.0 {
            write!(f, "{byte:02x}")?;
        }
        Ok(())
    }
}
