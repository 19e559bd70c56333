// What programs from standard input to standard output share, so that none of them fails in silence: a read that fails is told apart from the end of the
// input, and a read or a write that fails, and any argument, gets a line on standard error. `what` begins that line; the error's text follows.
#![tactic(auto)]

ghost use Rattle.std.specs.Prelude.{◌≡◌, ℕ, ◌<◌, ◌≤◌, true, false, List, length, take};
ghost use Rattle.std.specs.Io.KnownBytes.{Appends, Consumes, IsAtEnd};

use std::env::{Env, FillError};
use std::io::{Error, Read, Write};
use std::{fmt, str};

// How many bytes were read, and whether a read failed.
// Kept (1): the bytes read before a failure count too.
#[derive(Clone, Copy)]
pub struct Filled {
    pub length: usize,
    pub failed: bool,
}

// Bytes of a line on standard error; those that are no text are not said.
#[derive(Clone, Copy)]
struct Said<'a> {
    bytes: &'a [u8],
}

impl fmt::Display for Said<'_> {
    fn fmt<W: fmt::Write>(&self, f: &mut fmt::Formatter<W>) -> fmt::Result {
        match str::from_utf8(self.bytes) {
            Ok(text) => f.write_str(text),
            Err(_) => Ok(()),
        }
    }
}

// Where standard error cannot be written to, nothing more can be said.
fn fail(rt: &impl Eprint, what: &[u8], error: Error) {
    let what = Said { bytes: what };
    let _said = eprintln!(rt; "{what}: {error}");
}

// Reads until buf is full, the input ends or a read fails. A read that a signal interrupts fails, and so does one that finds nothing yet in an input that
// was opened so as not to wait.
pub fn fill<R: Read>(rt: &impl Eprint, input: &mut R, what: &[u8], buf: &mut [u8]) -> Filled
    ensures bound { result.length ≤ length buf.new }
    ensures bytes { Consumes (R.remaining input.old) (R.remaining input.new) (take result.length buf.new) }
    ensures end { result.failed ≡ false → result.length < length buf.new → IsAtEnd (R.remaining input.new) }
{
    let mut done: usize = 0;
    // Kept (3): a read says how far it came.
    while done < buf.len() {
        let more = match input.read(&mut buf[done..]) {
            Ok(more) => more,
            Err(error) => {
                fail(rt, what, error);
                return Filled {
                    length: done,
                    failed: true,
                };
            }
        };
        if more == 0 {
            break;
        }
        done += more;
    }
    Filled {
        length: done,
        failed: false,
    }
}

// Reads so many bytes and forgets them, as many at a time as there is room for: how many there were, and whether a read failed.
pub fn skip<R: Read>(
    rt: &impl Eprint,
    input: &mut R,
    what: &[u8],
    count: usize,
    room: &mut [u8],
) -> Filled
    ensures bound { result.length ≤ count }
    ensures bytes { (bs : List ℕ) × Consumes (R.remaining input.old) (R.remaining input.new) bs × (length bs ≡ result.length) }
    ensures end { 0 < length room.old → result.failed ≡ false → result.length < count → IsAtEnd (R.remaining input.new) }
{
    let mut done: usize = 0;
    // Kept (3): as in fill.
    while done < count {
        let piece = (count - done).min(room.len());
        let read = fill(rt, input, what, &mut room[..piece]);
        done += read.length;
        if read.failed {
            return Filled {
                length: done,
                failed: true,
            };
        }
        if read.length == 0 {
            break;
        }
    }
    Filled {
        length: done,
        failed: false,
    }
}

// Writes all of text: whether it could.
pub fn print<W: Write>(rt: &impl Eprint, output: &mut W, what: &[u8], text: &[u8]) -> bool
    ensures { result ≡ true → Appends (W.contents output.old) (W.contents output.new) text.now }
{
    match output.write_all(text) {
        Ok(()) => true,
        Err(error) => {
            fail(rt, what, error);
            false
        }
    }
}

// Whether the program was started with arguments. No program here takes any, so `usage` is said.
pub fn has_arguments(rt: &(impl Env + Eprint), usage: &[u8]) -> bool {
    let mut first = [0u8; 1];
    if let Err(FillError::NotPresent) = rt.arg(1, &mut first) {
        return false;
    }
    let usage = Said { bytes: usage };
    let _said = eprint!(rt; "{usage}");
    true
}

#[cfg(test)]
mod tests {
    use super::*;
    use std::io;
    use std::io::ErrorKind;
    use std::test::Fail;

    // Says nothing.
    #[derive(Clone, Copy)]
    struct Silent;

    impl Eprint for Silent {
        fn eprint<D: fmt::Display + Drop>(&self, _value: D) -> io::Result<()> {
            Ok(())
        }

        fn eprintln<D: fmt::Display + Drop>(&self, _value: D) -> io::Result<()> {
            Ok(())
        }
    }

    // Gives so many bytes, one at each read, and fails then.
    #[derive(Clone, Copy)]
    struct Breaking {
        left: u8,
    }

    impl Read for Breaking {
        fn read(&mut self, buf: &mut [u8]) -> io::Result<usize> {
            if self.left == 0 {
                return Err(Error::from(ErrorKind::Interrupted));
            }
            if buf.is_empty() {
                return Ok(0);
            }
            buf[0] = self.left;
            self.left -= 1;
            Ok(1)
        }
    }

    #[test]
    fn tells_a_failure_from_the_end(rt: HostRuntime) -> Result<(), Fail> {
        let mut bytes = [0u8; 5];
        let broken = fill(&Silent, &mut Breaking { left: 3 }, b"test", &mut bytes);
        assert_eq!(rt; broken.length, 3);
        assert!(rt; broken.failed);
        assert_eq!(rt; bytes, [3, 2, 1, 0, 0]);
        let mut short: &[u8] = b"abc";
        let ended = fill(&Silent, &mut short, b"test", &mut bytes);
        assert_eq!(rt; ended.length, 3);
        assert!(rt; !ended.failed);
        assert_eq!(rt; bytes, *b"abc\x00\x00");
        Ok(())
    }

    #[test]
    fn skips_in_pieces(rt: HostRuntime) -> Result<(), Fail> {
        let mut room = [0u8; 2];
        let mut input: &[u8] = b"abcdef";
        let skipped = skip(&Silent, &mut input, b"test", 5, &mut room);
        assert_eq!(rt; skipped.length, 5);
        assert_eq!(rt; input.len(), 1);
        let broken = skip(&Silent, &mut Breaking { left: 3 }, b"test", 5, &mut room);
        assert_eq!(rt; broken.length, 3);
        assert!(rt; broken.failed);
        Ok(())
    }

    #[test]
    fn says_text_and_nothing_else(rt: HostRuntime) -> Result<(), Fail> {
        let mut said = String::new(rt.alloc());
        let text = Said {
            bytes: b"sheet: standard input",
        };
        write!(said, "{text}")?;
        let none = Said { bytes: b"\xFF" };
        write!(said, "{none}")?;
        assert_eq!(rt; said.as_str(), "sheet: standard input");
        Ok(())
    }
}
