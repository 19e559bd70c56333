// Standard input, of which a row takes as much as it needs. Each call says whether there was enough.
use std::io::Read;
use streams::fill;

#[derive(Drop)]
pub(crate) struct Input<R, I> {
    pub(crate) rt: R,
    pub(crate) from: I,
}

// A number of a row, big-endian.
// Kept (2): an implementation for each type: std has no trait of `from_be_bytes`, and a closure over an array of N bytes is not proved (tried).
pub(crate) trait Number: Copy {
    fn read<R: Eprint + Drop, I: Read>(input: &mut Input<R, I>) -> Option<Self>;
}

impl Number for u32 {
    fn read<R: Eprint + Drop, I: Read>(input: &mut Input<R, I>) -> Option<u32> {
        input.array().map(|bytes| u32::from_be_bytes(bytes))
    }
}

impl Number for u64 {
    fn read<R: Eprint + Drop, I: Read>(input: &mut Input<R, I>) -> Option<u64> {
        input.array().map(|bytes| u64::from_be_bytes(bytes))
    }
}

impl Number for usize {
    fn read<R: Eprint + Drop, I: Read>(input: &mut Input<R, I>) -> Option<usize> {
        input.array().map(|bytes| usize::from_be_bytes(bytes))
    }
}

impl<R: Eprint + Drop, I: Read> Input<R, I> {
    // As many bytes as there are places.
    pub(crate) fn bytes(&mut self, bytes: &mut [u8]) -> bool {
        let read = fill(&self.rt, &mut self.from, b"cases: standard input", bytes);
        read.length == bytes.len()
    }

    pub(crate) fn array<const N: usize>(&mut self) -> Option<[u8; N]> {
        let mut bytes = [0u8; N];
        if self.bytes(&mut bytes) {
            Some(bytes)
        } else {
            None
        }
    }

    // As many numbers as there are places.
    pub(crate) fn numbers<T: Number>(&mut self, numbers: &mut [T]) -> bool {
        for place in numbers {
            let Some(number) = T::read(self) else {
                return false;
            };
            *place = number;
        }
        true
    }
}
