// What became of the rows.
use super::compared::Operation;
use std::io;

// No more rows are read.
pub const MOST_ROWS: u32 = 1000000;

// Kept (1): printed or compared: neither is the absence of the other, so an Option is no plainer.
#[derive(Clone, Copy)]
pub enum Outcome {
    // The answer was printed.
    Printed,
    // The answer was compared with the stored one, and is the same or not.
    Compared(Operation, bool),
}

// How many rows were compared, and how many of them differ.
#[derive(Clone, Copy, Default)]
struct Count {
    rows: u32,
    differ: u32,
}

// In the order of Operation::ALL.
#[derive(Clone, Copy, Default)]
pub struct Tally {
    counts: [Count; 6],
}

impl Tally {
    pub(crate) fn add(&mut self, operation: Operation, alike: bool) {
        let count = &mut self.counts[operation as usize];
        count.rows = count.rows.saturating_add(1);
        count.differ = count.differ.saturating_add(u32::from(!alike));
    }

    pub(crate) fn show(&self, rt: &impl Print) -> io::Result<()> {
        for operation in Operation::ALL {
            let Count { rows, differ } = self.counts[operation as usize];
            println!(rt; "{operation} {rows} rows, {differ} differ")?;
        }
        Ok(())
    }
}
