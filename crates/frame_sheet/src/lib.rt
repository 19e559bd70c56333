// The frame sheet as a library: its lines as text, what it prints for one frame of its input, and the sheet frame by frame. The program `sheet` reads and
// writes around it.
#![tactic(auto)]

pub mod lines;
pub mod sheet;
pub mod steps;
mod text;
