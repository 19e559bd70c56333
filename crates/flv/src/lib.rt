// FLV files, version 1: recordings of frames, read in memory frame by frame, and written.
#![tactic(auto)]

pub mod places;
pub mod reading;
pub mod writing;
