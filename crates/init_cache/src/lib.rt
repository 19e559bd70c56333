// The cache kind of a frame: whether it is kept for receivers that join late.
#![tactic(auto)]

pub mod head;
pub mod kind;
pub mod seen;
pub mod verdicts;
