// Containers and ModEx layers, written from lent columns: entry i of each column says one thing of track i, or of layer i. All is judged and measured
// before the first byte is stored. A call returns how many bytes stand at the front of the output, or the error, and then the output is as it was.
#![tactic(auto)]

pub mod columns;
pub mod container;
pub mod layers;
