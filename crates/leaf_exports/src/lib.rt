// Exported entries for the differential run: functions that the product's own entries do not expose, a module for each of their crates, with numbers
// for enums. No part of the product.
#![tactic(auto)]

pub mod class_leaves;
pub mod descriptor_leaves;
pub mod fourcc_leaves;
pub mod header_leaves;
pub mod modex_leaves;
pub mod record_leaves;
pub mod sound_leaves;
pub mod track_leaves;
