// Which entries a rebuild merges, and in which order.
#![tactic(auto)]

pub mod cousins;
mod groups;
pub mod partner;
pub mod siblings;
pub mod sorting;
