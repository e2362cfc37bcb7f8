// The merges of a rebuild, the threshold that they ask for, and the merged-away entries dropped.
#![tactic(auto)]

pub mod dropping;
pub mod merges;
pub mod threshold;
