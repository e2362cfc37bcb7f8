// The tree in the lent slices: the one place that knows where a node or an entry stands.
#![tactic(auto)]

pub mod children;
pub mod clear;
pub mod entries;
pub mod links;
pub mod nodes;
pub mod slots;
