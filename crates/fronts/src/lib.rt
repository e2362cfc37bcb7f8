// The needed front of each lent slice: an empty tree made there, and the slices left as document 01 says.
#![tactic(auto)]

pub mod create;
pub mod tidy;
