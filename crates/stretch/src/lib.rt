// One lent stretch of an arena: the slot of a summary, the block of a node's links.
#![tactic(auto)]

pub mod block;
pub mod slot;
