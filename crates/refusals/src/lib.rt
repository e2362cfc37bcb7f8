// The refusal that each call gives, if any: of those that apply, the first in document 01's order. Nothing is written.
#![tactic(auto)]

pub mod change;
pub mod lent;
pub mod look;
