// What a rebuild keeps in scratch.
#![tactic(auto)]

pub mod stored;
