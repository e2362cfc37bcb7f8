// What a call that only reads gives: where the entries stand, and what is written to the front of a lent output.
#![tactic(auto)]

pub mod places;
pub mod routes;
pub mod spread;
