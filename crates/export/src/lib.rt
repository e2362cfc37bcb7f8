// The public calls for C and Rust: plain numbers, structs of numbers and lent slices in, the same out.
#![tactic(auto)]

pub mod change;
pub mod given;
pub mod look;
pub mod sizes;
pub mod version;

use boundary::{AnswerNumbers, HeadNumbers};

// What a call that changes the tree gives back.
#[repr(C)]
#[derive(Clone, Copy)]
pub struct OutcomeNumbers {
    pub head: HeadNumbers,
    pub answer: AnswerNumbers,
}

// What a listing gives back: the answer, and where the entries stand in the floats.
#[repr(C)]
#[derive(Clone, Copy)]
pub struct ListingNumbers {
    pub answer: AnswerNumbers,
    pub entries: u64,
    pub first: u64,
    pub width: u64,
    pub means: u64,
    pub deviations: u64,
}
