// Heads and answers in the plain numbers that C and Rust can pass.
#![tactic(auto)]

pub mod given;
pub mod version;

// A head as a caller has it. Nothing in it is trusted.
#[repr(C)]
#[derive(Clone, Copy)]
pub struct HeadNumbers {
    pub dim: u64,
    pub branching: u64,
    pub leaf_cap: u64,
    pub max_leaves: u64,
    pub nodes: u64,
    pub entries: u64,
    pub root: u64,
    pub rebuilds: u64,
    pub merged: u64,
    pub threshold: f64,
    pub feature: u32,
    pub dist: u32,
    pub abs: u32,
}

// What a call answers: 0 for accepted, or the refusal's number and the values that come with it, 0 where there is none.
#[repr(C)]
#[derive(Clone, Copy)]
pub struct AnswerNumbers {
    pub first: u64,
    pub second: u64,
    pub number: u32,
}
