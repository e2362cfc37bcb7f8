// Heads and answers as numbers, and back.
ghost use Rattle.std.specs.Prelude.{◌≡◌};
ghost use Rattle.boundary.specs.Numbers.{head_of, head_numbers, with_values, refusal_numbers, answer_numbers};

use crate::{AnswerNumbers, HeadNumbers};
use head::refusal::{Answer, Refusal};
use head::{Counters, Head, Running};

#[tactic(auto, unfolding(crate::specs::Numbers::head_of))]
pub fn head_of(h: HeadNumbers) -> Head
    ensures { result ≡ head_of h }
{
    let running = Running {
        threshold: h.threshold,
        rebuilds: h.rebuilds,
        merged: h.merged as usize,
    };
    let counters = Counters {
        nodes: h.nodes as usize,
        entries: h.entries as usize,
        root: h.root as usize,
        running,
    };
    Head {
        dim: h.dim as usize,
        branching: h.branching as usize,
        leaf_cap: h.leaf_cap as usize,
        max_leaves: h.max_leaves as usize,
        feature: h.feature,
        dist: h.dist,
        abs: h.abs,
        counters,
    }
}

#[tactic(auto, unfolding(crate::specs::Numbers::head_numbers))]
pub fn head_numbers(h: Head) -> HeadNumbers
    ensures { result ≡ head_numbers h }
{
    HeadNumbers {
        dim: h.dim as u64,
        branching: h.branching as u64,
        leaf_cap: h.leaf_cap as u64,
        max_leaves: h.max_leaves as u64,
        nodes: h.counters.nodes as u64,
        entries: h.counters.entries as u64,
        root: h.counters.root as u64,
        rebuilds: h.counters.running.rebuilds,
        merged: h.counters.running.merged as u64,
        threshold: h.counters.running.threshold,
        feature: h.feature,
        dist: h.dist,
        abs: h.abs,
    }
}

fn with_values(number: u32, first: u64, second: u64) -> AnswerNumbers
    ensures { result ≡ with_values number first second }
{
    AnswerNumbers {
        first,
        second,
        number,
    }
}

fn only(number: u32) -> AnswerNumbers
    ensures { result ≡ with_values number 0 0 }
{
    with_values(number, 0, 0)
}

// A refusal's number, and the values that come with it.
#[tactic(auto, unfolding(crate::specs::Numbers::refusal_numbers, head::specs::Refusals::number_of, head::specs::Refusals::values_of))]
fn refusal_numbers(r: Refusal) -> AnswerNumbers
    ensures { result ≡ refusal_numbers r }
{
    let number = u32::from(r);
    match r {
        Refusal::Tree(condition) => with_values(number, u64::from(condition), 0),
        Refusal::Shape(dim, length) => with_values(number, dim as u64, length as u64),
        Refusal::Settings | Refusal::Room | Refusal::Empty | Refusal::Full | Refusal::Output =>
            only(number),
    }
}

#[tactic(auto, unfolding(crate::specs::Numbers::answer_numbers))]
pub fn answer_numbers(a: Answer) -> AnswerNumbers
    ensures { result ≡ answer_numbers a }
{
    match a {
        Ok(()) => only(0),
        Err(r) => refusal_numbers(r),
    }
}
