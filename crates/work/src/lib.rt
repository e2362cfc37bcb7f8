// What a call does with its rows, in slices that are as long as needed.
#![tactic(auto)]

pub mod change;

ghost use Rattle.std.specs.Prelude.{◌≡◌, ◌*◌, ◌≤◌, length};
ghost use Rattle.rules.specs.Lists.{rows_of};
ghost use Rattle.rules.specs.Slices.{tree_of};
ghost use Rattle.arena.specs.Trees.{Floats, Links};
ghost use Rattle.scratch.specs.Stored.{Scratch};
ghost use Rattle.fronts.specs.Fronts.{Fronts, AllLeft};
ghost use Rattle.work.specs.Worked.{worked, Workable};

use fronts::tidy::tidy_all;
use head::{Counters, Settings};
use insert::insert_all;
use refit::refit;

#[derive(Clone, Copy)]
pub enum Work {
    Insert,
    Refit,
}

// The first `count` rows worked into the tree.
fn perform(
    s: Settings,
    n: Counters,
    floats: &mut [f64],
    links: &mut [u32],
    scratch: &mut [f64],
    numbers: &mut [u32],
    rows: &[f64],
    count: usize,
    w: Work,
) -> Counters
    requires floats { Floats s n (length floats.old) × Links s n (length links.old) × Scratch s (length scratch.old) (length numbers.old) }
    requires dim_in_bounds { (count * s.dim ≤ length rows.now) × Workable w s count (tree_of s n floats.old links.old) }
    ensures floats_2 { Floats s result (length floats.old) × Links s result (length links.old) }
    ensures links_after { tree_of s result floats.new links.new
        ≡ worked w s (rows_of count s.dim rows.now) (tree_of s n floats.old links.old) }
{
    match w {
        Work::Insert => insert_all(s, n, floats, links, scratch, numbers, rows, count),
        Work::Refit => refit(s, n, floats, links, scratch, numbers, rows, count),
    }
}

// The same, and the slices left tidy.
pub fn perform_tidily(
    s: Settings,
    n: Counters,
    floats: &mut [f64],
    links: &mut [u32],
    scratch: &mut [f64],
    numbers: &mut [u32],
    rows: &[f64],
    count: usize,
    w: Work,
) -> Counters
    requires fronts { Fronts s n (length floats.old) (length links.old) (length scratch.old) (length numbers.old) }
    requires dim_in_bounds { (count * s.dim ≤ length rows.now) × Workable w s count (tree_of s n floats.old links.old) }
    ensures { AllLeft s (worked w s (rows_of count s.dim rows.now) (tree_of s n floats.old links.old)) result
        floats.new links.new scratch.new numbers.new }
{
    let m = perform(s, n, floats, links, scratch, numbers, rows, count, w);
    tidy_all(s, m, floats, links, scratch, numbers);
    m
}
