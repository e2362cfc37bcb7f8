// The refit: every entry made anew from the rows that finally route to it.
#![tactic(auto)]

pub mod rounds;

ghost use Rattle.std.specs.Prelude.{◌≡◌, ◌*◌, ◌≤◌, length};
ghost use Rattle.rules.specs.Lists.{rows_of};
ghost use Rattle.rules.specs.Slices.{tree_of};
ghost use Rattle.rules.specs.Refit.{refitted};
ghost use Rattle.arena.specs.Trees.{Floats, Links};
ghost use Rattle.scratch.specs.Stored.{Scratch};
ghost use Rattle.refit.specs.Refitting.{Refittable};
ghost use Rattle.rules.specs.Route.{greedy};

use crate::rounds::rounds;
use head::{Counters, Settings};
use refold::refold;

// The tree refitted to the first `count` rows of a batch; nothing happens with no entries or no rows.
pub fn refit(
    s: Settings,
    n: Counters,
    floats: &mut [f64],
    links: &mut [u32],
    scratch: &mut [f64],
    numbers: &mut [u32],
    rows: &[f64],
    count: usize,
) -> Counters
    requires floats { Floats s n (length floats.old) × Links s n (length links.old) × Scratch s (length scratch.old) (length numbers.old) }
    requires dim_in_bounds { (count * s.dim ≤ length rows.now) × Refittable s count (tree_of s n floats.old links.old) }
    ensures floats_2 { Floats s result (length floats.old) × Links s result (length links.old) }
    ensures links_after { tree_of s result floats.new links.new
        ≡ refitted s (greedy s) (rows_of count s.dim rows.now) (tree_of s n floats.old links.old) }
{
    if n.entries == 0 {
        return n;
    }
    if count == 0 {
        return n;
    }
    let m = rounds(s, n, floats, links, scratch, numbers, rows, count);
    refold(s, m, floats, links, scratch);
    m
}
