// The rounds of a refit: unused entries are dropped; reinsert and repeat once, and whenever a leaf was emptied.
ghost use Rattle.std.specs.Prelude.{◌≡◌, not, ◌&&◌, ◌*◌, ◌≤◌, ◌<◌, leb, length};
ghost use Rattle.rules.specs.Lists.{rows_of};
ghost use Rattle.rules.specs.Tree.{node_at};
ghost use Rattle.rules.specs.Slices.{tree_of};
ghost use Rattle.rules.specs.Rebuild.{dropped};
ghost use Rattle.rules.specs.Refit.{hollow, any_hollow, enough, refit_rounds};
ghost use Rattle.arena.specs.Trees.{AnyFloats, Floats, Links};
ghost use Rattle.scratch.specs.Flags.{alive_in};
ghost use Rattle.merging.specs.Pruning.{LeavesIn};
ghost use Rattle.reinsert.specs.Whole.{Reinsertable};
ghost use Rattle.scratch.specs.Stored.{Scratch};
ghost use Rattle.refit.specs.Rounds.{counted, last, after, placed_again, one_round, Pourable};
ghost use Rattle.rules.specs.Route.{greedy};

use arena::links;
use head::{Counters, Settings};
use merging::dropping::drop_merged;
use pouring::reaccumulate;
use reinsert::reinsert;
use std::ops::ControlFlow;

// Whether node i is a leaf with nothing in it.
fn is_hollow(s: Settings, n: Counters, links: &[u32], i: usize) -> bool
    requires { Links s n (length links.now) × (i < n.nodes) }
    ensures { AnyFloats s n links.now (λ t. result ≡ hollow (node_at t i)) }
{
    if !links::is_leaf(s, n, links, i) {
        return false;
    }
    links::list_len(s, n, links, i) == 0
}

// Whether any leaf was emptied.
fn any_hollow(s: Settings, n: Counters, links: &[u32]) -> bool
    requires { Links s n (length links.now) }
    ensures { AnyFloats s n links.now (λ t. result ≡ any_hollow t.nodes) }
{
    (0..n.nodes).any(|i| is_hollow(s, n, links, i))
}

// Whether a tree without its unused entries stays as it is: a round has reinserted, and no leaf was emptied.
fn enough(s: Settings, n: Counters, links: &[u32], done: usize) -> bool
    requires { Links s n (length links.now) }
    ensures { AnyFloats s n links.now (λ t. result ≡ enough done t) }
{
    if any_hollow(s, n, links) {
        return false;
    }
    1 <= done
}

// The unused entries dropped, and the others placed again unless that is enough: then the rounds end.
fn drop_unused(
    s: Settings,
    n: Counters,
    floats: &mut [f64],
    links: &mut [u32],
    scratch: &mut [f64],
    numbers: &mut [u32],
    done: usize,
) -> ControlFlow<Counters, Counters>
    requires floats { Floats s n (length floats.old) × Links s n (length links.old) × Scratch s (length scratch.old) (length numbers.old) }
    requires leaves_in { LeavesIn n (tree_of s n floats.old links.old)
        × Reinsertable s (dropped (alive_in numbers.old n.entries) (tree_of s n floats.old links.old)) }
    ensures floats_2 { Floats s (counted result) (length floats.old) × Links s (counted result) (length links.old) }
    ensures last_after { after (tree_of s (counted result) floats.new links.new) (last result)
        ≡ placed_again s done (dropped (alive_in numbers.old n.entries) (tree_of s n floats.old links.old)) }
{
    let m = drop_merged(s, n, floats, links, numbers);
    if enough(s, m, links, done) {
        return ControlFlow::Break(m);
    }
    ControlFlow::Continue(reinsert(s, m, floats, links, scratch, numbers))
}

// One round, `done` of them before it; it breaks off the rounds if it was the last.
fn round(
    s: Settings,
    n: Counters,
    floats: &mut [f64],
    links: &mut [u32],
    scratch: &mut [f64],
    numbers: &mut [u32],
    rows: &[f64],
    count: usize,
    done: usize,
) -> ControlFlow<Counters, Counters>
    requires floats { Floats s n (length floats.old) × Links s n (length links.old) × Scratch s (length scratch.old) (length numbers.old) }
    requires dim_in_bounds { (count * s.dim ≤ length rows.now) × Pourable s count (tree_of s n floats.old links.old) }
    ensures floats_2 { Floats s (counted result) (length floats.old) × Links s (counted result) (length links.old) }
    ensures last_after { after (tree_of s (counted result) floats.new links.new) (last result)
        ≡ one_round s (rows_of count s.dim rows.now) done (tree_of s n floats.old links.old) }
{
    if reaccumulate(s, n, floats, links, scratch, numbers, rows, count) {
        return ControlFlow::Break(n);
    }
    drop_unused(s, n, floats, links, scratch, numbers, done)
}

// All rounds, no more than there are entries.
pub fn rounds(
    s: Settings,
    n: Counters,
    floats: &mut [f64],
    links: &mut [u32],
    scratch: &mut [f64],
    numbers: &mut [u32],
    rows: &[f64],
    count: usize,
) -> Counters
    requires floats { Floats s n (length floats.old) × Links s n (length links.old) × Scratch s (length scratch.old) (length numbers.old) }
    requires dim_in_bounds { (count * s.dim ≤ length rows.now) × Pourable s count (tree_of s n floats.old links.old) }
    ensures floats_2 { Floats s result (length floats.old) × Links s result (length links.old) }
    ensures links_after { tree_of s result floats.new links.new
        ≡ refit_rounds s (greedy s) (rows_of count s.dim rows.now) n.entries 0 (tree_of s n floats.old links.old) }
{
    let mut m = n;
    for done in 0..n.entries {
        m = match round(s, m, floats, links, scratch, numbers, rows, count, done) {
            ControlFlow::Break(end) => return end,
            ControlFlow::Continue(next) => next,
        };
    }
    m
}
