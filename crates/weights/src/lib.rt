// Condition 7: entry weights are counts, and each node weighs what its list weighs.
#![tactic(auto)]

ghost use Rattle.std.specs.Prelude.{◌≡◌, ◌<◌, ◌≤◌, true, length};
ghost use Rattle.std.specs.Float.Ieee.{to_unsigned};
ghost use Rattle.binary64.specs.Counts.{is_count};
ghost use Rattle.rules.specs.Lists.{every};
ghost use Rattle.rules.specs.Check.{total_of};
ghost use Rattle.rules.specs.Slices.{tree_of};
ghost use Rattle.arena.specs.Trees.{AnyFloats, AnyLinks, Floats, Links};
ghost use Rattle.weights.specs.Adding.{weight_listed, adds_up, nodes_add_up, weighs_nothing, summed};
ghost use Rattle.lists.specs.Lent.{ListsFit, EntriesCount};
ghost use Rattle.weights.specs.Weighable.{Weighable};

use arena::{children, entries, links, nodes};
use head::{Counters, Head, Settings};

// Whether a weight is a whole number from 1 to 2^53.
#[tactic(auto, using(crate::specs::Weighable::told_some))]
fn is_count(w: f64) -> bool
    ensures { result ≡ is_count w }
{
    binary64::count_of(w).is_some()
}

// The rows that a weight counts.
fn rows_of(w: f64) -> u64
    requires { is_count w ≡ true }
    ensures { (result ≡ to_unsigned 64 w) × (result ≤ 9007199254740992) }
{
    std::num::truncating_f64_to_u64(w)
}

// Whether every entry weighs a count.
fn entries_count(s: Settings, n: Counters, floats: &[f64]) -> bool
    requires { Floats s n (length floats.now) }
    ensures { AnyLinks s n floats.now (λ t. result ≡ every (λ e. is_count e.weight) t.entries) }
{
    lists::every_below(n.entries, |e| is_count(entries::weight(s, n, floats, e)))
}

// The rows in all entries.
pub fn total(s: Settings, n: Counters, floats: &[f64]) -> u64
    requires { Floats s n (length floats.now) × EntriesCount s n floats.now }
    ensures { AnyLinks s n floats.now (λ t. result ≡ total_of t.entries) }
{
    let mut rows = 0;
    for e in 0..n.entries {
        rows += rows_of(entries::weight(s, n, floats, e));
    }
    rows
}

// What node i's list weighs, summed from the first to the last.
fn weight_listed(s: Settings, n: Counters, floats: &[f64], links: &[u32], i: usize) -> f64
    requires { Weighable s n floats.now links.now × (i < n.nodes) }
    ensures { result ≡ weight_listed (tree_of s n floats.now links.now) i }
{
    let leaf = links::is_leaf(s, n, links, i);
    let mut sum = 0.0;
    for c in links::list(s, n, links, i) {
        sum = sum + children::weight(s, n, floats, leaf, *c as usize);
    }
    sum
}

// Whether node i weighs what its list weighs.
#[tactic(auto, unfolding(crate::specs::Adding::adds_up))]
fn adds_up(s: Settings, n: Counters, floats: &[f64], links: &[u32], i: usize) -> bool
    requires { Weighable s n floats.now links.now × (i < n.nodes) }
    ensures { result ≡ adds_up (tree_of s n floats.now links.now) i }
{
    weight_listed(s, n, floats, links, i) == nodes::weight(s, n, floats, i)
}

// Whether every node weighs what its list weighs.
fn nodes_add_up(s: Settings, n: Counters, floats: &[f64], links: &[u32]) -> bool
    requires { Weighable s n floats.now links.now }
    ensures { result ≡ nodes_add_up (tree_of s n floats.now links.now) }
{
    lists::every_below(n.nodes, |i| adds_up(s, n, floats, links, i))
}

// Whether the root weighs 0; −0.0 counts as 0.
fn weighs_nothing(s: Settings, n: Counters, floats: &[f64]) -> bool
    requires { Floats s n (length floats.now) × (n.root < n.nodes) }
    ensures { AnyLinks s n floats.now (λ t. result ≡ weighs_nothing t) }
{
    0.0 == nodes::weight(s, n, floats, n.root)
}

// Condition 7: entry weights are whole, 1 to 2^53; each node's weight is the sum of those beneath it; the total is at most 2^53.
pub fn summed(s: Settings, n: Counters, floats: &[f64], links: &[u32]) -> bool
    requires { Floats s n (length floats.now) × Links s n (length links.now) × ListsFit s n links.now × (n.root < n.nodes) }
    ensures { result ≡ summed (tree_of s n floats.now links.now) }
{
    if !entries_count(s, n, floats) || total(s, n, floats) > Head::MOST_ROWS {
        return false;
    }
    if n.entries == 0 {
        weighs_nothing(s, n, floats)
    } else {
        nodes_add_up(s, n, floats, links)
    }
}
