// Conditions 3 and 5: what the lists hold, and that none is empty.
#![tactic(auto)]

pub mod rooted;

ghost use Rattle.std.specs.Prelude.{◌≡◌, ℕ, Bool, ◌==◌, ◌&&◌, ◌||◌, ◌<◌, ltb, length};
ghost use Rattle.rules.specs.Lists.{every, up_from};
ghost use Rattle.rules.specs.Tree.{node_at, cap};
ghost use Rattle.rules.specs.Check.{known, list_fits, lone_root, filled};
ghost use Rattle.arena.specs.Trees.{AnyFloats, Links};

use arena::links;
use head::{Counters, Settings};

// The most that a list holds.
#[tactic(auto, unfolding(rules::specs::Tree::cap))]
fn cap(s: Settings, leaf: bool) -> usize
    ensures { result ≡ cap s leaf }
{
    if leaf { s.leaf_cap } else { s.branching }
}

// How many a list has to choose from: the entries in a leaf, the nodes elsewhere.
fn known(s: Settings, n: Counters, links: &[u32], leaf: bool) -> usize
    ensures { AnyFloats s n links.now (λ t. result ≡ known t leaf) }
{
    if leaf { n.entries } else { n.nodes }
}

// Whether every number of node i's list is below a bound.
fn below(s: Settings, n: Counters, links: &[u32], i: usize, bound: usize) -> bool
    requires { Links s n (length links.now) × (i < n.nodes) }
    ensures { AnyFloats s n links.now (λ t. result ≡ every (λ c. ltb c bound) (node_at t i).list) }
{
    links::list(s, n, links, i)
        .iter()
        .all(|c| (*c as usize) < bound)
}

// Whether a test holds of every number below n.
pub fn every_below<F: Fn(usize) -> bool>(n: usize, test: F) -> bool
    requires { (k : ℕ) → k < n → F.pre test k }
    ensures { (f : ℕ → Bool) → ((k : ℕ) (b : Bool) → k < n → F.post test k b → b ≡ f k) → result ≡ every f (up_from n 0) }
{
    for k in 0..n {
        if !test(k) {
            return false;
        }
    }
    true
}

// Whether node i's list is within its cap and names what is there.
fn list_fits(s: Settings, n: Counters, links: &[u32], i: usize) -> bool
    requires { Links s n (length links.now) × (i < n.nodes) }
    ensures { AnyFloats s n links.now (λ t. result ≡ list_fits s t (node_at t i)) }
{
    let leaf = links::is_leaf(s, n, links, i);
    links::list_len(s, n, links, i) <= cap(s, leaf)
        && below(s, n, links, i, known(s, n, links, leaf))
}

// Condition 3: no list is over its cap; every child number exists.
pub fn lists_fit(s: Settings, n: Counters, links: &[u32]) -> bool
    requires { Links s n (length links.now) }
    ensures { AnyFloats s n links.now (λ t. result ≡ every (list_fits s t) t.nodes) }
{
    every_below(n.nodes, |i| list_fits(s, n, links, i))
}

// Whether there is one node and no entry.
fn lone_root(n: Counters) -> bool
    ensures { result ≡ (n.nodes == 1) && (n.entries == 0) }
{
    n.nodes == 1 && n.entries == 0
}

// Whether node i lists something, or is a lone root leaf with no entries.
fn list_filled(s: Settings, n: Counters, links: &[u32], i: usize) -> bool
    requires { Links s n (length links.now) × (i < n.nodes) }
    ensures { AnyFloats s n links.now (λ t. result ≡ ltb 0 (length (node_at t i).list) || ((node_at t i).leaf && lone_root t)) }
{
    links::list_len(s, n, links, i) > 0 || (links::is_leaf(s, n, links, i) && lone_root(n))
}

// Condition 5: no list is empty, but for a lone root leaf with no entries.
pub fn filled(s: Settings, n: Counters, links: &[u32]) -> bool
    requires { Links s n (length links.now) }
    ensures { AnyFloats s n links.now (λ t. result ≡ filled t) }
{
    every_below(n.nodes, |i| list_filled(s, n, links, i))
}
