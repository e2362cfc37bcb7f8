// Condition 4, the entries: every entry is in one leaf list, once.
#![tactic(auto)]

ghost use Rattle.std.specs.Prelude.{◌≡◌, ◌+◌, ◌≤◌, ◌<◌, length};
ghost use Rattle.rules.specs.Lists.{occurs};
ghost use Rattle.rules.specs.Tree.{node_at};
ghost use Rattle.rules.specs.Check.{leaf_lists, once_each};
ghost use Rattle.arena.specs.Trees.{AnyFloats, Links};
ghost use Rattle.lists.specs.Lent.{ListsFit, Leaf, leaf_list};
ghost use Rattle.once.specs.Once.{none_twice};
ghost use Rattle.seen.specs.Sets.{Marked, times};

use arena::links;
use head::{Counters, Settings};
use seen::Seen;

// How many entries node i lists.
#[tactic(auto, unfolding(lists::specs::Lent::leaf_list))]
fn leaf_len(s: Settings, n: Counters, links: &[u32], i: usize) -> usize
    requires { Links s n (length links.now) × (i < n.nodes) }
    ensures { AnyFloats s n links.now (λ t. result ≡ length (leaf_list (node_at t i))) }
{
    if links::is_leaf(s, n, links, i) {
        links::list_len(s, n, links, i)
    } else {
        0
    }
}

// How long the leaf lists are together.
fn leaves_len(s: Settings, n: Counters, links: &[u32]) -> usize
    requires { Links s n (length links.now) }
    ensures { AnyFloats s n links.now (λ t. result ≡ length (leaf_lists t.nodes)) }
{
    let mut sum = 0;
    for i in 0..n.nodes {
        sum += leaf_len(s, n, links, i);
    }
    sum
}

// The set with the list of leaf i in it, or that a number is there twice.
fn list_marks(s: Settings, n: Counters, links: &[u32], i: usize, seen: Seen) -> Option<Seen>
    requires { Links s n (length links.now) × ListsFit s n links.now × (n.entries ≤ 256) × (i < n.nodes) × Leaf s n links.now i }
    ensures { AnyFloats s n links.now (λ t. Marked result (λ c. times seen c + occurs c (node_at t i).list)) }
{
    let mut set = seen;
    for e in links::list(s, n, links, i) {
        let entry = *e as usize;
        if set.has(entry) {
            return None;
        }
        set = set.add(entry);
    }
    Some(set)
}

// The set with the entries that node i lists in it, or that one is there twice.
fn leaf_marks(s: Settings, n: Counters, links: &[u32], i: usize, seen: Seen) -> Option<Seen>
    requires { Links s n (length links.now) × ListsFit s n links.now × (n.entries ≤ 256) × (i < n.nodes) }
    ensures { AnyFloats s n links.now (λ t. Marked result (λ c. times seen c + occurs c (leaf_list (node_at t i)))) }
{
    if links::is_leaf(s, n, links, i) {
        list_marks(s, n, links, i, seen)
    } else {
        Some(seen)
    }
}

// Whether no entry stands twice in the leaf lists.
fn none_twice(s: Settings, n: Counters, links: &[u32]) -> bool
    requires { Links s n (length links.now) × ListsFit s n links.now × (n.entries ≤ 256) }
    ensures { AnyFloats s n links.now (λ t. result ≡ none_twice n.entries (leaf_lists t.nodes)) }
{
    let mut seen = Seen::new();
    for i in 0..n.nodes {
        let Some(more) = leaf_marks(s, n, links, i, seen) else {
            return false;
        };
        seen = more;
    }
    true
}

// Whether each entry stands once in the leaf lists, and no other number.
pub fn once_each(s: Settings, n: Counters, links: &[u32]) -> bool
    requires { Links s n (length links.now) × ListsFit s n links.now × (n.entries ≤ 256) }
    ensures { AnyFloats s n links.now (λ t. result ≡ once_each (length t.entries) (leaf_lists t.nodes)) }
{
    leaves_len(s, n, links) == n.entries && none_twice(s, n, links)
}
