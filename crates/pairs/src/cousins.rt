// Pairs among the entries of all leaves under one node.
ghost use Rattle.std.specs.Prelude.{◌≡◌, false, ◌++◌, ◌+◌, ◌≤◌, ◌<◌, length};
ghost use Rattle.head.specs.Sizes.{entry_cap};
ghost use Rattle.rules.specs.Slices.{tree_of};
ghost use Rattle.rules.specs.Pairs.{all_leaves, cousins};
ghost use Rattle.laws.specs.ForCode.{Framed};
ghost use Rattle.arena.specs.Trees.{AnyFloats, Floats, Links, ChildrenIn};
ghost use Rattle.scratch.specs.Stored.{Room, pairs_in};
ghost use Rattle.pairs.specs.Groups.{cousins_at};
ghost use Rattle.pairs.specs.Rooms.{listed_under};

use crate::groups;
use arena::links;
use head::{Counters, Settings};

// Whether all nodes of a list are leaves.
fn all_leaves(s: Settings, n: Counters, links: &[u32], list: &[u32]) -> bool
    requires { Links s n (length links.now) × ChildrenIn n false list.now }
    ensures { AnyFloats s n links.now (λ t. result ≡ all_leaves t list.now) }
{
    list.iter()
        .all(|&i| links::is_leaf(s, n, links, i as usize))
}

// The pairs of node i, if all under it are leaves, behind so many pairs; says how many there are then.
fn push_cousins(
    s: Settings,
    n: Counters,
    floats: &[f64],
    links: &[u32],
    i: usize,
    costs: &mut [f64],
    numbers: &mut [u32],
    count: usize,
) -> usize
    requires floats { Floats s n (length floats.now) × Links s n (length links.now) × Framed (tree_of s n floats.now links.now) × (i < n.nodes) }
    requires room { Room (count + listed_under (tree_of s n floats.now links.now) i) (length costs.old) (length numbers.old) }
    ensures result_after { pairs_in costs.new numbers.new result
        ≡ pairs_in costs.old numbers.old count ++ cousins_at s (tree_of s n floats.now links.now) i }
    ensures upper_bound { result ≤ count + listed_under (tree_of s n floats.now links.now) i }
{
    if links::is_leaf(s, n, links, i) {
        return count;
    }
    let list = links::list(s, n, links, i);
    if all_leaves(s, n, links, list) {
        return groups::push_leaves(s, n, floats, links, list, costs, numbers, count);
    }
    count
}

// The pairs of all nodes with nothing but leaves under them, by node number; says how many.
// Not one function with sibling_pairs: a closure that pushes into both slices would have a contract longer than the loop.
pub fn cousin_pairs(
    s: Settings,
    n: Counters,
    floats: &[f64],
    links: &[u32],
    costs: &mut [f64],
    numbers: &mut [u32],
) -> usize
    requires floats { Floats s n (length floats.now) × Links s n (length links.now) × Framed (tree_of s n floats.now links.now) }
    requires room { Room (entry_cap s) (length costs.old) (length numbers.old) }
    ensures result_after { pairs_in costs.new numbers.new result
        ≡ cousins s (tree_of s n floats.now links.now) (tree_of s n floats.now links.now).nodes }
    ensures upper_bound { result ≤ entry_cap s }
{
    let mut count = 0;
    for i in 0..n.nodes {
        count = push_cousins(s, n, floats, links, i, costs, numbers, count);
    }
    count
}
