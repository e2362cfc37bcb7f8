// Pairs within leaves.
ghost use Rattle.std.specs.Prelude.{◌≡◌, ◌++◌, ◌+◌, ◌≤◌, ◌<◌, length};
ghost use Rattle.head.specs.Sizes.{entry_cap};
ghost use Rattle.rules.specs.Slices.{tree_of};
ghost use Rattle.rules.specs.Pairs.{siblings};
ghost use Rattle.laws.specs.ForCode.{Framed};
ghost use Rattle.arena.specs.Trees.{Floats, Links};
ghost use Rattle.scratch.specs.Stored.{Room, pairs_in};
ghost use Rattle.pairs.specs.Groups.{siblings_at};
ghost use Rattle.pairs.specs.Rooms.{listed};

use crate::groups;
use arena::links;
use head::{Counters, Settings};

// The pairs of node i, if it is a leaf with two entries or more, behind so many pairs; says how many there are then.
fn push_siblings(
    s: Settings,
    n: Counters,
    floats: &[f64],
    links: &[u32],
    i: usize,
    costs: &mut [f64],
    numbers: &mut [u32],
    count: usize,
) -> usize
    requires floats { Floats s n (length floats.now) × Links s n (length links.now) × Framed (tree_of s n floats.now links.now) × (i < n.nodes) }
    requires room { Room (count + listed (tree_of s n floats.now links.now) i) (length costs.old) (length numbers.old) }
    ensures result_after { pairs_in costs.new numbers.new result
        ≡ pairs_in costs.old numbers.old count ++ siblings_at s (tree_of s n floats.now links.now) i }
    ensures upper_bound { result ≤ count + listed (tree_of s n floats.now links.now) i }
{
    if !links::is_leaf(s, n, links, i) {
        return count;
    }
    if links::list(s, n, links, i).len() < 2 {
        return count;
    }
    let alone = [i as u32];
    groups::push_leaves(s, n, floats, links, &alone, costs, numbers, count)
}

// The pairs of all leaves with two entries or more, by node number; says how many.
pub fn sibling_pairs(
    s: Settings,
    n: Counters,
    floats: &[f64],
    links: &[u32],
    costs: &mut [f64],
    numbers: &mut [u32],
) -> usize
    requires floats { Floats s n (length floats.now) × Links s n (length links.now) × Framed (tree_of s n floats.now links.now) }
    requires room { Room (entry_cap s) (length costs.old) (length numbers.old) }
    ensures result_after { pairs_in costs.new numbers.new result
        ≡ siblings s (tree_of s n floats.now links.now) (tree_of s n floats.now links.now).nodes }
    ensures upper_bound { result ≤ entry_cap s }
{
    let mut count = 0;
    for i in 0..n.nodes {
        count = push_siblings(s, n, floats, links, i, costs, numbers, count);
    }
    count
}
