// Partners among the entries beneath some leaves: those under one node, or one leaf alone.
ghost use Rattle.std.specs.Prelude.{◌≡◌, true, ◌++◌, ◌+◌, ◌≤◌, ◌<◌, length, None};
ghost use Rattle.rules.specs.Slices.{tree_of};
ghost use Rattle.rules.specs.Pairs.{cost_of, partner, partners, beneath};
ghost use Rattle.arena.specs.Trees.{Floats, Links, ChildrenIn};
ghost use Rattle.scratch.specs.Stored.{Room, pairs_in};
ghost use Rattle.pairs.specs.Partners.{partner_of, Inside};
ghost use Rattle.pairs.specs.Groups.{Leaves};

use crate::partner;
use crate::partner::Partner;
use arena::links;
use head::{Counters, Settings};

// The partner of entry i beneath the leaves of a list.
fn cheapest_beneath(
    s: Settings,
    n: Counters,
    floats: &[f64],
    links: &[u32],
    leaves: &[u32],
    i: usize,
) -> Option<Partner>
    requires floats { Floats s n (length floats.now) × Links s n (length links.now) × (i < n.entries) }
    requires leaves { Leaves n (tree_of s n floats.now links.now) leaves.now }
    ensures result_value { partner_of result
        ≡ partner (cost_of s (tree_of s n floats.now links.now) i) i None
        (beneath (tree_of s n floats.now links.now) leaves.now) }
    ensures inside { Inside n.entries (partner_of result) }
{
    let mut best = None;
    for &leaf in leaves {
        let list = links::list(s, n, links, leaf as usize);
        best = partner::cheapest(s, n, floats, list, i, best);
    }
    best
}

// Each entry of one leaf with its partner beneath all of them, behind so many pairs; says how many there are then.
fn push_leaf(
    s: Settings,
    n: Counters,
    floats: &[f64],
    links: &[u32],
    leaves: &[u32],
    list: &[u32],
    costs: &mut [f64],
    numbers: &mut [u32],
    count: usize,
) -> usize
    requires floats { Floats s n (length floats.now) × Links s n (length links.now) × Leaves n (tree_of s n floats.now links.now) leaves.now }
    requires children_in { ChildrenIn n true list.now × Room (count + length list.now) (length costs.old) (length numbers.old) }
    ensures result_after { pairs_in costs.new numbers.new result
        ≡ pairs_in costs.old numbers.old count
        ++ partners s (tree_of s n floats.now links.now)
        (beneath (tree_of s n floats.now links.now) leaves.now) list.now }
    ensures upper_bound { result ≤ count + length list.now }
{
    let mut m = count;
    for &i in list {
        let i = i as usize;
        let p = cheapest_beneath(s, n, floats, links, leaves, i);
        m = partner::push(costs, numbers, m, i, p);
    }
    m
}

// Each entry beneath the leaves of a list with its partner there, behind so many pairs; says how many there are then.
pub fn push_leaves(
    s: Settings,
    n: Counters,
    floats: &[f64],
    links: &[u32],
    leaves: &[u32],
    costs: &mut [f64],
    numbers: &mut [u32],
    count: usize,
) -> usize
    requires floats { Floats s n (length floats.now) × Links s n (length links.now) × Leaves n (tree_of s n floats.now links.now) leaves.now }
    requires room { Room (count + length (beneath (tree_of s n floats.now links.now) leaves.now)) (length costs.old) (length numbers.old) }
    ensures result_after { pairs_in costs.new numbers.new result
        ≡ pairs_in costs.old numbers.old count
        ++ partners s (tree_of s n floats.now links.now)
        (beneath (tree_of s n floats.now links.now) leaves.now)
        (beneath (tree_of s n floats.now links.now) leaves.now) }
    ensures upper_bound { result ≤ count + length (beneath (tree_of s n floats.now links.now) leaves.now) }
{
    let mut m = count;
    for &leaf in leaves {
        let list = links::list(s, n, links, leaf as usize);
        m = push_leaf(s, n, floats, links, leaves, list, costs, numbers, m);
    }
    m
}
