// The split of a node that is over its cap, and its way up to a new root.
#![tactic(auto)]

pub mod gather;
pub mod groups;
pub mod part;

ghost use Rattle.std.specs.Prelude.{◌≡◌, false, ◌+◌, ◌<◌, length};
ghost use Rattle.head.specs.Sizes.{node_cap};
ghost use Rattle.head.specs.Counting.{count_nodes, root_at};
ghost use Rattle.rules.specs.Slices.{tree_of};
ghost use Rattle.rules.specs.Split.{fitting, split, crowned, split_from};
ghost use Rattle.arena.specs.Trees.{AnyFloats, Floats, Links};
ghost use Rattle.split.specs.Rising.{Splits, Rising};

use crate::gather::gather;
use crate::groups::groups;
use crate::part::{adopt, part};
use arena::{links, nodes};
use head::{Counters, Settings};

// Node i becomes two: it keeps the first half of its list, the second is a new node under the same parent.
pub fn split(s: Settings, n: Counters, floats: &mut [f64], links: &mut [u32], i: usize) -> Counters
    requires floats { Floats s n (length floats.old) × Links s n (length links.old) × (i < n.nodes) × (n.nodes < node_cap s) }
    requires splits { Splits s n (tree_of s n floats.old links.old) i }
    ensures value { result ≡ count_nodes (n.nodes + 1) n }
    ensures links_after { tree_of s result floats.new links.new ≡ split s i (tree_of s n floats.old links.old) }
{
    let leaf = links::is_leaf(s, n, links, i);
    let h = groups(s, n, floats, links, i);
    let r = part(s, n, floats, links, i, h);
    if leaf {
        return r;
    }
    let two = h.two;
    adopt(s, r, links, &two[..h.twos], n.nodes);
    r
}

// Whether node i's list is within its cap.
pub fn fits(s: Settings, n: Counters, links: &[u32], i: usize) -> bool
    requires { Links s n (length links.now) × (i < n.nodes) }
    ensures { AnyFloats s n links.now (λ t. result ≡ fitting s t i) }
{
    let len = links::list_len(s, n, links, i);
    if links::is_leaf(s, n, links, i) {
        len <= s.leaf_cap
    } else {
        len <= s.branching
    }
}

// A new root over nodes i and j.
pub fn crown(
    s: Settings,
    n: Counters,
    floats: &mut [f64],
    links: &mut [u32],
    i: usize,
    j: usize,
) -> Counters
    requires { Floats s n (length floats.old) × Links s n (length links.old) × (i < n.nodes) × (j < n.nodes) × (n.nodes < node_cap s) }
    ensures value { result ≡ root_at n.nodes (count_nodes (n.nodes + 1) n) }
    ensures links_after { tree_of s result floats.new links.new ≡ crowned s i j (tree_of s n floats.old links.old) }
{
    let top = n.nodes;
    let pair = [i as u32, j as u32];
    let c = gather(s, n, floats, false, &pair);
    links::set_parent(s, n, links, i, top);
    links::set_parent(s, n, links, j, top);
    let r = nodes::append(s, n, floats, links, c, None, false, &pair);
    r.with_root(top)
}

// Nodes over their caps split, from node i up; over a root that splits there is a new one.
pub fn split_up(
    s: Settings,
    n: Counters,
    floats: &mut [f64],
    links: &mut [u32],
    i: usize,
) -> Counters
    requires floats { Floats s n (length floats.old) × Links s n (length links.old) }
    requires rising { Rising s n.nodes n i (tree_of s n floats.old links.old) }
    ensures floats_2 { Floats s result (length floats.old) × Links s result (length links.old) }
    ensures links_after { tree_of s result floats.new links.new ≡ split_from s i (tree_of s n floats.old links.old) }
{
    let mut m = n;
    let mut at = i;
    for _ in 0..n.nodes {
        if fits(s, m, links, at) {
            return m;
        }
        let j = m.nodes;
        let above = links::parent(s, m, links, at);
        m = split(s, m, floats, links, at);
        let Some(p) = above else {
            return crown(s, m, floats, links, at, j);
        };
        links::append(s, m, links, p, j);
        at = p;
    }
    m
}
