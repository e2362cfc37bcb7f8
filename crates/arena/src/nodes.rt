// The summaries of the tree's nodes, said of the tree that the slices hold.
ghost use Rattle.std.specs.Prelude.{◌≡◌, ◌+◌, ◌≤◌, ◌<◌, length};
ghost use Rattle.feature.specs.Shape.{Shaped};
ghost use Rattle.distance.specs.Distances.{point_of, between_of};
ghost use Rattle.head.specs.Sizes.{node_cap, block_width};
ghost use Rattle.head.specs.Counting.{count_nodes};
ghost use Rattle.rules.specs.Tree.{push, merge, node_at, summed};
ghost use Rattle.rules.specs.Slices.{summary_in, tree_of};
ghost use Rattle.stretch.specs.Blocks.{ParentFits, node_of};
ghost use Rattle.stretch.specs.Slots.{Slot};
ghost use Rattle.arena.specs.Trees.{AnyLinks, FloatsTo, Floats, Links, on_node, with_node};

use crate::{links, slots};
use distance::Distance;
use feature::Summary;
use head::{Counters, Settings};

// The summary of node i.
pub fn summary(s: Settings, n: Counters, floats: &[f64], i: usize) -> Summary
    requires { Floats s n (length floats.now) × (i < n.nodes) }
    ensures { AnyLinks s n floats.now (λ t. result ≡ (node_at t i).summary) }
{
    slots::load(s, floats, i)
}

// The weight of node i.
pub fn weight(s: Settings, n: Counters, floats: &[f64], i: usize) -> f64
    requires { Floats s n (length floats.now) × (i < n.nodes) }
    ensures { AnyLinks s n floats.now (λ t. result ≡ (node_at t i).summary.weight) }
{
    slots::weight(s, floats, i)
}

// The distance k from node i to a row.
pub fn to_row(s: Settings, n: Counters, floats: &[f64], i: usize, k: Distance, row: &[f64]) -> f64
    requires { Floats s n (length floats.now) × (i < n.nodes) × (s.dim ≤ length row.now) }
    ensures { AnyLinks s n floats.now (λ t. result ≡ point_of k s.feature s.dim (node_at t i).summary row.now) }
{
    slots::to_row(s, floats, i, k, row)
}

// The distance k between node i and the summary in another slot.
pub fn to_slot(s: Settings, n: Counters, floats: &[f64], i: usize, k: Distance, o: &[f64]) -> f64
    requires { Floats s n (length floats.now) × (i < n.nodes) × Slot s o.now }
    ensures { AnyLinks s n floats.now (λ t. result ≡ between_of k s.feature s.dim (node_at t i).summary (summary_in s o.now)) }
{
    slots::to_slot(s, floats, i, k, o)
}

// The distance k between node i and a summary.
pub fn to_summary(
    s: Settings,
    n: Counters,
    floats: &[f64],
    i: usize,
    k: Distance,
    c: Summary,
) -> f64
    requires { Floats s n (length floats.now) × (i < n.nodes) }
    ensures { AnyLinks s n floats.now (λ t. result ≡ between_of k s.feature s.dim (node_at t i).summary c) }
{
    slots::to_summary(s, floats, i, k, c)
}

// The summary c becomes node i's.
pub fn put(s: Settings, n: Counters, floats: &mut [f64], i: usize, c: Summary)
    requires { Floats s n (length floats.old) × (i < n.nodes) × Shaped s.feature s.dim c }
    ensures { FloatsTo s n floats.old n floats.new (on_node (summed (λ _. c)) i) }
{
    slots::store(s, floats, i, c);
}

// A row, pushed into node i.
pub fn push(s: Settings, n: Counters, floats: &mut [f64], i: usize, row: &[f64])
    requires { Floats s n (length floats.old) × (i < n.nodes) × (s.dim ≤ length row.now) }
    ensures { FloatsTo s n floats.old n floats.new (on_node (summed (push s row.now)) i) }
{
    slots::push(s, floats, i, row);
}

// The summary c, merged into node i.
pub fn merge(s: Settings, n: Counters, floats: &mut [f64], i: usize, c: Summary)
    requires { Floats s n (length floats.old) × (i < n.nodes) × Shaped s.feature s.dim c }
    ensures { FloatsTo s n floats.old n floats.new (on_node (summed (λ x. merge s x c)) i) }
{
    slots::merge(s, floats, i, c);
}

// A node more, last in number: the summary c, a parent, a kind and a list.
pub fn append(
    s: Settings,
    n: Counters,
    floats: &mut [f64],
    links: &mut [u32],
    c: Summary,
    parent: Option<usize>,
    leaf: bool,
    list: &[u32],
) -> Counters
    requires floats { Floats s n (length floats.old) × Links s n (length links.old) × (n.nodes < node_cap s) × Shaped s.feature s.dim c }
    requires parent_fits { ParentFits parent × (length list.now + 2 ≤ block_width s) }
    ensures value { result ≡ count_nodes (n.nodes + 1) n }
    ensures links_after { tree_of s result floats.new links.new
        ≡ with_node (node_of c parent leaf list.now) (tree_of s n floats.old links.old) }
{
    let i = n.nodes;
    slots::store(s, floats, i, c);
    links::link(s, links, i, parent, leaf, list);
    n.with_nodes(i + 1)
}
