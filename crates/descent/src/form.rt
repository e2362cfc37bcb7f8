// What goes into a tree: a row, or a summary in a slot of its own.
ghost use Rattle.std.specs.Prelude.{◌≡◌, ◌<◌, length};
ghost use Rattle.head.specs.Limits.{Sized};
ghost use Rattle.rules.specs.Tree.{node_at, summed};
ghost use Rattle.arena.specs.Trees.{AnyLinks, FloatsTo, Floats, on_node};
ghost use Rattle.descent.specs.Forms.{FormFits, item_of};

use arena::nodes;
use feature::Summary;
use head::{Counters, Settings};
use stretch::slot;

#[derive(Clone, Copy)]
pub enum Lent<'a> {
    Row(&'a [f64]),
    Slot(&'a [f64]),
}

// `dist` between node i and an item.
pub fn to_node(s: Settings, n: Counters, floats: &[f64], i: usize, item: Lent) -> f64
    requires { Floats s n (length floats.now) × (i < n.nodes) × FormFits s item }
    ensures { AnyLinks s n floats.now (λ t. result ≡ (item_of s item.entry).near (node_at t i).summary) }
{
    let k = s.dist;
    match item {
        Lent::Row(x) => nodes::to_row(s, n, floats, i, k, x),
        Lent::Slot(x) => nodes::to_slot(s, n, floats, i, k, x),
    }
}

// An item goes into node i: a row is pushed, a summary merged.
pub fn feed(s: Settings, n: Counters, floats: &mut [f64], i: usize, item: Lent)
    requires { Floats s n (length floats.old) × (i < n.nodes) × FormFits s item }
    ensures { FloatsTo s n floats.old n floats.new (on_node (summed (item_of s item.entry).taken) i) }
{
    match item {
        Lent::Row(x) => nodes::push(s, n, floats, i, x),
        Lent::Slot(x) => nodes::merge(s, n, floats, i, slot::load(s, x)),
    }
}

// The summary of an item alone: a row in an empty one, or the summary itself.
pub fn alone(s: Settings, item: Lent) -> Summary
    requires { Sized s × FormFits s item }
    ensures { result ≡ (item_of s item.entry).alone }
{
    let f = s.feature;
    match item {
        Lent::Row(x) => feature::push(f, s.dim, feature::empty(), x),
        Lent::Slot(x) => slot::load(s, x),
    }
}
