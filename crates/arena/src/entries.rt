// The tree's entries, said of the tree that the slices hold.
ghost use Rattle.std.specs.Prelude.{◌≡◌, ◌+◌, ◌≤◌, ◌<◌, length};
ghost use Rattle.feature.specs.Shape.{Shaped};
ghost use Rattle.distance.specs.Distances.{point_of, between_of, merge_cost};
ghost use Rattle.head.specs.Limits.{Sized};
ghost use Rattle.head.specs.Sizes.{node_cap, entry_cap};
ghost use Rattle.head.specs.Counting.{count_entries};
ghost use Rattle.rules.specs.Tree.{push, merge, entry_at};
ghost use Rattle.arena.specs.Trees.{AnyLinks, FloatsTo, Floats, on_entry, with_entry};

use crate::slots;
use distance::Distance;
use feature::Summary;
use head::{Counters, Settings};

// The slot of entry i, behind those of the nodes.
#[tactic(auto, using(head::specs::Sizes::nodes_small, head::specs::Sizes::entries_small))]
fn place(s: Settings, i: usize) -> usize
    requires { Sized s × (i ≤ entry_cap s) }
    ensures { result ≡ node_cap s + i }
{
    s.node_cap() + i
}

// Entry i.
#[tactic(auto, using(crate::specs::Trees::entry_at_lem))]
pub fn summary(s: Settings, n: Counters, floats: &[f64], i: usize) -> Summary
    requires { Floats s n (length floats.now) × (i < n.entries) }
    ensures { AnyLinks s n floats.now (λ t. result ≡ entry_at t i) }
{
    slots::load(s, floats, place(s, i))
}

// The weight of entry i.
#[tactic(auto, using(crate::specs::Trees::entry_at_lem))]
pub fn weight(s: Settings, n: Counters, floats: &[f64], i: usize) -> f64
    requires { Floats s n (length floats.now) × (i < n.entries) }
    ensures { AnyLinks s n floats.now (λ t. result ≡ (entry_at t i).weight) }
{
    slots::weight(s, floats, place(s, i))
}

// The distance k from entry i to a row.
#[tactic(auto, using(crate::specs::Trees::entry_at_lem))]
pub fn to_row(s: Settings, n: Counters, floats: &[f64], i: usize, k: Distance, row: &[f64]) -> f64
    requires { Floats s n (length floats.now) × (i < n.entries) × (s.dim ≤ length row.now) }
    ensures { AnyLinks s n floats.now (λ t. result ≡ point_of k s.feature s.dim (entry_at t i) row.now) }
{
    slots::to_row(s, floats, place(s, i), k, row)
}

// The distance k between entry i and a summary.
#[tactic(auto, using(crate::specs::Trees::entry_at_lem))]
pub fn to_summary(
    s: Settings,
    n: Counters,
    floats: &[f64],
    i: usize,
    k: Distance,
    c: Summary,
) -> f64
    requires { Floats s n (length floats.now) × (i < n.entries) }
    ensures { AnyLinks s n floats.now (λ t. result ≡ between_of k s.feature s.dim (entry_at t i) c) }
{
    slots::to_summary(s, floats, place(s, i), k, c)
}

// The distance k between entries i and j.
#[tactic(auto, using(crate::specs::Trees::entry_at_lem))]
pub fn between(s: Settings, n: Counters, floats: &[f64], i: usize, j: usize, k: Distance) -> f64
    requires { Floats s n (length floats.now) × (i < n.entries) × (j < n.entries) }
    ensures { AnyLinks s n floats.now (λ t. result ≡ between_of k s.feature s.dim (entry_at t i) (entry_at t j)) }
{
    slots::between(s, floats, place(s, i), place(s, j), k)
}

// What merging entries i and j costs a rebuild.
pub fn merge_cost(s: Settings, n: Counters, floats: &[f64], i: usize, j: usize) -> f64
    requires { Floats s n (length floats.now) × (i < n.entries) × (j < n.entries) }
    ensures { AnyLinks s n floats.now (λ t. result ≡ merge_cost s.dim (entry_at t i) (entry_at t j)) }
{
    between(s, n, floats, i, j, Distance::VarianceIncrease)
}

// The summary c becomes entry i.
pub fn put(s: Settings, n: Counters, floats: &mut [f64], i: usize, c: Summary)
    requires { Floats s n (length floats.old) × (i < n.entries) × Shaped s.feature s.dim c }
    ensures { FloatsTo s n floats.old n floats.new (on_entry (λ _. c) i) }
{
    slots::store(s, floats, place(s, i), c);
}

// A row, pushed into entry i.
pub fn push(s: Settings, n: Counters, floats: &mut [f64], i: usize, row: &[f64])
    requires { Floats s n (length floats.old) × (i < n.entries) × (s.dim ≤ length row.now) }
    ensures { FloatsTo s n floats.old n floats.new (on_entry (push s row.now) i) }
{
    slots::push(s, floats, place(s, i), row);
}

// The summary c, merged into entry i.
pub fn merge(s: Settings, n: Counters, floats: &mut [f64], i: usize, c: Summary)
    requires { Floats s n (length floats.old) × (i < n.entries) × Shaped s.feature s.dim c }
    ensures { FloatsTo s n floats.old n floats.new (on_entry (λ x. merge s x c) i) }
{
    slots::merge(s, floats, place(s, i), c);
}

// The summary c as an entry more, last in number.
pub fn append(s: Settings, n: Counters, floats: &mut [f64], c: Summary) -> Counters
    requires { Floats s n (length floats.old) × (n.entries < entry_cap s) × Shaped s.feature s.dim c }
    ensures { (result ≡ count_entries (n.entries + 1) n) × FloatsTo s n floats.old result floats.new (with_entry c) }
{
    slots::store(s, floats, place(s, n.entries), c);
    n.with_entries(n.entries + 1)
}
