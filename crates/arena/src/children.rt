// What a number of a list names, an entry in a leaf and a node elsewhere, said of the tree that the slices hold.
ghost use Rattle.std.specs.Prelude.{◌≡◌, ◌≤◌, length};
ghost use Rattle.distance.specs.Distances.{between_of};
ghost use Rattle.head.specs.Limits.{Sized};
ghost use Rattle.rules.specs.Tree.{child};
ghost use Rattle.arena.specs.Trees.{AnyLinks, Floats, ChildIn, child_slot};

use crate::slots;
use distance::Distance;
use feature::Summary;
use head::{Counters, Settings};

// The slot of a child.
fn place(s: Settings, leaf: bool, i: usize) -> usize
    requires { Sized s × (i ≤ 65536) }
    ensures { result ≡ child_slot s leaf i }
{
    if leaf { s.node_cap() + i } else { i }
}

// The summary of a child.
pub fn summary(s: Settings, n: Counters, floats: &[f64], leaf: bool, i: usize) -> Summary
    requires { Floats s n (length floats.now) × ChildIn n leaf i }
    ensures { AnyLinks s n floats.now (λ t. result ≡ child t leaf i) }
{
    let at = place(s, leaf, i);
    slots::load(s, floats, at)
}

// The weight of a child.
pub fn weight(s: Settings, n: Counters, floats: &[f64], leaf: bool, i: usize) -> f64
    requires { Floats s n (length floats.now) × ChildIn n leaf i }
    ensures { AnyLinks s n floats.now (λ t. result ≡ (child t leaf i).weight) }
{
    let at = place(s, leaf, i);
    slots::weight(s, floats, at)
}

// The distance k between two children of one list.
pub fn between(
    s: Settings,
    n: Counters,
    floats: &[f64],
    leaf: bool,
    i: usize,
    j: usize,
    k: Distance,
) -> f64
    requires { Floats s n (length floats.now) × ChildIn n leaf i × ChildIn n leaf j }
    ensures { AnyLinks s n floats.now (λ t. result ≡ between_of k s.feature s.dim (child t leaf i) (child t leaf j)) }
{
    let a = place(s, leaf, i);
    let b = place(s, leaf, j);
    slots::between(s, floats, a, b, k)
}
