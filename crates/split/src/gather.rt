// The summary of a list.
ghost use Rattle.std.specs.Prelude.{◌≡◌, length};
ghost use Rattle.feature.specs.Shape.{Shaped};
ghost use Rattle.rules.specs.Split.{gathered};
ghost use Rattle.arena.specs.Trees.{AnyLinks, Floats, ChildrenIn};

use arena::children;
use feature::Summary;
use head::{Counters, Settings};

// What a list names, merged in order into an empty summary.
pub fn gather(s: Settings, n: Counters, floats: &[f64], leaf: bool, list: &[u32]) -> Summary
    requires { Floats s n (length floats.now) × ChildrenIn n leaf list.now }
    ensures any_links { AnyLinks s n floats.now (λ t. result ≡ gathered s t leaf list.now) }
    ensures shaped { Shaped s.feature s.dim result }
{
    let f = s.feature;
    let mut sum = feature::empty();
    for c in list {
        let summary = children::summary(s, n, floats, leaf, *c as usize);
        sum = feature::merge(f, s.dim, sum, summary);
    }
    sum
}
