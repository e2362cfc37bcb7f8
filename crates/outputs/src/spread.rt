// The spread: squared deviation over weight, dim numbers an entry; Spherical also divides by dim, and its number is repeated.
ghost use Rattle.std.specs.Prelude.{◌≡◌, map, ◌*◌, ◌≤◌, ◌<◌, length};
ghost use Rattle.head.specs.Limits.{Sized};
ghost use Rattle.feature.specs.Shape.{Shaped};
ghost use Rattle.kernels.specs.Channels.{at};
ghost use Rattle.rules.specs.Lists.{concat};
ghost use Rattle.rules.specs.Tree.{entry_at};
ghost use Rattle.rules.specs.Calls.{fronted};
ghost use Rattle.arena.specs.Trees.{AnyLinks, Floats};
ghost use Rattle.rules.specs.Spread.{spread_of};

use arena::entries;
use feature::{Feature, Summary};
use head::{Counters, Settings};

// Number k of a summary's spread.
fn spread_at(s: Settings, e: Summary, k: usize) -> f64
    requires { Sized s × Shaped s.feature s.dim e × (k < s.dim) }
    ensures { result ≡ at (spread_of s.feature s.dim e) k }
{
    let feature = s.feature;
    match feature {
        Feature::Spherical => e.deviation[0] / e.weight / s.dim as f64,
        Feature::Diagonal => e.deviation[k] / e.weight,
    }
}

// The spread of entry i to dim numbers.
fn write_one(s: Settings, n: Counters, floats: &[f64], i: usize, out: &mut [f64])
    requires { Floats s n (length floats.now) × (i < n.entries) × (length out.old ≡ s.dim) }
    ensures { AnyLinks s n floats.now (λ t. out.new ≡ spread_of s.feature s.dim (entry_at t i)) }
{
    let e = entries::summary(s, n, floats, i);
    for (k, o) in out.iter_mut().enumerate() {
        *o = spread_at(s, e, k);
    }
}

// The spread of every entry, in order.
pub fn write_spread(s: Settings, n: Counters, floats: &[f64], out: &mut [f64])
    requires { Floats s n (length floats.now) × (n.entries * s.dim ≤ length out.old) }
    ensures { AnyLinks s n floats.now (λ t.
        out.new ≡ fronted (concat (map (spread_of s.feature s.dim) t.entries)) out.old) }
{
    // by places: after `chunks_exact_mut` a proof knows the output's length, and not its numbers
    for i in 0..n.entries {
        let at = i * s.dim;
        write_one(s, n, floats, i, &mut out[at..at + s.dim]);
    }
}
