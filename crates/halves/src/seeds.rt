// The seeds of a split: the first pair of a list with the strictly largest `dist`.
ghost use Rattle.std.specs.Prelude.{◌≡◌, map, ◌+◌, ◌<◌, ◌≤◌, length, get_or, drop};
ghost use Rattle.binary64.specs.Operators.{f0};
ghost use Rattle.rules.specs.Tree.{child};
ghost use Rattle.rules.specs.Split.{seeds, seeds_with, seeds_from};
ghost use Rattle.arena.specs.Trees.{AnyLinks, Floats, ChildrenIn};
ghost use Rattle.halves.specs.Seeds.{seeds_of, Within};

use arena::children;
use head::{Counters, Settings};

// The places of two in a list, and the distance between them.
#[derive(Clone, Copy)]
pub struct Seeds {
    pub a: usize,
    pub b: usize,
    pub most: f64,
}

// The pair w, or the first wider one that place k makes with a later place.
fn wider(
    s: Settings,
    n: Counters,
    floats: &[f64],
    leaf: bool,
    list: &[u32],
    k: usize,
    w: Seeds,
) -> Seeds
    requires { Floats s n (length floats.now) × ChildrenIn n leaf list.now × (k < length list.now) × Within (length list.now) w }
    ensures any_links { AnyLinks s n floats.now (λ t.
        seeds_of result ≡ seeds_with s k (child t leaf (get_or list.now k 0)) (k + 1)
        (map (child t leaf) (drop (k + 1) list.now)) (seeds_of w)) }
    ensures within { Within (length list.now) result }
{
    let dist = s.dist;
    let c = list[k] as usize;
    let mut a = w.a;
    let mut b = w.b;
    let mut most = w.most;
    for j in k + 1..list.len() {
        let d = children::between(s, n, floats, leaf, c, list[j] as usize, dist);
        if most < d {
            a = k;
            b = j;
            most = d;
        }
    }
    Seeds { a, b, most }
}

// The seeds of a list: places 0 and 1 if no distance is above 0.
pub fn seeds_of(s: Settings, n: Counters, floats: &[f64], leaf: bool, list: &[u32]) -> Seeds
    requires { Floats s n (length floats.now) × ChildrenIn n leaf list.now × (2 ≤ length list.now) }
    ensures any_links { AnyLinks s n floats.now (λ t. seeds_of result ≡ seeds_from s 0 (map (child t leaf) list.now) (seeds 0 1 f0)) }
    ensures within { Within (length list.now) result }
{
    let mut w = Seeds {
        a: 0,
        b: 1,
        most: 0.0,
    };
    for k in 0..list.len() {
        w = wider(s, n, floats, leaf, list, k, w);
    }
    w
}
