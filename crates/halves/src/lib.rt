// The two groups that a split makes of a list.
#![tactic(auto)]

pub mod seeds;

ghost use Rattle.std.specs.Prelude.{◌≡◌, map, ◌<◌, ◌≤◌, length, get_or};
ghost use Rattle.rules.specs.Tree.{child};
ghost use Rattle.rules.specs.Split.{side, sides_by};
ghost use Rattle.arena.specs.Trees.{AnyLinks, Floats, ChildrenIn};
ghost use Rattle.halves.specs.Seeds.{seeds_of, Within};
ghost use Rattle.halves.specs.Halves.{Parted};

use crate::seeds::Seeds;
use arena::children;
use head::{Counters, Settings};

// The first `ones` of one, and the first `twos` of two.
#[derive(Clone, Copy)]
pub struct Halves {
    pub one: [u32; 17],
    pub ones: usize,
    pub two: [u32; 17],
    pub twos: usize,
}

// Whether place k of a list goes to the first group, with so many placed in either: to its nearer seed, and if both are as near,
// to the group that is not longer.
fn goes_first(
    s: Settings,
    n: Counters,
    floats: &[f64],
    leaf: bool,
    list: &[u32],
    w: Seeds,
    k: usize,
    ones: usize,
    twos: usize,
) -> bool
    requires { Floats s n (length floats.now) × ChildrenIn n leaf list.now × (k < length list.now) × Within (length list.now) w }
    ensures { AnyLinks s n floats.now (λ t.
        result ≡ side s w.a w.b (child t leaf (get_or list.now w.a 0)) (child t leaf (get_or list.now w.b 0)) k ones twos
        (child t leaf (get_or list.now k 0))) }
{
    let a = w.a;
    let b = w.b;
    if k == a {
        return true;
    }
    if k == b {
        return false;
    }
    let dist = s.dist;
    let c = list[k] as usize;
    let d = children::between(s, n, floats, leaf, c, list[a] as usize, dist);
    let e = children::between(s, n, floats, leaf, c, list[b] as usize, dist);
    if d < e {
        return true;
    }
    if d == e {
        return ones <= twos;
    }
    false
}

// A list in two groups, each in the list's order.
pub fn halves_of(
    s: Settings,
    n: Counters,
    floats: &[f64],
    leaf: bool,
    list: &[u32],
    w: Seeds,
) -> Halves
    requires { Floats s n (length floats.now) × ChildrenIn n leaf list.now × Within (length list.now) w × (length list.now ≤ 17) }
    ensures { AnyLinks s n floats.now (λ t.
        Parted (sides_by s (seeds_of w) (map (child t leaf) list.now)) list.now result) }
{
    let mut one = [0u32; 17];
    let mut two = [0u32; 17];
    let mut ones = 0;
    let mut twos = 0;
    for (k, c) in list.iter().enumerate() {
        if goes_first(s, n, floats, leaf, list, w, k, ones, twos) {
            one[ones] = *c;
            ones += 1;
        } else {
            two[twos] = *c;
            twos += 1;
        }
    }
    Halves {
        one,
        ones,
        two,
        twos,
    }
}
