// Merges of pairs, until the target is reached. Entry i is still there if place 3i + 2 of the numbers is not 0.
ghost use Rattle.std.specs.Prelude.{◌≡◌, true, ◌&&◌, ◌+◌, ◌*◌, ◌<◌, ◌≤◌, length, replicate};
ghost use Rattle.arena.specs.Trees.{Floats};
ghost use Rattle.scratch.specs.Flags.{alive_at, alive_in, PairBelow, PairsBelow, SamePairs};
ghost use Rattle.merging.specs.Merging.{GapWidened, TwoMerged, PairMerged, PairsMerged};

use crate::threshold;
use arena::entries;
use head::{Counters, Settings};

// How many merges there were, and the widest finite gap between two that were merged.
#[derive(Clone, Copy)]
pub struct Merges {
    pub count: usize,
    pub widest: f64,
}

// All entries are there.
pub fn revive(numbers: &mut [u32], entries: usize)
    requires { 3 * entries ≤ length numbers.old }
    ensures { (alive_in numbers.new entries ≡ replicate entries true) × SamePairs numbers.old numbers.new }
{
    for i in 0..entries {
        numbers[3 * i + 2] = 1;
    }
}

// Whether entries one and two are both there.
#[tactic(auto, unfolding(scratch::specs::Flags::alive_at, scratch::specs::Flags::word_at))]
fn both_alive(numbers: &[u32], one: usize, two: usize) -> bool
    requires { (3 * one + 2 < length numbers.now) × (3 * two + 2 < length numbers.now) }
    ensures { result ≡ alive_at numbers.now one && alive_at numbers.now two }
{
    numbers[3 * one + 2] != 0 && numbers[3 * two + 2] != 0
}

// The widest gap, with the one between entries one and two.
fn wider(s: Settings, n: Counters, floats: &[f64], one: usize, two: usize, widest: f64) -> f64
    requires { Floats s n (length floats.now) × (one < n.entries) × (two < n.entries) }
    ensures { GapWidened s n one two widest floats.now result }
{
    let abs = s.abs;
    let gap = entries::between(s, n, floats, one, two, abs);
    threshold::widen(widest, gap)
}

// Entry two is merged into entry one.
fn merge_into(s: Settings, n: Counters, floats: &mut [f64], one: usize, two: usize)
    requires { Floats s n (length floats.old) × (one < n.entries) × (two < n.entries) }
    ensures { TwoMerged s n one two floats.old floats.new }
{
    let c = entries::summary(s, n, floats, two);
    entries::merge(s, n, floats, one, c);
}

// Entry two is merged into entry one; gives the widest gap, with the one between them as they stood.
fn merge_two(
    s: Settings,
    n: Counters,
    floats: &mut [f64],
    one: usize,
    two: usize,
    widest: f64,
) -> f64
    requires { Floats s n (length floats.old) × (one < n.entries) × (two < n.entries) }
    ensures { GapWidened s n one two widest floats.old result × TwoMerged s n one two floats.old floats.new }
{
    let wide = wider(s, n, floats, one, two, widest);
    merge_into(s, n, floats, one, two);
    wide
}

// Pair k, merged if both of its entries are there; gives the merges with this one.
fn merge_pair(
    s: Settings,
    n: Counters,
    floats: &mut [f64],
    numbers: &mut [u32],
    k: usize,
    m: Merges,
) -> Merges
    requires floats { Floats s n (length floats.old) × (3 * n.entries ≤ length numbers.old) × (3 * k + 1 < length numbers.old) }
    requires pair_below { PairBelow n.entries numbers.old k × (m.count ≤ k) }
    ensures { PairMerged s n k m floats.old numbers.old result floats.new numbers.new }
{
    let one = numbers[3 * k] as usize;
    let two = numbers[3 * k + 1] as usize;
    if !both_alive(numbers, one, two) {
        return m;
    }
    let widest = merge_two(s, n, floats, one, two, m.widest);
    numbers[3 * two + 2] = 0;
    Merges {
        count: m.count + 1,
        widest,
    }
}

// The pairs in order, those with a merged-away member skipped; `most` merges at most.
pub fn merge_pairs(
    s: Settings,
    n: Counters,
    floats: &mut [f64],
    numbers: &mut [u32],
    pairs: usize,
    most: usize,
) -> Merges
    requires floats { Floats s n (length floats.old) × (3 * n.entries ≤ length numbers.old) × (3 * pairs ≤ length numbers.old) }
    requires pairs_below { PairsBelow n.entries numbers.old pairs }
    ensures { PairsMerged s n pairs most floats.old numbers.old result floats.new numbers.new }
{
    let mut m = Merges {
        count: 0,
        widest: 0.0,
    };
    for k in 0..pairs {
        if m.count == most {
            break;
        }
        m = merge_pair(s, n, floats, numbers, k, m);
    }
    m
}
