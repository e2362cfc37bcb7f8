// A vector is a line of words: a step's number, a feature's number, dim, two summaries a and b, and what the Rust answered.
// A summary is its weight, dim means and dim deviations. The steps: 0 pushes b's mean into a, 1 merges b into a, 2 to 7 are the six
// distances from a to b's mean, 8 to 13 those between a and b, 14 is what merging a and b costs.
// They are the library's own steps over the entries of a tree. A tree of M 1 has five slots, three for its nodes and two for its
// entries, which are a and b; what the Rust answered stands in a sixth.
ghost use Rattle.std.specs.Prelude.{◌≡◌, ◌+◌, ◌*◌, ◌≤◌, length};
ghost use Rattle.head.specs.Limits.{Sized};
ghost use Rattle.head.specs.Sizes.{slot_width};
ghost use Rattle.arena.specs.Trees.{Floats};

use arena::entries;
use head::{Counters, Head, Settings};
use replay::{Malformed, words};
use std::io::Read;

// Reads the numbers of p, of which the last ends its line.
fn fill(input: &mut impl Read, p: &mut [f64]) -> Result<(), Malformed> {
    let n = p.len();
    for (i, x) in p.iter_mut().enumerate() {
        let after = if i + 1 == n { b'\n' } else { b' ' };
        *x = binary64::of_bits(words::word(input, after)?);
    }
    Ok(())
}

// Reads the numbers of a vector to slots 3 to 5, w floats each: a, b, and a summary or one number.
fn read(input: &mut impl Read, step: u64, w: usize, floats: &mut [f64]) -> Result<(), Malformed>
    requires { (1 ≤ w) × (6 * w ≤ length floats.old) }
{
    if step < 2 {
        return fill(input, &mut floats[3 * w..6 * w]);
    }
    fill(input, &mut floats[3 * w..5 * w + 1])
}

// Takes step 0 or 1: entry 0 becomes its answer.
fn change(step: u64, s: Settings, n: Counters, floats: &mut [f64])
    requires { Floats s n (length floats.old) × (n.entries ≡ 2) }
{
    let b = entries::summary(s, n, floats, 1);
    if step == 0 {
        let row = b.mean;
        entries::push(s, n, floats, 0, &row);
        return;
    }
    entries::merge(s, n, floats, 0, b);
}

// The number that a later step answers. Its distance is the tree's `dist`.
fn measured(step: u64, s: Settings, n: Counters, floats: &[f64]) -> f64
    requires { Floats s n (length floats.now) × (n.entries ≡ 2) }
{
    let k = s.dist;
    if step < 8 {
        let b = entries::summary(s, n, floats, 1);
        let row = b.mean;
        return entries::to_row(s, n, floats, 0, k, &row);
    }
    if step < 14 {
        return entries::between(s, n, floats, 0, 1, k);
    }
    entries::merge_cost(s, n, floats, 0, 1)
}

// Whether w floats from p on are the same as those from q on.
fn alike(floats: &[f64], p: usize, q: usize, w: usize) -> bool
    requires { (p + w ≤ length floats.now) × (q + w ≤ length floats.now) }
{
    floats[p..p + w]
        .iter()
        .zip(&floats[q..q + w])
        .all(|(x, y)| binary64::same(*x, *y))
}

// Takes the step, and answers whether its answer is the Rust's.
fn agrees(step: u64, s: Settings, n: Counters, floats: &mut [f64]) -> bool
    requires { Floats s n (length floats.old) × (n.entries ≡ 2) × (6 * slot_width s ≤ length floats.old) }
{
    let w = s.slot_width();
    if step < 2 {
        change(step, s, n, floats);
        return alike(floats, 3 * w, 5 * w, w);
    }
    binary64::same(measured(step, s, n, floats), floats[5 * w])
}

// Reads the numbers of a vector and takes its step.
fn taken(input: &mut impl Read, step: u64, s: Settings) -> Result<bool, Malformed>
    requires { Sized s × (s.max_leaves ≡ 1) }
{
    let n = Counters::new(0.0).with_entries(2);
    let mut floats = [0.0; 102];
    read(input, step, s.slot_width(), &mut floats)?;
    Ok(agrees(step, s, n, &mut floats))
}

// The same where the heading's numbers are those of a vector. Steps 2 to 7 and 8 to 13 have the distances in the head's order.
fn tried(input: &mut impl Read, step: u64, f: u64, dim: u64) -> Result<bool, Malformed> {
    if step > 14 || f > 1 {
        return Err(Malformed);
    }
    let dist = (step as u32 + 4) % Head::DISTANCES;
    let h = Head::new(dim as usize, 2, 1, 1, f as u32, dist, dist, 0.0);
    if !h.is_allowed() {
        return Err(Malformed);
    }
    taken(input, step, h.settings())
}

// Reads the next vector, takes its step, and answers whether its answer is the Rust's; none where no vector is left.
pub fn next(input: &mut impl Read) -> Result<Option<bool>, Malformed> {
    let Some(step) = words::next(input, b' ')? else {
        return Ok(None);
    };
    let f = words::word(input, b' ')?;
    let dim = words::word(input, b' ')?;
    tried(input, step, f, dim).map(Some)
}
