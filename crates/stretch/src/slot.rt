// A summary in its stretch of the float arena: the weight, dim means, dim deviations.
ghost use Rattle.std.specs.Prelude.{◌≡◌, ◌++◌, ◌-◌, ◌≤◌, length, take, replicate};
ghost use Rattle.binary64.specs.Operators.{f0};
ghost use Rattle.feature.specs.Shape.{Shaped};
ghost use Rattle.distance.specs.Distances.{point_of, between_of};
ghost use Rattle.head.specs.Limits.{Sized};
ghost use Rattle.rules.specs.Tree.{push, merge};
ghost use Rattle.rules.specs.Slices.{summary_in, summary_out};
ghost use Rattle.stretch.specs.Slots.{Slot};

use distance::Distance;
use feature::Summary;
use head::Settings;

// The floats of p become 0.
pub fn zero(p: &mut [f64])
    ensures { p.new ≡ replicate (length p.old) f0 }
{
    p.fill(0.0);
}

// The first n numbers of an array go to the front of p, and 0 to its end. The loop runs to the constant 8, which compilers unroll:
// the calls of memcpy and memset that copy_from_slice and fill become are measured to take longer.
fn fill(n: usize, from: [f64; 8], p: &mut [f64])
    requires { (n ≤ length p.old) × (length p.old ≤ 8) }
    ensures { p.new ≡ take n from ++ replicate (length p.old - n) f0 }
{
    for i in 0..8 {
        if i < n {
            p[i] = from[i];
        } else if i < p.len() {
            p[i] = 0.0;
        }
    }
}

// The summary that a slot holds.
pub fn load(s: Settings, p: &[f64]) -> Summary
    requires { Sized s × Slot s p.now }
    ensures { result ≡ summary_in s p.now }
{
    let dim = s.dim;
    let f = s.feature;
    let n = feature::slots(f, dim);
    let first = 1 + dim;
    let mean = kernels::copied(dim, &p[1..]);
    let deviation = kernels::copied(n, &p[first..]);
    Summary {
        weight: p[0],
        mean,
        deviation,
    }
}

// The summary c, written to its slot; the deviations that its feature does not keep become 0.
pub fn store(s: Settings, c: Summary, p: &mut [f64])
    requires { Sized s × Slot s p.old }
    ensures { p.new ≡ summary_out s c }
{
    let (front, deviations) = p.split_at_mut(1 + s.dim);
    fill(s.dim, c.mean, &mut front[1..]);
    front[0] = c.weight;
    fill(feature::slots(s.feature, s.dim), c.deviation, deviations);
}

// The weight of the summary that a slot holds.
pub fn weight(s: Settings, p: &[f64]) -> f64
    requires { Sized s × Slot s p.now }
    ensures { result ≡ (summary_in s p.now).weight }
{
    p[0]
}

// The distance k from the summary in a slot to a row, with nothing loaded.
pub fn to_row(s: Settings, k: Distance, p: &[f64], row: &[f64]) -> f64
    requires { Sized s × Slot s p.now × (s.dim ≤ length row.now) }
    ensures { result ≡ point_of k s.feature s.dim (summary_in s p.now) row.now }
{
    let dim = s.dim;
    let f = s.feature;
    let first = 1 + dim;
    let q = distance::gap(k, dim, &p[1..], row);
    let v = distance::ssd(f, dim, &p[first..]);
    distance::to_row(k, p[0], q, v)
}

// The distance k between the summaries in two slots, with nothing loaded.
pub fn between(s: Settings, k: Distance, p: &[f64], o: &[f64]) -> f64
    requires { Sized s × Slot s p.now × Slot s o.now }
    ensures { result ≡ between_of k s.feature s.dim (summary_in s p.now) (summary_in s o.now) }
{
    let dim = s.dim;
    let f = s.feature;
    let first = 1 + dim;
    let q = distance::gap(k, dim, &p[1..], &o[1..]);
    let u = distance::ssd(f, dim, &p[first..]);
    let v = distance::ssd(f, dim, &o[first..]);
    distance::to_summary(k, p[0], o[0], q, u, v)
}

// The distance k between the summary in a slot and another.
pub fn to_summary(s: Settings, k: Distance, p: &[f64], c: Summary) -> f64
    requires { Sized s × Slot s p.now }
    ensures { result ≡ between_of k s.feature s.dim (summary_in s p.now) c }
{
    let dim = s.dim;
    let f = s.feature;
    let first = 1 + dim;
    let m = c.mean;
    let o = c.deviation;
    let q = distance::gap(k, dim, &p[1..], &m);
    let u = distance::ssd(f, dim, &p[first..]);
    let v = distance::ssd(f, dim, &o);
    distance::to_summary(k, p[0], c.weight, q, u, v)
}

// The row, pushed into the summary where it stands: the deviations by the old means, then the means.
pub fn push(s: Settings, p: &mut [f64], row: &[f64])
    requires { Sized s × Slot s p.old × (s.dim ≤ length row.now) }
    ensures { summary_in s p.new ≡ push s row.now (summary_in s p.old) }
{
    let dim = s.dim;
    let f = s.feature;
    let weight = p[0] + 1.0;
    let factor = 1.0 / weight;
    let coef = 1.0 - 1.0 / weight;
    let (front, deviations) = p.split_at_mut(1 + dim);
    feature::deviate(f, dim, coef, &front[1..], deviations, row);
    feature::shift(dim, factor, &mut front[1..], row);
    front[0] = weight;
}

// The summary c, merged into the one that stands there.
pub fn merge(s: Settings, p: &mut [f64], c: Summary)
    requires { Sized s × Slot s p.old × Shaped s.feature s.dim c }
    ensures { summary_in s p.new ≡ merge s (summary_in s p.old) c }
{
    let dim = s.dim;
    let f = s.feature;
    let old = load(s, p);
    let new = feature::merge(f, dim, old, c);
    store(s, new, p);
}

// The deviations that the feature does not keep become 0.
pub fn tidy(s: Settings, p: &mut [f64])
    requires { Sized s × Slot s p.old }
    ensures { p.new ≡ summary_out s (summary_in s p.old) }
{
    let dim = s.dim;
    let f = s.feature;
    let n = feature::slots(f, dim);
    let end = 1 + dim + n;
    zero(&mut p[end..]);
}
