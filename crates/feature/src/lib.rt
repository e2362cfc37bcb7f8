// A summary of rows: how many, their mean, and their squared deviation from it.
#![tactic(auto)]

ghost use Rattle.std.specs.Prelude.{◌≡◌, ◌≤◌, length};
ghost use Rattle.kernels.specs.Channels.{up_to};
ghost use Rattle.feature.specs.Summaries.{Dim, slots_of, blank};
ghost use Rattle.feature.specs.Steps.{moved_at, added_at, both_at, deviated, pushed, blended, merged};

// How deviation is kept: one number for all channels, or one a channel.
#[derive(Clone, Copy)]
pub enum Feature {
    Spherical,
    Diagonal,
}

// Channels past dim, and Spherical's deviations past the first, are 0.
#[derive(Clone, Copy)]
pub struct Summary {
    pub weight: f64,
    pub mean: [f64; 8],
    pub deviation: [f64; 8],
}

// The summary of no rows.
#[tactic(auto, unfolding(crate::specs::Summaries::blank))]
pub fn empty() -> Summary
    ensures { result ≡ blank }
{
    Summary {
        weight: 0.0,
        mean: [0.0; 8],
        deviation: [0.0; 8],
    }
}

// How many deviations a feature keeps.
#[tactic(auto, unfolding(crate::specs::Summaries::slots_of))]
pub fn slots(f: Feature, dim: usize) -> usize
    ensures { result ≡ slots_of f dim }
{
    match f {
        Feature::Spherical => 1,
        Feature::Diagonal => dim,
    }
}

// The first dim means, each moved towards x by factor. Here and below loops run to the constant 8, which compilers unroll: a push
// took a fifth longer with loops to dim, and a quarter longer where these three were called and not inlined.
#[inline(always)]
pub fn shift(dim: usize, factor: f64, mean: &mut [f64], x: &[f64])
    requires { (dim ≤ 8) × (dim ≤ length mean.old) × (dim ≤ length x.now) }
    ensures { mean.new ≡ up_to (moved_at factor mean.old x.now) dim mean.old }
{
    for i in 0..8 {
        if i < dim {
            let d = x[i] - mean[i];
            mean[i] = mean[i] + factor * d;
        }
    }
}

// The first dim deviations, each with what a step of its mean towards x adds.
#[inline(always)]
fn widen(dim: usize, coef: f64, mean: &[f64], deviation: &mut [f64], x: &[f64])
    requires { (dim ≤ 8) × (dim ≤ length mean.now) × (dim ≤ length deviation.old) × (dim ≤ length x.now) }
    ensures { deviation.new ≡ up_to (added_at coef mean.now deviation.old x.now) dim deviation.old }
{
    for i in 0..8 {
        if i < dim {
            let d = x[i] - mean[i];
            deviation[i] = deviation[i] + coef * d * d;
        }
    }
}

// The deviations after a step of the mean towards x.
#[inline(always)]
#[tactic(auto, unfolding(crate::specs::Steps::deviated))]
pub fn deviate(f: Feature, dim: usize, coef: f64, mean: &[f64], deviation: &mut [f64], x: &[f64])
    requires { Dim dim × (dim ≤ length mean.now) × (dim ≤ length deviation.old) × (dim ≤ length x.now) }
    ensures { deviation.new ≡ deviated f dim coef mean.now deviation.old x.now }
{
    match f {
        Feature::Spherical => {
            let sum = kernels::sq_euclidean(dim, x, mean);
            deviation[0] = deviation[0] + coef * sum;
        }
        Feature::Diagonal => widen(dim, coef, mean, deviation, x),
    }
}

// The first n deviations of a, each with b's.
fn add(n: usize, a: &mut [f64], b: &[f64])
    requires { (n ≤ 8) × (n ≤ length a.old) × (n ≤ length b.now) }
    ensures { a.new ≡ up_to (both_at a.old b.now) n a.old }
{
    for i in 0..8 {
        if i < n {
            a[i] = a[i] + b[i];
        }
    }
}

// The row, pushed into s with weight 1.
#[tactic(auto, unfolding(crate::specs::Steps::pushed))]
pub fn push(f: Feature, dim: usize, s: Summary, row: &[f64]) -> Summary
    requires { Dim dim × (dim ≤ length row.now) }
    ensures { result ≡ pushed f dim s row.now }
{
    let weight = s.weight + 1.0;
    let factor = 1.0 / weight;
    let coef = 1.0 - 1.0 / weight;
    let mut mean = s.mean;
    let mut deviation = s.deviation;
    deviate(f, dim, coef, &mean, &mut deviation, row);
    shift(dim, factor, &mut mean, row);
    Summary {
        weight,
        mean,
        deviation,
    }
}

// o merged into s, where both have weight.
fn join(f: Feature, dim: usize, s: Summary, o: Summary) -> Summary
    requires { Dim dim }
    ensures { result ≡ blended f dim s o }
{
    let weight = s.weight + o.weight;
    let factor = o.weight / weight;
    let coef = s.weight * o.weight / weight;
    let mut mean = s.mean;
    let mut deviation = s.deviation;
    add(slots(f, dim), &mut deviation, &o.deviation);
    deviate(f, dim, coef, &mean, &mut deviation, &o.mean);
    shift(dim, factor, &mut mean, &o.mean);
    Summary {
        weight,
        mean,
        deviation,
    }
}

// o merged into s.
#[tactic(auto, unfolding(crate::specs::Steps::merged))]
pub fn merge(f: Feature, dim: usize, s: Summary, o: Summary) -> Summary
    requires { Dim dim }
    ensures { result ≡ merged f dim s o }
{
    if o.weight <= 0.0 {
        return s;
    }
    if s.weight <= 0.0 {
        return o;
    }
    join(f, dim, s, o)
}
