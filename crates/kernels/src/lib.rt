// The sums over the channels of means, from 0, from the first channel to the last.
#![tactic(auto)]

ghost use Rattle.std.specs.Prelude.{◌≡◌, ◌<◌, ◌≤◌, ℕ, length, replicate};
ghost use Rattle.binary64.specs.Operators.{f0};
ghost use Rattle.kernels.specs.Channels.{at, up_to, sum_to, square_at, size_at, SumsUp};

// The first dim numbers of a slice, in an array of their own.
pub fn copied(dim: usize, a: &[f64]) -> [f64; 8]
    requires { (dim ≤ 8) × (dim ≤ length a.now) }
    ensures { result ≡ up_to (at a.now) dim (replicate 8 f0) }
{
    let mut out = [0.0; 8];
    // to the constant 8, which compilers unroll: to dim it takes about three times as long
    for i in 0..8 {
        if i < dim {
            out[i] = a[i];
        }
    }
    out
}

// The sum of what a rule gives at the first dim channels.
pub fn sum<F: Fn(usize) -> f64>(dim: usize, rule: F) -> f64
    requires { (i : ℕ) → i < dim → F.pre rule i }
    ensures { SumsUp (F.post rule) dim result }
{
    let mut sum = 0.0;
    for i in 0..dim {
        sum = sum + rule(i);
    }
    sum
}

// The squared Euclidean sum of the first dim channels.
pub fn sq_euclidean(dim: usize, a: &[f64], b: &[f64]) -> f64
    requires { (dim ≤ 8) × (dim ≤ length a.now) × (dim ≤ length b.now) }
    ensures { result ≡ sum_to (square_at a.now b.now) dim }
{
    sum(dim, |i| {
        let d = a[i] - b[i];
        d * d
    })
}

// The Manhattan sum of the first dim channels.
pub fn manhattan(dim: usize, a: &[f64], b: &[f64]) -> f64
    requires { (dim ≤ 8) × (dim ≤ length a.now) × (dim ≤ length b.now) }
    ensures { result ≡ sum_to (size_at a.now b.now) dim }
{
    sum(dim, |i| binary64::abs(a[i] - b[i]))
}
