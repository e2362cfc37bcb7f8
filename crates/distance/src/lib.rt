// Six distances from a summary to a row and between two summaries, by the numbers that they are made of. Euclidean is squared; no
// square root is taken.
#![tactic(auto)]

ghost use Rattle.std.specs.Prelude.{◌≡◌, ◌≤◌, length};
ghost use Rattle.kernels.specs.Channels.{at, sum_to};
ghost use Rattle.feature.specs.Summaries.{Dim};
ghost use Rattle.distance.specs.Distances.{gap_of, ssd_of, increase_of, to_row, to_summary};

use feature::Feature;

#[derive(Clone, Copy)]
pub enum Distance {
    CentroidEuclidean,
    CentroidManhattan,
    AverageIntercluster,
    AverageIntracluster,
    VarianceIncrease,
    Radius,
}

// The sum over the first dim channels that a distance goes by.
#[tactic(auto, unfolding(crate::specs::Distances::gap_of, crate::specs::Distances::squared_gap))]
pub fn gap(k: Distance, dim: usize, a: &[f64], b: &[f64]) -> f64
    requires { Dim dim × (dim ≤ length a.now) × (dim ≤ length b.now) }
    ensures { result ≡ gap_of k dim a.now b.now }
{
    match k {
        Distance::CentroidManhattan => kernels::manhattan(dim, a, b),
        _ => kernels::sq_euclidean(dim, a, b),
    }
}

// The sum of the first dim deviations.
fn total(dim: usize, deviation: &[f64]) -> f64
    requires { Dim dim × (dim ≤ length deviation.now) }
    ensures { result ≡ sum_to (at deviation.now) dim }
{
    kernels::sum(dim, |i| deviation[i])
}

// The total squared deviation.
#[tactic(auto, unfolding(crate::specs::Distances::ssd_of))]
pub fn ssd(f: Feature, dim: usize, deviation: &[f64]) -> f64
    requires { Dim dim × (dim ≤ length deviation.now) }
    ensures { result ≡ ssd_of f dim deviation.now }
{
    match f {
        Feature::Spherical => deviation[0],
        Feature::Diagonal => total(dim, deviation),
    }
}

// The distance to a row from a summary of weight n, gap q and total deviation v.
#[tactic(auto, unfolding(crate::specs::Distances::to_row))]
pub fn to_row(k: Distance, n: f64, q: f64, v: f64) -> f64
    ensures { result ≡ to_row k n q v }
{
    match k {
        Distance::CentroidEuclidean => q,
        Distance::CentroidManhattan => q,
        Distance::AverageIntercluster => if n <= 0.0 { 0.0 } else { q + v / n },
        Distance::AverageIntracluster => if n <= 0.0 {
            0.0
        } else {
            2.0 * (v + q * n / (n + 1.0)) / n
        },
        Distance::VarianceIncrease => if n <= 0.0 { 0.0 } else { q * n / (n + 1.0) },
        Distance::Radius => {
            let m = n + 1.0;
            if n <= 0.0 {
                0.0
            } else {
                (n * q + m * v) / (m * m)
            }
        }
    }
}

// What a merge of two summaries of weights na and nb, with the squared gap q, adds to the squared deviation.
#[tactic(auto, unfolding(crate::specs::Distances::increase_of))]
fn increase(na: f64, nb: f64, q: f64) -> f64
    ensures { result ≡ increase_of na nb q }
{
    let nab = na + nb;
    if nab <= 0.0 { 0.0 } else { q * na * nb / nab }
}

// The distance between two summaries of weights na and nb, gap q and total deviations va and vb.
#[tactic(auto, unfolding(crate::specs::Distances::to_summary))]
pub fn to_summary(k: Distance, na: f64, nb: f64, q: f64, va: f64, vb: f64) -> f64
    ensures { result ≡ to_summary k na nb q va vb }
{
    let nab = na + nb;
    match k {
        Distance::CentroidEuclidean => q,
        Distance::CentroidManhattan => q,
        Distance::AverageIntercluster => {
            if na <= 0.0 {
                return 0.0;
            }
            if nb <= 0.0 {
                0.0
            } else {
                q + va / na + vb / nb
            }
        }
        Distance::AverageIntracluster => {
            if nab <= 1.0 {
                0.0
            } else {
                2.0 * (va + vb + q * na * nb / nab) / (nab - 1.0)
            }
        }
        Distance::VarianceIncrease => increase(na, nb, q),
        Distance::Radius => {
            if nab <= 0.0 {
                0.0
            } else {
                (na * nb * q + nab * (va + vb)) / (nab * nab)
            }
        }
    }
}
