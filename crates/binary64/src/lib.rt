// Floats as the port needs them: counts of rows, bits in and out, and what Rust's f64 has methods for.
#![tactic(auto)]

ghost use Rattle.std.specs.Prelude.{◌≡◌, from_bits, is_nan, to_bits};
ghost use Rattle.std.specs.Float.{binary64};
ghost use Rattle.std.specs.Float.Ieee.Scale.{finite};
ghost use Rattle.binary64.specs.Values.{absolute, ranked, same_value};
ghost use Rattle.binary64.specs.Counts.{count_of};

// The rows that a weight counts: a whole number from 1 to 2^53.
pub fn count_of(w: f64) -> Option<u64>
    ensures { result ≡ count_of w }
{
    if w >= 1.0 && w <= 9007199254740992.0 {
        let n = std::num::truncating_f64_to_u64(w);
        if n as f64 == w {
            return Some(n);
        }
    }
    None
}

pub fn is_nan(x: f64) -> bool
    ensures { result ≡ is_nan x }
{
    x.is_nan()
}

// Neither a NaN nor an infinity.
#[tactic(auto, using(crate::specs::Values::finite_is))]
pub fn is_finite(x: f64) -> bool
    ensures { result ≡ finite x }
{
    x.is_finite()
}

// x with its sign cleared: −0.0 gives 0.0, and a NaN stays.
#[tactic(auto, using(crate::specs::Values::cleared))]
pub fn abs(x: f64) -> f64
    ensures { result ≡ absolute x }
{
    x.abs()
}

// A NaN read as infinity, so that it ranks last.
#[tactic(auto, using(crate::specs::Values::ranked_nan, crate::specs::Values::ranked_other))]
pub fn rank(x: f64) -> f64
    ensures { result ≡ ranked x }
{
    if x.is_nan() { f64::INFINITY } else { x }
}

// The float of a bit pattern. Every pattern of a NaN gives the one NaN.
pub fn of_bits(b: u64) -> f64
    ensures { result ≡ from_bits binary64 b }
{
    if b % 0x8000_0000_0000_0000 > 0x7ff0_0000_0000_0000 {
        f64::NAN
    } else {
        f64::from_bits(b)
    }
}

// The bits of x, a NaN's always 7ff8000000000000.
#[tactic(auto, using(crate::specs::Values::nan_bits))]
pub fn bits_of(x: f64) -> u64
    ensures { result ≡ to_bits binary64 x }
{
    if x.is_nan() {
        0x7ff8_0000_0000_0000
    } else {
        x.to_bits()
    }
}

// Whether a and b are one value, bit for bit, with NaN as one value.
#[tactic(auto, unfolding(crate::specs::Values::same_value))]
pub fn same(a: f64, b: f64) -> bool
    ensures { result ≡ same_value a b }
{
    bits_of(a) == bits_of(b)
}
