// The settings of line 1, field by field: dim, branching, leaf_cap, M, feature, dist, abs, threshold.
ghost use Rattle.std.specs.Prelude.{◌≡◌, ◌≤◌, length};
ghost use Rattle.rules.specs.Listing.{fields_of, decimal, feature_word, distance_word};
ghost use Rattle.reasons.specs.Reasons.{is_some, size_in, setting_at, wrong_at};

use head::Head;
use text::{fields, numbers, words};

// A listing's M goes up to 24.
const MOST_LEAVES: usize = 24;

// Whether a field spells a number within limits.
fn is_size(field: &[u8], least: usize, most: usize) -> bool
    requires { most ≤ 1000000000 }
    ensures { result ≡ size_in least most (decimal field.now) }
{
    let Some(n) = numbers::decimal(field) else {
        return false;
    };
    if n < least as u64 {
        return false;
    }
    n <= most as u64
}

fn is_feature(field: &[u8]) -> bool
    ensures { result ≡ is_some (feature_word field.now) }
{
    words::feature_word(field).is_some()
}

fn is_distance(field: &[u8]) -> bool
    ensures { result ≡ is_some (distance_word field.now) }
{
    words::distance_word(field).is_some()
}

// Whether a field spells what stands at place k of line 1.
fn is_setting(k: usize, field: &[u8]) -> bool
    ensures { result ≡ setting_at k field.now }
{
    match k {
        0 => is_size(field, Head::LEAST_DIM, Head::MOST_DIM),
        1 => is_size(field, Head::LEAST_BRANCHING, Head::MOST_BRANCHING),
        2 => is_size(field, Head::LEAST_LEAF_CAP, Head::MOST_LEAF_CAP),
        3 => is_size(field, Head::LEAST_MAX_LEAVES, MOST_LEAVES),
        4 => is_feature(field),
        5 => is_distance(field),
        6 => is_distance(field),
        _ => crate::is_float(field),
    }
}

// The first of a line's eight fields that does not spell its setting, or 8.
pub fn settings(line: &[u8]) -> usize
    requires { length (fields_of line.now) ≡ 8 }
    ensures { result ≡ wrong_at setting_at 0 (fields_of line.now) }
{
    for k in 0..8 {
        if !is_setting(k, fields::field(line, k)) {
            return k;
        }
    }
    8
}
