// The first line: dim, branching, leaf_cap, M, feature, dist, abs, threshold.
ghost use Rattle.std.specs.Prelude.{◌≡◌, [], ◌<◌, length, get_or};
ghost use Rattle.rules.specs.Listing.{fields_of, decimal, distance_word, taken, head_from, first_line};
ghost use Rattle.text.specs.Told.{few};

use crate::{fields, numbers, words};
use head::Head;

// The decimal number of field k.
fn number(line: &[u8], k: usize) -> Option<u64>
    requires { k < length (fields_of line.now) }
    ensures { result ≡ few (decimal (get_or (fields_of line.now) k [])) }
{
    numbers::decimal(fields::field(line, k))
}

// The distance of field k.
fn distance(line: &[u8], k: usize) -> Option<u32>
    requires { k < length (fields_of line.now) }
    ensures { result ≡ distance_word (get_or (fields_of line.now) k []) }
{
    words::distance_word(fields::field(line, k))
}

// The head, where M is at most 24 and all is within the limits.
fn taken(h: Head) -> Option<Head>
    ensures { result ≡ taken h }
{
    if h.max_leaves > 24 {
        return None;
    }
    if !h.is_allowed() {
        return None;
    }
    Some(h)
}

// The head of a line's eight fields.
fn head_from(line: &[u8]) -> Option<Head>
    requires { length (fields_of line.now) ≡ 8 }
    ensures { result ≡ head_from (fields_of line.now) }
{
    let dim = number(line, 0)?;
    let branching = number(line, 1)?;
    let leaf_cap = number(line, 2)?;
    let max_leaves = number(line, 3)?;
    let feature = words::feature_word(fields::field(line, 4))?;
    let dist = distance(line, 5)?;
    let abs = distance(line, 6)?;
    let threshold = numbers::hex_float(fields::field(line, 7))?;
    taken(Head::new(
        dim as usize,
        branching as usize,
        leaf_cap as usize,
        max_leaves as usize,
        feature,
        dist,
        abs,
        threshold,
    ))
}

// The head that the first line sets.
pub fn first_line(line: &[u8]) -> Option<Head>
    ensures { result ≡ first_line line.now }
{
    if line.len() > 200 {
        return None;
    }
    if fields::field_count(line) != 8 {
        return None;
    }
    head_from(line)
}
