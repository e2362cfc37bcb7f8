// Why a line of the listing's input is bad: the first rule that it breaks.
#![tactic(auto)]

pub mod settings;

ghost use Rattle.std.specs.Prelude.{◌≡◌, length};
ghost use Rattle.rules.specs.Listing.{fields_of, hex_float};
ghost use Rattle.reasons.specs.Reasons.{ends_in_return, is_some, wrong_at, float_at, first_reason, row_reason};

use text::{fields, numbers};

#[derive(Clone, Copy)]
pub enum Reason {
    // Over 200 bytes.
    Long,
    // Its last byte is a carriage return.
    Return,
    // Line 1 has so many fields, and not eight.
    Fields(usize),
    // Field k of line 1, from 1, does not spell what stands there.
    Setting(usize),
    // Line 1's threshold is not finite, or below 0.
    Threshold,
    // Field k of a row, from 1, is no float.
    Float(usize),
    // A row of so many floats, and not dim.
    Shape(usize),
    // A row for a tree that is full.
    Full,
}

// The longest line, newline not counted.
const MOST: usize = 200;

// Whether a line's last byte is a carriage return.
fn ends_in_return(line: &[u8]) -> bool
    ensures { result ≡ ends_in_return line.now }
{
    line.ends_with(b"\r")
}

// Whether a field spells a float.
pub fn is_float(field: &[u8]) -> bool
    ensures { result ≡ is_some (hex_float field.now) }
{
    numbers::hex_float(field).is_some()
}

// The first of a line's fields that is no float, or the end.
fn floats(line: &[u8], n: usize) -> usize
    requires { n ≡ length (fields_of line.now) }
    ensures { result ≡ wrong_at float_at 0 (fields_of line.now) }
{
    for k in 0..n {
        if !is_float(fields::field(line, k)) {
            return k;
        }
    }
    n
}

// Why line 1 sets no head.
pub fn first(line: &[u8]) -> Reason
    ensures { result ≡ first_reason line.now }
{
    if line.len() > MOST {
        return Reason::Long;
    }
    if ends_in_return(line) {
        return Reason::Return;
    }
    let n = fields::field_count(line);
    if n != 8 {
        return Reason::Fields(n);
    }
    let k = settings::settings(line);
    if k < 8 {
        return Reason::Setting(k + 1);
    }
    Reason::Threshold
}

// Why a line is no row.
pub fn row(line: &[u8]) -> Reason
    ensures { result ≡ row_reason line.now }
{
    if line.len() > MOST {
        return Reason::Long;
    }
    if ends_in_return(line) {
        return Reason::Return;
    }
    let n = fields::field_count(line);
    let k = floats(line, n);
    if k < n {
        return Reason::Float(k + 1);
    }
    Reason::Shape(n)
}
