// Numbers that a field spells.
ghost use Rattle.std.specs.Prelude.{◌≡◌, ◌≤◌, length};
ghost use Rattle.rules.specs.Listing.{digit, hex_digit, number_from, decimal, hex_float};
ghost use Rattle.text.specs.Told.{few};

use crate::digits;

// No number of a head is near it: a greater one is not read.
const MOST: u64 = 1_000_000_000;

// The number of a field's decimal digits.
fn of_tens(field: &[u8]) -> Option<u64>
    ensures { result ≡ few (number_from digit 10 0 field.now) }
{
    let mut n: u64 = 0;
    for b in field {
        let d = digits::digit(*b)?;
        n = n * 10 + u64::from(d);
        if n > MOST {
            return None;
        }
    }
    Some(n)
}

// The number of a field without sign or leading zeros.
pub fn decimal(field: &[u8]) -> Option<u64>
    ensures { result ≡ few (decimal field.now) }
{
    if field.len() == 0 {
        return None;
    }
    if field.len() == 1 {
        return of_tens(field);
    }
    if field[0] == b'0' {
        return None;
    }
    of_tens(field)
}

// The number of a field's hex digits, at most 16.
fn of_sixteens(field: &[u8]) -> Option<u64>
    requires { length field.now ≤ 16 }
    ensures { result ≡ number_from hex_digit 16 0 field.now }
{
    let mut n: u64 = 0;
    for b in field {
        let d = digits::hex_digit(*b)?;
        n = n * 16 + u64::from(d);
    }
    Some(n)
}

// The float of a field of 16 hex digits.
pub fn hex_float(field: &[u8]) -> Option<f64>
    ensures { result ≡ hex_float field.now }
{
    if field.len() != 16 {
        return None;
    }
    let n = of_sixteens(field)?;
    Some(binary64::of_bits(n))
}
