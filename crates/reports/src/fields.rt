// Fields of a printed line, each behind a tab, from a place of a slice on; each function gives the place behind.
ghost use Rattle.std.specs.Prelude.{[], ◌∷◌, map, ◌+◌, ◌*◌, ◌≤◌, ◌<◌, length, take};
ghost use Rattle.rules.specs.Listing.{decimal_of, hex_of};
ghost use Rattle.reports.specs.Lines.{Wrote, tabbed};

use text::writing::{write_decimal, write_hex};

// A newline.
pub fn newline(out: &mut [u8], at: usize) -> usize
    requires { at < length out.old }
    ensures { Wrote at (10 ∷ []) out.old out.new result }
{
    out[at] = b'\n';
    at + 1
}

// n in decimal.
pub fn decimal(n: u64, out: &mut [u8], at: usize) -> usize
    requires { at + 21 ≤ length out.old }
    ensures { Wrote at (tabbed (decimal_of n ∷ [])) out.old out.new result }
{
    out[at] = b'\t';
    write_decimal(n, out, at + 1)
}

// m and n in decimal.
pub fn decimals(m: u64, n: u64, out: &mut [u8], at: usize) -> usize
    requires { at + 42 ≤ length out.old }
    ensures { Wrote at (tabbed (decimal_of m ∷ decimal_of n ∷ [])) out.old out.new result }
{
    let end = decimal(m, out, at);
    decimal(n, out, end)
}

// The hex digits of x's bits.
pub fn hex(x: f64, out: &mut [u8], at: usize) -> usize
    requires { at + 17 ≤ length out.old }
    ensures { Wrote at (tabbed (hex_of x ∷ [])) out.old out.new result }
{
    out[at] = b'\t';
    write_hex(x, out, at + 1)
}

// The first k floats.
pub fn hexes(xs: &[f64], k: usize, out: &mut [u8], at: usize) -> usize
    requires { (k ≤ length xs.now) × (at + 17 * k ≤ length out.old) }
    ensures { Wrote at (tabbed (map hex_of (take k xs.now))) out.old out.new result }
{
    let mut end = at;
    for x in &xs[..k] {
        end = hex(*x, out, end);
    }
    end
}
