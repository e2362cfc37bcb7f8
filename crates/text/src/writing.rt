// Numbers as bytes, from a place of a slice on.
ghost use Rattle.std.specs.Prelude.{◌≡◌, [], ◌+◌, ◌≤◌, ◌<◌, length};
ghost use Rattle.rules.specs.Listing.{digits_of, places_of, decimal_of, hex_of};
ghost use Rattle.text.specs.Written.{letter_of, written};

// The byte of a digit.
fn letter(d: u64) -> u8
    requires { d < 16 }
    ensures { result ≡ letter_of d }
{
    if d < 10 {
        return (48 + d) as u8;
    }
    (87 + d) as u8
}

// How many digits n has.
fn places(n: u64) -> usize
    ensures { result ≡ places_of 19 n }
{
    let mut rest = n;
    for k in 1..20 {
        if rest < 10 {
            return k;
        }
        rest = rest / 10;
    }
    20
}

// The last k digits of n in a base.
fn digits(k: usize, base: u64, n: u64, out: &mut [u8], at: usize)
    requires { (2 ≤ base) × (base ≤ 16) × (at + k ≤ length out.old) }
    ensures { out.new ≡ written at (digits_of k base n []) out.old }
{
    let mut rest = n;
    for i in (0..k).rev() {
        out[at + i] = letter(rest % base);
        rest = rest / base;
    }
}

// n in decimal; gives the place behind it.
pub fn write_decimal(n: u64, out: &mut [u8], at: usize) -> usize
    requires { at + length (decimal_of n) ≤ length out.old }
    ensures { (out.new ≡ written at (decimal_of n) out.old) × (result ≡ at + length (decimal_of n)) }
{
    let k = places(n);
    digits(k, 10, n, out, at);
    at + k
}

// The 16 hex digits of x's bits; gives the place behind them.
pub fn write_hex(x: f64, out: &mut [u8], at: usize) -> usize
    requires { at + 16 ≤ length out.old }
    ensures { (out.new ≡ written at (hex_of x) out.old) × (result ≡ at + length (hex_of x)) }
{
    digits(16, 16, binary64::bits_of(x), out, at);
    at + 16
}
