// Digits of base 10 and of base 16.
ghost use Rattle.std.specs.Prelude.{◌≡◌};
ghost use Rattle.rules.specs.Listing.{digit, hex_digit};

// A decimal digit's value.
pub fn digit(b: u8) -> Option<u8>
    ensures { result ≡ digit b }
{
    match b {
        b'0'..=b'9' => Some(b - b'0'),
        _ => None,
    }
}

// A lowercase hex digit's value.
pub fn hex_digit(b: u8) -> Option<u8>
    ensures { result ≡ hex_digit b }
{
    match b {
        b'a'..=b'f' => Some(b - b'a' + 10),
        _ => digit(b),
    }
}
