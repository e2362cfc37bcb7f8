// Words that name a feature or a distance.
ghost use Rattle.std.specs.Prelude.{◌≡◌};
ghost use Rattle.rules.specs.Listing.{same, feature_word, distance_word};

// Whether a and b are one text.
pub fn is(a: &[u8], b: &[u8]) -> bool
    ensures { result ≡ same a.now b.now }
{
    a == b
}

// The number of a feature's word.
pub fn feature_word(field: &[u8]) -> Option<u32>
    ensures { result ≡ feature_word field.now }
{
    if is(field, b"spherical") {
        return Some(0);
    }
    if is(field, b"diagonal") {
        return Some(1);
    }
    None
}

// The number of a distance's word.
pub fn distance_word(field: &[u8]) -> Option<u32>
    ensures { result ≡ distance_word field.now }
{
    if is(field, b"euclidean") {
        return Some(0);
    }
    if is(field, b"manhattan") {
        return Some(1);
    }
    if is(field, b"inter") {
        return Some(2);
    }
    if is(field, b"intra") {
        return Some(3);
    }
    if is(field, b"increase") {
        return Some(4);
    }
    if is(field, b"radius") {
        return Some(5);
    }
    None
}
