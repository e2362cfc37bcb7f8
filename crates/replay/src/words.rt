// Words of standard input: 16 lowercase hex digits, and the byte that parts a word from what follows.
use crate::Malformed;
use crate::reading::read_full;
use std::io::Read;

// The value of a hex digit.
fn digit(b: u8) -> Option<u8> {
    match b {
        b'0'..=b'9' => Some(b - b'0'),
        b'a'..=b'f' => Some(b - b'a' + 10),
        _ => None,
    }
}

// The word that text spells, if `after` follows it.
fn spelled(text: &[u8; 17], after: u8) -> Result<u64, Malformed> {
    let mut value: u64 = 0;
    for b in &text[..16] {
        let d = digit(*b).ok_or(Malformed)?;
        value = value << 4 | u64::from(d);
    }
    if text[16] == after {
        Ok(value)
    } else {
        Err(Malformed)
    }
}

// The next word of the input, which `after` has to follow; none where the input ends before the word begins.
pub fn next(input: &mut impl Read, after: u8) -> Result<Option<u64>, Malformed> {
    let mut text = [0u8; 17];
    match read_full(input, &mut text) {
        0 => Ok(None),
        17 => spelled(&text, after).map(Some),
        _ => Err(Malformed),
    }
}

// A word that has to be there.
pub fn word(input: &mut impl Read, after: u8) -> Result<u64, Malformed> {
    next(input, after)?.ok_or(Malformed)
}
