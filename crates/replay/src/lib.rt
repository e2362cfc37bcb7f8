// What the replaying programs share: words of standard input, and the report.
#![tactic(auto)]

pub mod reading;
pub mod words;

use std::io;

// A vector of standard input has other words than its program asks for.
#[derive(Clone, Copy)]
pub struct Malformed;

// Takes vector after vector, prints the number of each one that differs, then how many there were. What is `next` says whether the
// next vector agrees, and none where no vector is left.
pub fn report<F: FnMut() -> Result<Option<bool>, Malformed>>(
    rt: &impl Print,
    mut next: F,
) -> io::Result<()>
    requires { F.IsAlwaysCallable next }
{
    let mut count: u64 = 0;
    let mut differ: u64 = 0;
    for _ in 0..u64::MAX {
        match next() {
            Ok(Some(true)) => {}
            Ok(Some(false)) => {
                differ += 1;
                println!(rt; "{}", count + 1)?;
            }
            Ok(None) => break,
            Err(Malformed) => return println!(rt; "malformed"),
        }
        count += 1;
    }
    println!(rt; "{count} vectors, {differ} differ")
}
