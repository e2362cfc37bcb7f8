// Lists several inputs: standard input has one after the other, a NUL byte behind each, and an empty line follows each listing.
#![tactic(auto)]

use replay::reading::read_full;
use reports::PAGE;
use std::io;

// The listing of one input.
fn print_one(rt: &impl Print, input: &[u8], out: &mut [u8]) -> io::Result<()> {
    if let Ok(long) = listing::list(input, out) {
        rt.write_all(&out[0..long])?;
    }
    rt.write_all(b"\n")
}

// The listings of all inputs, each in the output that the one before left.
fn print_all(rt: &impl Print, bytes: &[u8], out: &mut [u8]) -> io::Result<()> {
    for input in bytes.split_inclusive(|b| *b == 0) {
        print_one(rt, input.strip_suffix(&[0]).unwrap_or(input), out)?;
    }
    Ok(())
}

fn main(rt: HostRuntime) -> io::Result<()> {
    let mut bytes = [0u8; 65536];
    let mut out = [0u8; PAGE];
    let n = read_full(&mut rt.stdin(), &mut bytes);
    print_all(&rt, &bytes[0..n], &mut out)
}
