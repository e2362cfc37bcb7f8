// Takes steps over a tree's entries whose answers were made from the Rust, and prints the number of each one that differs, then how
// many there were.
#![tactic(auto)]

mod vectors;

use std::io;

fn main(rt: HostRuntime) -> io::Result<()> {
    let mut input = rt.stdin();
    replay::report(&rt, || vectors::next(&mut input))
}
