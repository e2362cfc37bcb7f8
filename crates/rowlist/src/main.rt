// The listing program: reads standard input of any length, and prints its listing.
#![tactic(auto)]

mod arguments;
mod messages;

ghost use Rattle.std.specs.Prelude.{length, IfOk};
ghost use Rattle.lines.specs.Runs.{Room, Reading};

use lines::{Run, Stage};
use listing::finish::finish;
use reports::PAGE;
use std::io::Read;

// Standard input can't be read to its end.
#[derive(Clone, Copy)]
struct Unread;

// Standard input, chunk after chunk, until a line is bad: what follows changes nothing (`bad_chunks_listed` of listing, Chunks).
// No input has 2^64 chunks, but a loop has to end.
fn read(
    source: &mut impl Read,
    chunk: &mut [u8],
    line: &mut [u8],
    floats: &mut [f64],
    links: &mut [u32],
    scratch: &mut [f64],
    numbers: &mut [u32],
) -> Result<Run, Unread>
    requires { Room (length line.old) (length floats.old) (length links.old) (length scratch.old) (length numbers.old) }
    ensures { IfOk result (λ run. Reading run floats.new links.new) }
{
    let mut run = listing::begin();
    for _ in 0..u64::MAX {
        let n = source.read(chunk).map_err(|_| Unread)?;
        if n == 0 {
            return Ok(run);
        }
        run = listing::feed(run, &chunk[..n], line, floats, links, scratch, numbers);
        if matches!(run.stage, Stage::Bad(_)) {
            return Ok(run);
        }
    }
    Err(Unread)
}

// The listing of standard input. The slices have room for M 24, dim 8, branching and leaf_cap 16.
// Where standard error can't be written, nothing is left to tell.
fn list(rt: &HostRuntime) {
    let mut chunk = [0u8; 65536];
    let mut line = [0u8; 200];
    let mut floats = [0.0; 5950];
    let mut links = [0u32; 6175];
    let mut scratch = [0.0; 425];
    let mut numbers = [0u32; 75];
    let mut out = [0u8; PAGE];
    let Ok(run) = read(
        &mut rt.stdin(),
        &mut chunk,
        &mut line,
        &mut floats,
        &mut links,
        &mut scratch,
        &mut numbers,
    ) else {
        let _ = rt.eprint("rowlist: standard input can't be read to its end\n");
        return;
    };
    let end = finish(
        run,
        &line,
        &mut floats,
        &mut links,
        &mut scratch,
        &mut numbers,
        &mut out,
    );
    let n = end.long;
    if rt.write_all(&out[0..n]).is_err() {
        let _ = rt.eprint("rowlist: the listing can't be written\n");
        return;
    }
    let _ = messages::tell(end.run, &rt.stderr());
}

fn main(rt: HostRuntime) {
    if arguments::has(&rt, 1) {
        arguments::answer(&rt);
        return;
    }
    list(&rt);
}
