// The listing of an input that is there as a whole, `list`, or comes in chunks: `begin`, any number of `feed`, `finish`.
#![tactic(auto)]

pub mod finish;

ghost use Rattle.std.specs.Prelude.{◌≡◌, ◌≤◌, length};
ghost use Rattle.rules.specs.Listing.{rowlist};
ghost use Rattle.reports.specs.Lines.{page, Wrote};
ghost use Rattle.lines.specs.Runs.{Begun, Room, Reading, printed, Reads};
ghost use Rattle.listing.specs.Whole.{shown, listed_to};

use head::Head;
use head::refusal::Refusal;
use lines::{Run, Stage};
use reasons::Reason;
use reports::PAGE;

// A run that has read nothing.
pub fn begin() -> Run
    ensures { Begun result }
{
    Run {
        head: Head::new(1, 2, 1, 1, 0, 0, 0, 0.0),
        stage: Stage::First,
        number: 1,
        long: 0,
    }
}

// A chunk more is read.
pub fn feed(
    run: Run,
    chunk: &[u8],
    line: &mut [u8],
    floats: &mut [f64],
    links: &mut [u32],
    scratch: &mut [f64],
    numbers: &mut [u32],
) -> Run
    requires room { Room (length line.old) (length floats.old) (length links.old) (length scratch.old) (length numbers.old) }
    requires reading { Reading run floats.old links.old }
    ensures reading_2 { Reading result floats.new links.new }
    ensures reads { Reads (printed run line.old floats.old links.old) chunk.now
        (printed result line.new floats.new links.new) }
{
    let mut r = run;
    let mut rest = chunk;
    while !rest.is_empty() {
        let p = lines::piece(r, rest, line, floats, links, scratch, numbers);
        r = p.run;
        rest = &rest[p.read..];
    }
    r
}

// The listing of an input that is there as a whole, in slices that hold anything.
fn list_in(
    input: &[u8],
    line: &mut [u8],
    floats: &mut [f64],
    links: &mut [u32],
    scratch: &mut [f64],
    numbers: &mut [u32],
    out: &mut [u8],
) -> usize
    requires room { Room (length line.old) (length floats.old) (length links.old) (length scratch.old) (length numbers.old) }
    requires page_in_bounds { page ≤ length out.old }
    ensures { Wrote 0 (rowlist input.now) out.old out.new result }
{
    let r = feed(begin(), input, line, floats, links, scratch, numbers);
    let end = finish::finish(r, line, floats, links, scratch, numbers, out);
    end.long
}

// The listing of any input, to the front of an output that has room for any listing: how many bytes it has written.
pub fn list(input: &[u8], out: &mut [u8]) -> Result<usize, Refusal>
    ensures { shown result out.new ≡ listed_to input.now out.old }
{
    if out.len() < PAGE {
        return Err(Refusal::Output);
    }
    // Room for M 24, dim 8, branching and leaf_cap 16.
    let mut line = [0u8; 200];
    let mut floats = [0.0; 5950];
    let mut links = [0u32; 6175];
    let mut scratch = [0.0; 425];
    let mut numbers = [0u32; 75];
    Ok(list_in(
        input,
        &mut line,
        &mut floats,
        &mut links,
        &mut scratch,
        &mut numbers,
        out,
    ))
}
