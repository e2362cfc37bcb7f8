// The end of the input.
ghost use Rattle.std.specs.Prelude.{◌≡◌, [], ◌≤◌, length};
ghost use Rattle.reports.specs.Lines.{page, Wrote};
ghost use Rattle.lines.specs.Runs.{Room, Stands, Reading, Ended, printed_of, printed};

use lines::{Run, Stage};
use reports::{write_bad, write_report};

// The line that the input ends in, if it has bytes.
fn last_line(
    run: Run,
    line: &[u8],
    floats: &mut [f64],
    links: &mut [u32],
    scratch: &mut [f64],
    numbers: &mut [u32],
) -> Run
    requires room { Room (length line.now) (length floats.old) (length links.old) (length scratch.old) (length numbers.old) }
    requires reading { Reading run floats.old links.old }
    ensures stands { Stands result.stage result floats.new links.new }
    ensures links_after { printed_of result.stage result floats.new links.new []
        ≡ printed run line.now floats.old links.old [] }
{
    if run.long == 0 {
        return run;
    }
    lines::end_line(run, line, floats, links, scratch, numbers)
}

// What is printed where no line is left.
fn print(run: Run, floats: &[f64], links: &[u32], out: &mut [u8]) -> usize
    requires { (5950 ≤ length floats.now) × (page ≤ length out.old) × Stands run.stage run floats.now links.now }
    ensures { Wrote 0 (printed_of run.stage run floats.now links.now []) out.old out.new result }
{
    let stage = run.stage;
    match stage {
        Stage::First => write_bad(run.number, out),
        Stage::Rows => write_report(run.head, run.number - 2, floats, links, out),
        Stage::Bad(_) => write_bad(run.number, out),
    }
}

// A run with no line left, and how many bytes it has printed.
#[derive(Clone, Copy)]
pub struct End {
    pub run: Run,
    pub long: usize,
}

// Writes what the run prints to the front of out.
pub fn finish(
    run: Run,
    line: &[u8],
    floats: &mut [f64],
    links: &mut [u32],
    scratch: &mut [f64],
    numbers: &mut [u32],
    out: &mut [u8],
) -> End
    requires room { Room (length line.now) (length floats.old) (length links.old) (length scratch.old) (length numbers.old) }
    requires reading { Reading run floats.old links.old × (page ≤ length out.old) }
    ensures wrote { Wrote 0 (printed run line.now floats.old links.old []) out.old out.new result.long }
    ensures ended { Ended result.run (printed run line.now floats.old links.old []) floats.new links.new }
{
    let last = last_line(run, line, floats, links, scratch, numbers);
    let long = print(last, floats, links, out);
    End { run: last, long }
}
