// Byte by byte and line by line.
#![tactic(auto)]

ghost use Rattle.std.specs.Prelude.{◌≡◌, [], ◌∷◌, ◌+◌, ◌-◌, ◌≤◌, ◌<◌, length, take};
ghost use Rattle.lines.specs.declared.Stage.TheVariants as Stages;
ghost use Rattle.lines.specs.Runs.{Room, Stands, Reading, LineRead, printed_of, printed, Reads, bad_stage, bad_run};
ghost use Rattle.lines.specs.Lines.{Pushed, Copied};
ghost use Rattle.lines.specs.Rows.{Inserts};

use fronts::create::create;
use head::Head;
use reasons::Reason;
use text::RowLine;
use text::heads::first_line;
use text::row::row_line;
use work::Work;
use work::change::change;

// What is being read.
#[derive(Clone, Copy)]
pub enum Stage {
    // Line 1.
    First,
    // Rows.
    Rows,
    // Nothing more: a line was malformed, refused or too long, for this reason.
    Bad(Reason),
}

// A run between two chunks: the head of the tree in the lent slices, the number of the line that is being read, or of the bad
// one, and how many of its bytes stand in the lent line.
#[derive(Clone, Copy)]
pub struct Run {
    pub head: Head,
    pub stage: Stage,
    pub number: u64,
    pub long: usize,
}

// The longest line, newline not counted.
const MOST: usize = 200;

// A bad run stays bad for its own reason.
#[tactic(auto, unfolding(crate::specs::Runs::bad_stage))]
fn bad_stage(stage: Stage, why: Reason) -> Stage
    ensures { result ≡ bad_stage stage why }
{
    match stage {
        Stage::First | Stage::Rows => Stage::Bad(why),
        Stage::Bad(_) => stage,
    }
}

// The line that is being read is bad.
fn bad(run: Run, why: Reason) -> Run
    ensures { result ≡ bad_run why run }
{
    Run {
        stage: bad_stage(run.stage, why),
        long: 0,
        ..run
    }
}

// One byte more of a line.
fn push(run: Run, b: u8, line: &mut [u8]) -> Run
    requires { (200 ≤ length line.old) × (run.long ≤ 200) }
    ensures { Pushed run b line.old result line.new }
{
    if run.long == MOST {
        return bad(run, Reason::Long);
    }
    line[run.long] = b;
    Run {
        long: run.long + 1,
        ..run
    }
}

// The bytes of a line up to its newline, as many as a line has and as there are.
fn copy(run: Run, bytes: &[u8], line: &mut [u8]) -> Run
    requires { (200 ≤ length line.old) × (run.long ≤ 200) }
    ensures long_le_long { (run.long ≤ result.long) × (result.long ≤ run.long + length bytes.now) }
    ensures copied { Copied run line.old (take (result.long - run.long) bytes.now) result line.new }
{
    let mut long = run.long;
    for b in bytes {
        if *b == b'\n' || long == MOST {
            break;
        }
        line[long] = *b;
        long += 1;
    }
    Run { long, ..run }
}

// Line 1: the head that it sets, and an empty tree.
fn read_first(run: Run, bytes: &[u8], floats: &mut [f64], links: &mut [u32]) -> Run
    requires { (5950 ≤ length floats.old) × (6175 ≤ length links.old) × Stands Stages.First run floats.old links.old }
    ensures { LineRead (printed_of Stages.First run floats.old links.old) bytes.now result
        floats.new links.new }
{
    let Some(h) = first_line(bytes) else {
        return bad(run, reasons::first(bytes));
    };
    Run {
        head: create(h, floats, links),
        stage: Stage::Rows,
        number: 2,
        long: 0,
    }
}

// A row of the line that is being read, into the tree, unless that is full. The tree is known to pass the check, so the call that
// checks it again for each row is passed by.
fn insert(
    run: Run,
    row: &[f64],
    floats: &mut [f64],
    links: &mut [u32],
    scratch: &mut [f64],
    numbers: &mut [u32],
) -> Run
    requires room { Room 200 (length floats.old) (length links.old) (length scratch.old) (length numbers.old) }
    requires stands { Stands Stages.Rows run floats.old links.old × (length row.now ≡ run.head.dim) }
    ensures { Inserts run floats.old links.old row.now result floats.new links.new }
{
    if run.number > Head::MOST_ROWS + 1 {
        return bad(run, Reason::Full);
    }
    let head = change(
        run.head,
        floats,
        links,
        scratch,
        numbers,
        row,
        1,
        Work::Insert,
    );
    Run {
        head,
        stage: Stage::Rows,
        number: run.number + 1,
        long: 0,
    }
}

// A row's line.
fn read_row(
    run: Run,
    bytes: &[u8],
    floats: &mut [f64],
    links: &mut [u32],
    scratch: &mut [f64],
    numbers: &mut [u32],
) -> Run
    requires room { Room 200 (length floats.old) (length links.old) (length scratch.old) (length numbers.old) }
    requires stands { Stands Stages.Rows run floats.old links.old }
    ensures { LineRead (printed_of Stages.Rows run floats.old links.old) bytes.now result
        floats.new links.new }
{
    let mut row = [0.0; 8];
    let dim = run.head.dim;
    let RowLine::Row = row_line(bytes, dim, &mut row) else {
        return bad(run, reasons::row(bytes));
    };
    insert(run, &row[0..dim], floats, links, scratch, numbers)
}

// The line that is being read is whole.
pub fn end_line(
    run: Run,
    line: &[u8],
    floats: &mut [f64],
    links: &mut [u32],
    scratch: &mut [f64],
    numbers: &mut [u32],
) -> Run
    requires room { Room (length line.now) (length floats.old) (length links.old) (length scratch.old) (length numbers.old) }
    requires reading { Reading run floats.old links.old }
    ensures { LineRead (printed_of run.stage run floats.old links.old) (take run.long line.now) result
        floats.new links.new }
{
    let bytes = &line[..run.long];
    match run.stage {
        Stage::First => read_first(run, bytes, floats, links),
        Stage::Rows => read_row(run, bytes, floats, links, scratch, numbers),
        Stage::Bad(why) => bad(run, why),
    }
}

// One byte more of the input.
fn byte(
    run: Run,
    b: u8,
    line: &mut [u8],
    floats: &mut [f64],
    links: &mut [u32],
    scratch: &mut [f64],
    numbers: &mut [u32],
) -> Run
    requires room { Room (length line.old) (length floats.old) (length links.old) (length scratch.old) (length numbers.old) }
    requires reading { Reading run floats.old links.old }
    ensures reading_2 { Reading result floats.new links.new }
    ensures reads { Reads (printed run line.old floats.old links.old) (b ∷ [])
        (printed result line.new floats.new links.new) }
{
    if b == b'\n' {
        return end_line(run, line, floats, links, scratch, numbers);
    }
    push(run, b, line)
}

// A run, and how many bytes it has read.
#[derive(Clone, Copy)]
pub struct Step {
    pub run: Run,
    pub read: usize,
}

// Bytes of a line, and what ends it.
pub fn piece(
    run: Run,
    bytes: &[u8],
    line: &mut [u8],
    floats: &mut [f64],
    links: &mut [u32],
    scratch: &mut [f64],
    numbers: &mut [u32],
) -> Step
    requires room { Room (length line.old) (length floats.old) (length links.old) (length scratch.old) (length numbers.old) }
    requires reading { Reading run floats.old links.old × (0 < length bytes.now) }
    ensures read_nonzero { (0 < result.read) × (result.read ≤ length bytes.now) × Reading result.run floats.new links.new }
    ensures reads { Reads (printed run line.old floats.old links.old) (take result.read bytes.now)
        (printed result.run line.new floats.new links.new) }
{
    let next = copy(run, bytes, line);
    let n = next.long - run.long;
    if n == bytes.len() {
        return Step { run: next, read: n };
    }
    let end = byte(next, bytes[n], line, floats, links, scratch, numbers);
    Step {
        run: end,
        read: n + 1,
    }
}
