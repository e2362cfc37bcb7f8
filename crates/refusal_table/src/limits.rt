// Document 01's readings at the limits: the last row that fits, and the largest M.
use crate::printing::Shown;
use cftree::change;
use head::Head;
use head::refusal::Answer;
use std::io;

// A line: the call and its answer.
fn print_reading(rt: &impl Print, call: &str, a: Answer) -> io::Result<()> {
    println!(rt; "{call:<36}{}", Shown(a))
}

// A tree of total 2^53 − 1: one row is accepted, and the next is FULL.
fn print_total(rt: &impl Print) -> io::Result<()> {
    let mut floats = [0.0; 15];
    let mut links = [0u32; 15];
    let mut scratch = [0.0; 6];
    let mut numbers = [0u32; 6];
    let row = [0.0; 1];
    let h = Head::new(1, 2, 1, 1, 0, 0, 0, 0.0);
    let h = change::create(h, &mut floats, &mut links).unwrap_or(h);
    let h = change::insert_row(
        h,
        &mut floats,
        &mut links,
        &mut scratch,
        &mut numbers,
        &row,
    ).unwrap_or(h);
    floats[0] = 9007199254740991.0;
    floats[9] = 9007199254740991.0;
    let last = change::insert_row(h, &mut floats, &mut links, &mut scratch, &mut numbers, &row);
    let over = change::insert_row(
        last.unwrap_or(h),
        &mut floats,
        &mut links,
        &mut scratch,
        &mut numbers,
        &row,
    );
    print_reading(rt, "a row into a tree of 2^53 - 1 rows", last.map(|_| ()))?;
    print_reading(rt, "a row into a tree of 2^53 rows", over.map(|_| ()))
}

// M 256 in slices just as long as it needs, and M 257.
fn print_most(rt: &impl Print) -> io::Result<()> {
    let mut floats = [0.0; 100230];
    let mut links = [0u32; 165765];
    let most = Head::new(1, 2, 1, 256, 0, 0, 0, 0.0);
    let over = Head::new(1, 2, 1, 257, 0, 0, 0, 0.0);
    let made = change::create(most, &mut floats, &mut links);
    let refused = change::create(over, &mut floats, &mut links);
    print_reading(rt, "a tree of M 256", made.map(|_| ()))?;
    print_reading(rt, "a tree of M 257", refused.map(|_| ()))
}

pub fn print_limits(rt: &impl Print) -> io::Result<()> {
    println!(rt; "\nAt the limits")?;
    println!(rt; "{:<36}answer", "call")?;
    print_total(rt)?;
    print_most(rt)
}
