// A case asked, and its answer printed.
ghost use Rattle.std.specs.Prelude.{◌≡◌, length};

use crate::cases::{Call, Change, Look};
use crate::lending;
use crate::lending::Case;
use crate::printing::Shown;
use cftree::{change, look};
use head::Head;
use head::refusal::Answer;
use std::fmt::InlineText;
use std::io;

// The bits of all numbers, folded: other numbers give another fold, as good as always.
fn fold_floats(start: u64, l: &[f64]) -> u64 {
    let mut fold = start;
    for x in l {
        fold = (fold << 1 | fold >> 63) ^ binary64::bits_of(*x);
    }
    fold
}

fn fold_links(start: u64, l: &[u32]) -> u64 {
    let mut fold = start;
    for x in l {
        fold = (fold << 1 | fold >> 63) ^ u64::from(*x);
    }
    fold
}

fn fold(floats: &[f64], links: &[u32], scratch: &[f64], numbers: &[u32]) -> u64 {
    fold_links(
        fold_links(fold_floats(fold_floats(1, floats), scratch), links),
        numbers,
    )
}

fn ask_change(
    call: Change,
    h: Head,
    floats: &mut [f64],
    links: &mut [u32],
    scratch: &mut [f64],
    numbers: &mut [u32],
    rows: &[f64],
) -> Answer {
    match call {
        Change::Create => change::create(h, floats, links)?,
        Change::InsertRow => change::insert_row(h, floats, links, scratch, numbers, rows)?,
        Change::InsertBatch => change::insert_batch(h, floats, links, scratch, numbers, rows)?,
        Change::Refit => change::refit(h, floats, links, scratch, numbers, rows)?,
    };
    Ok(())
}

fn ask_look(
    call: Look,
    h: Head,
    floats: &[f64],
    links: &[u32],
    rows: &[f64],
    routes: &mut [u32],
    spreads: &mut [f64],
) -> Answer {
    match call {
        Look::Route => look::route(h, floats, links, rows, routes),
        Look::Validate => look::validate(h, floats, links),
        Look::Entries => look::entries(h, floats, links).map(|_| ()),
        Look::Spread => look::spread(h, floats, links, spreads),
    }
}

// The answer, with '!' where what was lent to a refused call is not as it was; nothing follows the last column.
fn print_kept(rt: &impl Print, c: Case, a: Answer, before: u64, after: u64) -> io::Result<()> {
    let mark = if a.is_err() && before != after {
        "!"
    } else {
        ""
    };
    let text = InlineText::<48>::of(format_args!("{}{mark}", Shown(a)));
    let text = text.as_str();
    if c.inside.is_none() {
        print!(rt; "{text:<18}")
    } else {
        print!(rt; "{text}")
    }
}

// The case, on a tree made for it, with scratch that is not zero.
pub fn print_case(rt: &impl Print, c: Case) -> io::Result<()> {
    let mut floats = [0.0; 85];
    let mut links = [0u32; 57];
    let mut scratch = [0.0; 34];
    let mut numbers = [0u32; 6];
    let rows = [1.5; 8];
    let one = lending::dim(c);
    let made = lending::tree(
        c,
        &mut floats,
        &mut links,
        &mut scratch,
        &mut numbers,
        &rows[0..one],
    );
    scratch[0] = 2.5;
    numbers[0] = 9;
    let h = lending::lent_head(c, made);
    match c.call {
        Call::Change(call) => print_change(
            rt,
            c,
            call,
            h,
            &mut floats,
            &mut links,
            &mut scratch,
            &mut numbers,
            &rows,
        ),
        Call::Look(call) => print_look(rt, c, call, h, &floats, &links, &rows),
    }
}

fn print_change(
    rt: &impl Print,
    c: Case,
    call: Change,
    h: Head,
    floats: &mut [f64],
    links: &mut [u32],
    scratch: &mut [f64],
    numbers: &mut [u32],
    rows: &[f64],
) -> io::Result<()>
    requires { (length floats.old ≡ 85) × (length links.old ≡ 57) × (length scratch.old ≡ 34) × (length rows.now ≡ 8) }
{
    let before = fold(floats, links, scratch, numbers);
    let f = lending::floats_lent(c);
    let l = lending::links_lent(c);
    let s = lending::scratch_lent(c);
    let r = lending::numbers_of_rows(c);
    let a = ask_change(
        call,
        h,
        &mut floats[0..f],
        &mut links[0..l],
        &mut scratch[0..s],
        numbers,
        &rows[0..r],
    );
    let after = fold(floats, links, scratch, numbers);
    print_kept(rt, c, a, before, after)
}

// To outputs that are not zero.
fn print_look(
    rt: &impl Print,
    c: Case,
    call: Look,
    h: Head,
    floats: &[f64],
    links: &[u32],
    rows: &[f64],
) -> io::Result<()>
    requires { (length floats.now ≡ 85) × (length links.now ≡ 57) × (length rows.now ≡ 8) }
{
    let mut routes = [7u32; 1];
    let mut spreads = [7.5; 8];
    let before = fold_links(fold_floats(1, &spreads), &routes);
    let f = lending::floats_lent(c);
    let l = lending::links_lent(c);
    let r = lending::numbers_of_rows(c);
    let o = lending::routes_lent(c);
    let p = lending::spreads_lent(c);
    let a = ask_look(
        call,
        h,
        &floats[0..f],
        &links[0..l],
        &rows[0..r],
        &mut routes[0..o],
        &mut spreads[0..p],
    );
    let after = fold_links(fold_floats(1, &spreads), &routes);
    print_kept(rt, c, a, before, after)
}
