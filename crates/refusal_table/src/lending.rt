// A call on a small tree of M 1, with one fault, with two, or at the edge of a limit.

ghost use Rattle.std.specs.Prelude.{◌≤◌};

use crate::cases::{Call, Fault};
use cftree::{change, look};
use head::Head;

// The call, up to two faults, and the refusal that it is just inside of.
#[derive(Clone, Copy)]
pub struct Case {
    pub call: Call,
    pub fault: Option<Fault>,
    pub other: Option<Fault>,
    pub inside: Option<Fault>,
}

impl Case {
    fn has(self, fault: Fault) -> bool {
        self.fault == Some(fault) || self.other == Some(fault)
    }

    fn is_inside(self, fault: Fault) -> bool {
        self.inside == Some(fault)
    }
}

// The head that the call is given: SETTINGS' fault is dim 9.
pub fn lent_head(c: Case, h: Head) -> Head {
    if c.has(Fault::Settings) {
        let wide = Head::new(9, 2, 1, 1, 0, 0, 0, 0.5);
        return wide.with_counters(h.counters);
    }
    h
}

// Dim 2; just inside SETTINGS every size and choice but M is at its upper limit.
fn head(c: Case) -> Head {
    if c.is_inside(Fault::Settings) {
        return Head::new(8, 16, 16, 1, 1, 5, 5, 1.7976931348623157e308);
    }
    Head::new(2, 2, 1, 1, 0, 0, 0, 0.5)
}

pub fn dim(c: Case) -> usize
    ensures { result ≤ 8 }
{
    if c.is_inside(Fault::Settings) { 8 } else { 2 }
}

// How long each slice is lent: as long as needed, or one number less.
pub fn floats_lent(c: Case) -> usize
    ensures { result ≤ 85 }
{
    if c.is_inside(Fault::Settings) {
        return 85;
    }
    if c.has(Fault::Room) { 24 } else { 25 }
}

pub fn links_lent(c: Case) -> usize
    ensures { result ≤ 57 }
{
    if c.is_inside(Fault::Settings) { 57 } else { 15 }
}

pub fn scratch_lent(c: Case) -> usize
    ensures { result ≤ 34 }
{
    if c.is_inside(Fault::Settings) { 34 } else { 10 }
}

// A row, or a number too many; just inside EMPTY no row at all.
pub fn numbers_of_rows(c: Case) -> usize
    ensures { result ≤ 8 }
{
    if c.is_inside(Fault::Settings) {
        return 8;
    }
    if c.is_inside(Fault::Empty) {
        return 0;
    }
    if c.has(Fault::Shape) { 3 } else { 2 }
}

// What routing and the spread write, or less.
pub fn routes_lent(c: Case) -> usize
    ensures { result ≤ 1 }
{
    if c.has(Fault::Output) { 0 } else { 1 }
}

pub fn spreads_lent(c: Case) -> usize
    ensures { result ≤ 8 }
{
    if c.is_inside(Fault::Settings) {
        return 8;
    }
    if c.has(Fault::Output) { 1 } else { 2 }
}

// Weight w for the root and the one entry.
fn weigh(h: Head, w: f64, floats: &mut [f64], links: &[u32]) {
    let Ok(places) = look::entries(h, floats, links) else {
        return;
    };
    let first = places.first;
    if first < floats.len() {
        floats[0] = w;
        floats[first] = w;
    }
}

// A root that weighs 5.
fn outweigh(floats: &mut [f64]) {
    if floats.len() > 0 {
        floats[0] = 5.0;
    }
}

// One row into the tree, unless it is to be empty.
fn grown(
    c: Case,
    h: Head,
    floats: &mut [f64],
    links: &mut [u32],
    scratch: &mut [f64],
    numbers: &mut [u32],
    row: &[f64],
) -> Head {
    if c.has(Fault::Empty) || c.is_inside(Fault::Empty) {
        return h;
    }
    change::insert_row(h, floats, links, scratch, numbers, row).unwrap_or(h)
}

// The weights that the fault or the edge asks for.
fn weighted(c: Case, h: Head, floats: &mut [f64], links: &[u32]) {
    if c.has(Fault::Tree) {
        outweigh(floats);
        return;
    }
    if c.has(Fault::Full) {
        weigh(h, 9007199254740992.0, floats, links);
        return;
    }
    if c.is_inside(Fault::Full) {
        weigh(h, 9007199254740991.0, floats, links);
    }
}

// The tree that is lent, and its head.
pub fn tree(
    c: Case,
    floats: &mut [f64],
    links: &mut [u32],
    scratch: &mut [f64],
    numbers: &mut [u32],
    row: &[f64],
) -> Head {
    let empty = head(c);
    let empty = change::create(empty, floats, links).unwrap_or(empty);
    let h = grown(c, empty, floats, links, scratch, numbers, row);
    weighted(c, h, floats, links);
    h
}
