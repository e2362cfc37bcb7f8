// The refusals of one row, of a batch and of a refit.
ghost use Rattle.std.specs.Prelude.{◌≡◌, ◌++◌, ◌≤◌, ◌<◌, length};
ghost use Rattle.binary64.specs.Whole.{most};
ghost use Rattle.head.specs.Heads.{settings_of};
ghost use Rattle.rules.specs.Check.{total_of};
ghost use Rattle.rules.specs.Calls.{answer_of, batch_shape_refusal, insert_full_refusal, refit_full_refusal, change_refusals, rows_asked, row_refusals, batch_refusals, refit_refusals};
ghost use Rattle.arena.specs.Trees.{AnyLinks, Floats};
ghost use Rattle.lists.specs.Lent.{EntriesCount};
ghost use Rattle.refusals.specs.Lending.{lending, AnyTree};

use crate::lent;
use head::refusal::{Answer, Refusal};
use head::{Counters, Head, Settings};

// 4 for a batch of so many numbers.
pub fn shape(dim: usize, numbers: usize) -> Answer
    requires { 0 < dim }
    ensures { result ≡ answer_of (batch_shape_refusal dim numbers) }
{
    let rest = numbers % dim;
    if rest != 0 {
        return Err(Refusal::Shape(dim, rest));
    }
    Ok(())
}

// 6 for an insert of so many rows.
fn full(s: Settings, n: Counters, floats: &[f64], rows: usize) -> Answer
    requires { Floats s n (length floats.now) × EntriesCount s n floats.now × AnyLinks s n floats.now (λ t. total_of t.entries ≤ most) }
    ensures { AnyLinks s n floats.now (λ t. result ≡ answer_of (insert_full_refusal t rows)) }
{
    let total = weights::total(s, n, floats);
    if rows as u64 > Head::MOST_ROWS - total {
        return Err(Refusal::Full);
    }
    Ok(())
}

// 6 for a refit by so many rows of a tree with so many entries.
fn refit_full(entries: usize, rows: usize) -> Answer
    ensures { AnyTree entries (λ t. result ≡ answer_of (refit_full_refusal t rows)) }
{
    if entries == 0 {
        return Ok(());
    }
    if rows as u64 > Head::MOST_ROWS {
        return Err(Refusal::Full);
    }
    Ok(())
}

// One row.
pub fn row(
    h: Head,
    floats: &[f64],
    links: &[u32],
    scratch: &[f64],
    numbers: &[u32],
    row: &[f64],
) -> Answer
    ensures { result ≡ answer_of (
        row_refusals h (lending floats.now links.now scratch.now numbers.now) row.now) }
{
    lent::change(h, floats, links, scratch, numbers)?;
    let s = h.settings();
    if row.len() != s.dim {
        return Err(Refusal::Shape(s.dim, row.len()));
    }
    full(s, h.counters, floats, 1)
}

// The rows of a batch or a refit, before they are counted.
fn rows_asked(
    h: Head,
    floats: &[f64],
    links: &[u32],
    scratch: &[f64],
    numbers: &[u32],
    rows: &[f64],
) -> Answer
    ensures { result ≡ answer_of (
        change_refusals h (lending floats.now links.now scratch.now numbers.now)
        ++ rows_asked (settings_of h) rows.now) }
{
    lent::change(h, floats, links, scratch, numbers)?;
    shape(h.dim, rows.len())
}

// A batch of rows.
pub fn batch(
    h: Head,
    floats: &[f64],
    links: &[u32],
    scratch: &[f64],
    numbers: &[u32],
    rows: &[f64],
) -> Answer
    ensures { result ≡ answer_of (
        batch_refusals h (lending floats.now links.now scratch.now numbers.now) rows.now) }
{
    rows_asked(h, floats, links, scratch, numbers, rows)?;
    full(h.settings(), h.counters, floats, rows.len() / h.dim)
}

// The rows of a refit.
pub fn refit(
    h: Head,
    floats: &[f64],
    links: &[u32],
    scratch: &[f64],
    numbers: &[u32],
    rows: &[f64],
) -> Answer
    ensures { result ≡ answer_of (
        refit_refusals h (lending floats.now links.now scratch.now numbers.now) rows.now) }
{
    rows_asked(h, floats, links, scratch, numbers, rows)?;
    refit_full(h.counters.entries, rows.len() / h.dim)
}
