// The calls that change the tree: each gives the head to keep, or the refusal after which the caller's own head stands.
ghost use Rattle.std.specs.Prelude.{◌≡◌};
ghost use Rattle.rules.specs.Calls.{created, row_inserted, batch_inserted, batch_refitted};
ghost use Rattle.refusals.specs.Lending.{lending};
ghost use Rattle.cftree.specs.Outcomes.{made, left};

use head::Head;
use head::refusal::Refusal;
use refusals::lent;
use work::Work;
use work::change::change;

// Creation of an empty tree with the head's settings and threshold.
pub fn create(h: Head, floats: &mut [f64], links: &mut [u32]) -> Result<Head, Refusal>
    ensures { made h result floats.new links.new ≡ created h floats.old links.old }
{
    lent::create(h, floats, links)?;
    Ok(fronts::create::create(h, floats, links))
}

// One row into the tree.
pub fn insert_row(
    h: Head,
    floats: &mut [f64],
    links: &mut [u32],
    scratch: &mut [f64],
    numbers: &mut [u32],
    row: &[f64],
) -> Result<Head, Refusal>
    ensures { left h result floats.new links.new scratch.new numbers.new
        ≡ row_inserted h (lending floats.old links.old scratch.old numbers.old) row.now }
{
    refusals::change::row(h, floats, links, scratch, numbers, row)?;
    Ok(change(h, floats, links, scratch, numbers, row, 1, Work::Insert))
}

// A batch of rows into the tree, one after the other: all of them or none.
pub fn insert_batch(
    h: Head,
    floats: &mut [f64],
    links: &mut [u32],
    scratch: &mut [f64],
    numbers: &mut [u32],
    rows: &[f64],
) -> Result<Head, Refusal>
    ensures { left h result floats.new links.new scratch.new numbers.new
        ≡ batch_inserted h (lending floats.old links.old scratch.old numbers.old) rows.now }
{
    refusals::change::batch(h, floats, links, scratch, numbers, rows)?;
    Ok(change(
        h,
        floats,
        links,
        scratch,
        numbers,
        rows,
        rows.len() / h.dim,
        Work::Insert,
    ))
}

// The entries made anew from the rows that are routed to them.
pub fn refit(
    h: Head,
    floats: &mut [f64],
    links: &mut [u32],
    scratch: &mut [f64],
    numbers: &mut [u32],
    rows: &[f64],
) -> Result<Head, Refusal>
    ensures { left h result floats.new links.new scratch.new numbers.new
        ≡ batch_refitted h (lending floats.old links.old scratch.old numbers.old) rows.now }
{
    refusals::change::refit(h, floats, links, scratch, numbers, rows)?;
    Ok(change(
        h,
        floats,
        links,
        scratch,
        numbers,
        rows,
        rows.len() / h.dim,
        Work::Refit,
    ))
}
