// The calls that change the tree.
ghost use Rattle.std.specs.Prelude.{◌≡◌};
ghost use Rattle.rules.specs.Calls.{created, row_inserted, batch_inserted, batch_refitted};
ghost use Rattle.refusals.specs.Lending.{lending};
ghost use Rattle.boundary.specs.Numbers.{head_of};
ghost use Rattle.export.specs.Given.{numbers_made, made_numbers, numbers_left, left_numbers};

use crate::OutcomeNumbers;
use crate::given::outcome_numbers;
use boundary::HeadNumbers;
use boundary::given::head_of;
use cftree::change;

// Creation of an empty tree with the head's settings and threshold.
#[unsafe(no_mangle)]
pub extern "C" fn cftree_create(
    h: HeadNumbers,
    floats: &mut [f64],
    links: &mut [u32],
) -> OutcomeNumbers
    ensures { numbers_made result floats.new links.new ≡ made_numbers (created (head_of h) floats.old links.old) }
{
    let h = head_of(h);
    let outcome = change::create(h, floats, links);
    outcome_numbers(h, outcome)
}

// One row into the tree.
#[unsafe(no_mangle)]
pub extern "C" fn cftree_insert_row(
    h: HeadNumbers,
    floats: &mut [f64],
    links: &mut [u32],
    scratch: &mut [f64],
    numbers: &mut [u32],
    row: &[f64],
) -> OutcomeNumbers
    ensures { numbers_left result floats.new links.new scratch.new numbers.new
        ≡ left_numbers
        (row_inserted (head_of h) (lending floats.old links.old scratch.old numbers.old) row.now) }
{
    let h = head_of(h);
    let outcome = change::insert_row(h, floats, links, scratch, numbers, row);
    outcome_numbers(h, outcome)
}

// A batch of rows into the tree, one after the other: all of them or none.
#[unsafe(no_mangle)]
pub extern "C" fn cftree_insert_batch(
    h: HeadNumbers,
    floats: &mut [f64],
    links: &mut [u32],
    scratch: &mut [f64],
    numbers: &mut [u32],
    rows: &[f64],
) -> OutcomeNumbers
    ensures { numbers_left result floats.new links.new scratch.new numbers.new
        ≡ left_numbers
        (batch_inserted (head_of h) (lending floats.old links.old scratch.old numbers.old) rows.now) }
{
    let h = head_of(h);
    let outcome = change::insert_batch(h, floats, links, scratch, numbers, rows);
    outcome_numbers(h, outcome)
}

// The entries made anew from the rows that are routed to them.
#[unsafe(no_mangle)]
pub extern "C" fn cftree_refit(
    h: HeadNumbers,
    floats: &mut [f64],
    links: &mut [u32],
    scratch: &mut [f64],
    numbers: &mut [u32],
    rows: &[f64],
) -> OutcomeNumbers
    ensures { numbers_left result floats.new links.new scratch.new numbers.new
        ≡ left_numbers
        (batch_refitted (head_of h) (lending floats.old links.old scratch.old numbers.old) rows.now) }
{
    let h = head_of(h);
    let outcome = change::refit(h, floats, links, scratch, numbers, rows);
    outcome_numbers(h, outcome)
}
