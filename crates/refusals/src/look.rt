// The refusals of routing and of the spread.
ghost use Rattle.std.specs.Prelude.{◌≡◌, ◌++◌};
ghost use Rattle.rules.specs.Calls.{answer_of, empty_refusal, output_refusal, route_refusals, spread_refusals};
ghost use Rattle.refusals.specs.Lending.{AnyTree};

use crate::{change, lent};
use head::Head;
use head::refusal::{Answer, Refusal};

// 5 for so many rows and entries.
fn empty(entries: usize, rows: usize) -> Answer
    ensures { AnyTree entries (λ t. result ≡ answer_of (empty_refusal t rows)) }
{
    if rows == 0 {
        return Ok(());
    }
    if entries == 0 {
        return Err(Refusal::Empty);
    }
    Ok(())
}

// 7 for so many numbers to an output that is so long.
fn output(numbers: usize, long: usize) -> Answer
    ensures { result ≡ answer_of (output_refusal numbers long) }
{
    if long < numbers {
        return Err(Refusal::Output);
    }
    Ok(())
}

// 5 and 7 for so many rows.
#[tactic(auto, using(crate::specs::Each::refused_first, crate::specs::Each::others_answer))]
fn routes(entries: usize, rows: usize, long: usize) -> Answer
    ensures { AnyTree entries (λ t. result ≡ answer_of (empty_refusal t rows ++ output_refusal rows long)) }
{
    empty(entries, rows)?;
    output(rows, long)
}

// Rows routed to an output.
pub fn route(h: Head, floats: &[f64], links: &[u32], rows: &[f64], out: &[u32]) -> Answer
    ensures { result ≡ answer_of (route_refusals h floats.now links.now rows.now out.now) }
{
    lent::look(h, floats, links)?;
    change::shape(h.dim, rows.len())?;
    routes(h.counters.entries, rows.len() / h.dim, out.len())
}

// The spread of every entry to an output.
pub fn spread(h: Head, floats: &[f64], links: &[u32], out: &[f64]) -> Answer
    ensures { result ≡ answer_of (spread_refusals h floats.now links.now out.now) }
{
    lent::look(h, floats, links)?;
    output(h.counters.entries * h.dim, out.len())
}
