// The calls that only read the tree.
ghost use Rattle.std.specs.Prelude.{◌≡◌};
ghost use Rattle.rules.specs.Calls.{routed, spread_written, validated, entries_shown};
ghost use Rattle.boundary.specs.Numbers.{head_of, answer_numbers};
ghost use Rattle.export.specs.Seen.{listed_numbers, written, written_numbers};

use crate::ListingNumbers;
use crate::given::listing_numbers;
use boundary::given::{answer_numbers, head_of};
use boundary::{AnswerNumbers, HeadNumbers};
use cftree::look;

// Whether the tree could be worked with.
#[unsafe(no_mangle)]
pub extern "C" fn cftree_validate(h: HeadNumbers, floats: &[f64], links: &[u32]) -> AnswerNumbers
    ensures { result ≡ answer_numbers (validated (head_of h) floats.now links.now) }
{
    let h = head_of(h);
    let answer = look::validate(h, floats, links);
    answer_numbers(answer)
}

// Where a caller reads the weight, the means and the deviations of each entry, in order.
#[unsafe(no_mangle)]
pub extern "C" fn cftree_entries(h: HeadNumbers, floats: &[f64], links: &[u32]) -> ListingNumbers
    ensures { result ≡ listed_numbers (entries_shown (head_of h) floats.now links.now) }
{
    let h = head_of(h);
    let listing = look::entries(h, floats, links);
    listing_numbers(listing)
}

// The entry number of each row, to the front of the output.
#[unsafe(no_mangle)]
pub extern "C" fn cftree_route(
    h: HeadNumbers,
    floats: &[f64],
    links: &[u32],
    rows: &[f64],
    out: &mut [u32],
) -> AnswerNumbers
    ensures { written result out.new
        ≡ written_numbers (routed (head_of h) floats.now links.now rows.now out.old) }
{
    let h = head_of(h);
    let answer = look::route(h, floats, links, rows, out);
    answer_numbers(answer)
}

// The spread of each entry, dim numbers an entry, to the front of the output.
#[unsafe(no_mangle)]
pub extern "C" fn cftree_spread(
    h: HeadNumbers,
    floats: &[f64],
    links: &[u32],
    out: &mut [f64],
) -> AnswerNumbers
    ensures { written result out.new ≡ written_numbers (spread_written (head_of h) floats.now links.now out.old) }
{
    let h = head_of(h);
    let answer = look::spread(h, floats, links, out);
    answer_numbers(answer)
}
