// Outcomes and listings as numbers.
ghost use Rattle.std.specs.Prelude.{◌≡◌};
ghost use Rattle.export.specs.Given.{outcome_numbers};
ghost use Rattle.export.specs.Seen.{listing_numbers};

use crate::{ListingNumbers, OutcomeNumbers};
use boundary::given::{answer_numbers, head_numbers};
use head::Head;
use head::refusal::Refusal;
use rules::Places;

// Where a call is refused, the head that was lent stands.
#[tactic(auto, unfolding(crate::specs::Given::outcome_numbers))]
pub fn outcome_numbers(h: Head, outcome: Result<Head, Refusal>) -> OutcomeNumbers
    ensures { result ≡ outcome_numbers h outcome }
{
    let (head, answer) = match outcome {
        Ok(g) => (g, Ok(())),
        Err(r) => (h, Err(r)),
    };
    OutcomeNumbers {
        head: head_numbers(head),
        answer: answer_numbers(answer),
    }
}

// Where the listing is refused, there are no places.
#[tactic(auto, unfolding(crate::specs::Seen::listed_numbers))]
pub fn listing_numbers(listing: Result<Places, Refusal>) -> ListingNumbers
    ensures { result ≡ listing_numbers listing }
{
    match listing {
        Ok(p) => ListingNumbers {
            answer: answer_numbers(Ok(())),
            entries: p.entries as u64,
            first: p.first as u64,
            width: p.width as u64,
            means: p.means as u64,
            deviations: p.deviations as u64,
        },
        Err(r) => ListingNumbers {
            answer: answer_numbers(Err(r)),
            entries: 0,
            first: 0,
            width: 0,
            means: 0,
            deviations: 0,
        },
    }
}
