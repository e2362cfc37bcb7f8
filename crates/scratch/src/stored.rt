// Pairs in scratch: pair k has its cost at place k of the floats, and its two entries at places 3k and 3k + 1 of the numbers.
ghost use Rattle.std.specs.Prelude.{◌≡◌, ◌+◌, length};
ghost use Rattle.scratch.specs.Stored.{pair_at, PairFits, Room, Put};

use rules::Pair;

// Pair k.
#[tactic(auto, unfolding(crate::specs::Stored::pair_at, crate::specs::Stored::PairFits))]
pub fn pair(costs: &[f64], numbers: &[u32], k: usize) -> Pair
    requires { Room (k + 1) (length costs.now) (length numbers.now) }
    ensures { (result ≡ pair_at costs.now numbers.now k) × PairFits result }
{
    let at = 3 * k;
    Pair {
        cost: costs[k],
        one: numbers[at] as usize,
        two: numbers[at + 1] as usize,
    }
}

// Pair k becomes p.
#[tactic(auto, unfolding(crate::specs::Stored::PairFits))]
pub fn put(costs: &mut [f64], numbers: &mut [u32], k: usize, p: Pair)
    requires { Room (k + 1) (length costs.old) (length numbers.old) × PairFits p }
    ensures { Put k p costs.old numbers.old costs.new numbers.new }
{
    let at = 3 * k;
    costs[k] = p.cost;
    numbers[at] = p.one as u32;
    numbers[at + 1] = p.two as u32;
}
