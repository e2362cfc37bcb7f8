// The partner that an entry names: the one that is cheapest to merge with it, the first on a tie.
ghost use Rattle.std.specs.Prelude.{◌≡◌, true, ◌++◌, ◌+◌, ◌≤◌, ◌<◌, length, Some};
ghost use Rattle.rules.specs.Pairs.{cost_of, cheaper, partner, pair_of};
ghost use Rattle.arena.specs.Trees.{AnyLinks, Floats, ChildrenIn};
ghost use Rattle.scratch.specs.Stored.{Room, pairs_in};
ghost use Rattle.pairs.specs.Partners.{partner_of, Inside};

use arena::entries;
use head::{Counters, Settings};
use rules::Pair;
use scratch::stored;

// A partner's number, and what the merge with it costs.
#[derive(Clone, Copy)]
pub struct Partner {
    pub number: usize,
    pub cost: f64,
}

// The partner so far, or another at a strictly lower cost.
#[tactic(auto, unfolding(rules::specs::Pairs::cheaper, rules::specs::Descent::closer))]
fn cheaper(best: Option<Partner>, other: Partner) -> Partner
    ensures { partner_of (Some result) ≡ cheaper (partner_of best) other.number other.cost }
{
    let Some(least) = best else {
        return other;
    };
    if other.cost < least.cost {
        other
    } else {
        least
    }
}

// The partner of entry i so far, or a cheaper one in a list.
pub fn cheapest(
    s: Settings,
    n: Counters,
    floats: &[f64],
    list: &[u32],
    i: usize,
    p: Option<Partner>,
) -> Option<Partner>
    requires { Floats s n (length floats.now) × ChildrenIn n true list.now × (i < n.entries) × Inside n.entries (partner_of p) }
    ensures any_links { AnyLinks s n floats.now (λ t. partner_of result ≡ partner (cost_of s t i) i (partner_of p) list.now) }
    ensures inside { Inside n.entries (partner_of result) }
{
    let mut best = p;
    for &number in list {
        let number = number as usize;
        if number != i {
            let cost = binary64::rank(entries::merge_cost(s, n, floats, i, number));
            best = Some(cheaper(best, Partner { number, cost }));
        }
    }
    best
}

// The pair that entry i makes with its partner, if it has one, goes behind so many pairs; says how many there are then.
pub fn push(
    costs: &mut [f64],
    numbers: &mut [u32],
    count: usize,
    i: usize,
    p: Option<Partner>,
) -> usize
    requires { Room (count + 1) (length costs.old) (length numbers.old) × (i < 4294967296) × Inside 4294967296 (partner_of p) }
    ensures result_after { pairs_in costs.new numbers.new result ≡ pairs_in costs.old numbers.old count ++ pair_of i (partner_of p) }
    ensures upper_bound { result ≤ count + 1 }
{
    let Some(Partner { number, cost }) = p else {
        return count;
    };
    let pair = Pair {
        cost,
        one: i,
        two: number,
    };
    stored::put(costs, numbers, count, pair);
    count + 1
}
