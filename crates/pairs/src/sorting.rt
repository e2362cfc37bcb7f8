// Pairs by cost, ties in the order in which they stand.
ghost use Rattle.std.specs.Prelude.{◌≡◌, ◌<◌, length};
ghost use Rattle.rules.specs.Pairs.{sorted};
ghost use Rattle.pairs.specs.Sorting.{inserted_from};
ghost use Rattle.scratch.specs.Stored.{Room, pair_at, pairs_in};

use scratch::stored;

// Pair i goes behind the cheaper ones of those after it, which are sorted.
fn sort_in(costs: &mut [f64], numbers: &mut [u32], i: usize, count: usize)
    requires { Room count (length costs.old) (length numbers.old) × (i < count) }
    ensures { pairs_in costs.new numbers.new count
        ≡ inserted_from (pair_at costs.old numbers.old i) i (pairs_in costs.old numbers.old count) }
{
    let p = stored::pair(costs, numbers, i);
    for at in i..count - 1 {
        let q = stored::pair(costs, numbers, at + 1);
        if q.cost < p.cost {
            stored::put(costs, numbers, at, q);
        } else {
            stored::put(costs, numbers, at, p);
            return;
        }
    }
    stored::put(costs, numbers, count - 1, p);
}

// The first `count` pairs, sorted.
pub fn sort(costs: &mut [f64], numbers: &mut [u32], count: usize)
    requires { Room count (length costs.old) (length numbers.old) }
    ensures { pairs_in costs.new numbers.new count ≡ sorted (pairs_in costs.old numbers.old count) }
{
    for i in (0..count).rev() {
        sort_in(costs, numbers, i, count);
    }
}
