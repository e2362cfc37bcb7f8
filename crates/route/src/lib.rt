// Greedy routing: down to a leaf, and the closest of its entries.
#![tactic(auto)]

ghost use Rattle.std.specs.Prelude.{◌≡◌, true, ◌≤◌, ◌<◌, length};
ghost use Rattle.rules.specs.Tree.{dist_to, entry_at};
ghost use Rattle.rules.specs.Slices.{tree_of};
ghost use Rattle.rules.specs.Descent.{closest};
ghost use Rattle.arena.specs.Trees.{AnyLinks, Floats, Links, ChildrenIn};
ghost use Rattle.route.specs.Routing.{Routable};
ghost use Rattle.rules.specs.Route.{greedy};

use arena::{entries, links};
use descent::descend;
use descent::form::Lent;
use head::{Counters, Settings};

// The entry of a list that is closest to a row: the first, then any later one strictly closer.
fn closest_entry(s: Settings, n: Counters, floats: &[f64], list: &[u32], row: &[f64]) -> usize
    requires { Floats s n (length floats.now) × (s.dim ≤ length row.now) × (0 < length list.now) × ChildrenIn n true list.now }
    ensures any_links { AnyLinks s n floats.now (λ t. result ≡ closest (λ e. dist_to s (entry_at t e) row.now) list.now) }
    ensures upper_bound { result < n.entries }
{
    let dist = s.dist;
    let mut best = list[0] as usize;
    let mut least = entries::to_row(s, n, floats, best, dist, row);
    for e in &list[1..] {
        let e = *e as usize;
        let d = entries::to_row(s, n, floats, e, dist, row);
        if d < least {
            least = d;
            best = e;
        }
    }
    best
}

// The entry that a row is routed to. A row with no distance below infinity goes to the first of its leaf's list.
pub fn route(s: Settings, n: Counters, floats: &[f64], links: &[u32], row: &[f64]) -> usize
    requires floats { Floats s n (length floats.now) × Links s n (length links.now) × (s.dim ≤ length row.now) }
    requires routable { Routable s (tree_of s n floats.now links.now) }
    ensures value { result ≡ greedy s (tree_of s n floats.now links.now) row.now }
    ensures upper_bound { result < n.entries }
{
    let leaf = descend(s, n, floats, links, Lent::Row(row));
    closest_entry(s, n, floats, links::list(s, n, links, leaf), row)
}
