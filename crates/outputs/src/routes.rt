// One entry number a row.
ghost use Rattle.std.specs.Prelude.{◌≡◌, map, ◌*◌, ◌≤◌, ◌<◌, length};
ghost use Rattle.rules.specs.Lists.{rows_of};
ghost use Rattle.rules.specs.Slices.{tree_of};
ghost use Rattle.rules.specs.Calls.{fronted};
ghost use Rattle.arena.specs.Trees.{Floats, Links};
ghost use Rattle.route.specs.Routing.{Routable};
ghost use Rattle.rules.specs.Route.{greedy};

use head::{Counters, Settings};
use route::route;
use rows::row;

// The first `count` rows routed; without rows the tree may have no entries.
pub fn write_routes(
    s: Settings,
    n: Counters,
    floats: &[f64],
    links: &[u32],
    rows: &[f64],
    count: usize,
    out: &mut [u32],
)
    requires floats { Floats s n (length floats.now) × Links s n (length links.now) × (count * s.dim ≤ length rows.now) × (count ≤ length out.old) }
    requires routable { 0 < count → Routable s (tree_of s n floats.now links.now) }
    ensures { out.new ≡ fronted
        (map (greedy s (tree_of s n floats.now links.now)) (rows_of count s.dim rows.now)) out.old }
{
    for k in 0..count {
        out[k] = route(s, n, floats, links, row(s, rows, k)) as u32;
    }
}
