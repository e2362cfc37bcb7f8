// The search in a leaf.
ghost use Rattle.std.specs.Prelude.{◌≡◌, true, ◌≤◌, length};
ghost use Rattle.rules.specs.Tree.{dist_to, entry_at};
ghost use Rattle.rules.specs.Descent.{searched};
ghost use Rattle.arena.specs.Trees.{AnyLinks, Floats, ChildrenIn};
ghost use Rattle.descent.specs.Searched.{Inside};

use arena::entries;
use head::{Counters, Settings};

// The entry of a list that is nearest to a row, if any distance is below infinity.
pub fn search_leaf(
    s: Settings,
    n: Counters,
    floats: &[f64],
    list: &[u32],
    row: &[f64],
) -> Option<usize>
    requires { Floats s n (length floats.now) × (s.dim ≤ length row.now) × ChildrenIn n true list.now }
    ensures any_links { AnyLinks s n floats.now (λ t. result ≡ searched (λ e. dist_to s (entry_at t e) row.now) list.now) }
    ensures inside { Inside n.entries result }
{
    let dist = s.dist;
    let mut near = None;
    let mut least = 1.0 / 0.0;
    for c in list {
        let e = *c as usize;
        let d = entries::to_row(s, n, floats, e, dist, row);
        if d < least {
            least = d;
            near = Some(e);
        }
    }
    near
}
