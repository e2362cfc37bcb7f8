// The path from a leaf up to the root.
ghost use Rattle.std.specs.Prelude.{◌≡◌, ◌<◌, length};
ghost use Rattle.rules.specs.Slices.{tree_of};
ghost use Rattle.rules.specs.Descent.{along_path};
ghost use Rattle.arena.specs.Trees.{Floats, Links};
ghost use Rattle.laws.specs.ForCode.{Sure};
ghost use Rattle.descent.specs.Forms.{FormFits, item_of};

use crate::form;
use crate::form::Lent;
use arena::links;
use head::{Counters, Settings};

// An item goes into every node from a leaf up to the root.
pub fn feed_path(
    s: Settings,
    n: Counters,
    floats: &mut [f64],
    links: &[u32],
    leaf: usize,
    item: Lent,
)
    requires floats { Floats s n (length floats.old) × Links s n (length links.now) × FormFits s item }
    requires sure { Sure s (tree_of s n floats.old links.now) × (leaf < n.nodes) }
    ensures { tree_of s n floats.new links.now
        ≡ along_path (item_of s item.entry).taken leaf (tree_of s n floats.old links.now) }
{
    let mut i = leaf;
    for _ in 0..n.nodes {
        form::feed(s, n, floats, i, item);
        let Some(p) = links::parent(s, n, links, i) else {
            return;
        };
        i = p;
    }
}
