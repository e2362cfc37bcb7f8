// The way of an item into the tree: down to a leaf, the search in it, and the path back up.
#![tactic(auto)]

pub mod form;
pub mod leaf;
pub mod nearest;
pub mod path;

ghost use Rattle.std.specs.Prelude.{◌≡◌, false, ◌<◌, length};
ghost use Rattle.rules.specs.Tree.{node_at};
ghost use Rattle.rules.specs.Slices.{tree_of};
ghost use Rattle.rules.specs.Descent.{closest, leaf_for};
ghost use Rattle.arena.specs.Trees.{AnyLinks, Floats, Links, ChildrenIn};
ghost use Rattle.laws.specs.ForCode.{Sure};
ghost use Rattle.descent.specs.Forms.{FormFits, item_of};

use crate::form::Lent;
use crate::nearest::nearest;
use arena::links;
use head::{Counters, Settings};

// The node of a list that is nearest to an item: the first, then any later one strictly closer.
pub fn nearest_child(s: Settings, n: Counters, floats: &[f64], list: &[u32], item: Lent) -> usize
    requires { Floats s n (length floats.now) × FormFits s item × (0 < length list.now) × ChildrenIn n false list.now }
    ensures any_links { AnyLinks s n floats.now (λ t. result ≡ closest (λ c. (item_of s item.entry).near (node_at t c).summary) list.now) }
    ensures upper_bound { result < n.nodes }
{
    nearest(list, |c| form::to_node(s, n, floats, c, item))
}

// From the root down to the leaf that an item belongs to.
fn go_down(s: Settings, n: Counters, floats: &[f64], links: &[u32], item: Lent) -> usize
    requires floats { Floats s n (length floats.now) × Links s n (length links.now) × FormFits s item }
    requires sure { Sure s (tree_of s n floats.now links.now) }
    ensures value { result ≡ leaf_for (tree_of s n floats.now links.now) (item_of s item.entry).near }
    ensures upper_bound { result < n.nodes }
{
    let mut i = n.root;
    for _ in 0..n.nodes {
        if links::is_leaf(s, n, links, i) {
            return i;
        }
        i = nearest_child(s, n, floats, links::list(s, n, links, i), item);
    }
    i
}

// The same, with floats and links lent anew: what is made here passes as numbers, and not through memory.
pub fn descend(s: Settings, n: Counters, floats: &[f64], links: &[u32], item: Lent) -> usize
    requires floats { Floats s n (length floats.now) × Links s n (length links.now) × FormFits s item }
    requires sure { Sure s (tree_of s n floats.now links.now) }
    ensures value { result ≡ leaf_for (tree_of s n floats.now links.now) (item_of s item.entry).near }
    ensures upper_bound { result < n.nodes }
{
    go_down(s, n, &floats[0..], &links[0..], item)
}
