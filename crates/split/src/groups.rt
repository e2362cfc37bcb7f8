// The two groups of a node's list.
ghost use Rattle.std.specs.Prelude.{◌<◌, length};
ghost use Rattle.rules.specs.Slices.{tree_of};
ghost use Rattle.arena.specs.Trees.{Floats, Links};
ghost use Rattle.halves.specs.Halves.{Grouped};
ghost use Rattle.split.specs.Rising.{Splits};

use arena::links;
use halves::seeds::seeds_of;
use halves::{Halves, halves_of};
use head::{Counters, Settings};

// The two groups of node i's list.
pub fn groups(s: Settings, n: Counters, floats: &[f64], links: &[u32], i: usize) -> Halves
    requires floats { Floats s n (length floats.now) × Links s n (length links.now) × (i < n.nodes) }
    requires splits { Splits s n (tree_of s n floats.now links.now) i }
    ensures { Grouped s (tree_of s n floats.now links.now) i result }
{
    let leaf = links::is_leaf(s, n, links, i);
    let list = links::list(s, n, links, i);
    let w = seeds_of(s, n, floats, leaf, list);
    halves_of(s, n, floats, leaf, list, w)
}
