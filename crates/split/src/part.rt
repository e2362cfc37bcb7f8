// The two halves of a node, written.
ghost use Rattle.std.specs.Prelude.{◌≡◌, ℕ, ◌+◌, ◌<◌, ◌≤◌, length, get_or};
ghost use Rattle.feature.specs.Shape.{Shaped};
ghost use Rattle.head.specs.Sizes.{node_cap, block_width};
ghost use Rattle.head.specs.Counting.{count_nodes};
ghost use Rattle.rules.specs.Slices.{tree_of, no_parent};
ghost use Rattle.arena.specs.Trees.{LinksTo, Floats, Links, on_node};
ghost use Rattle.split.specs.Parts.{refilled, adopted_by, HalvesIn, halved};

use crate::gather::gather;
use arena::{links, nodes};
use feature::Summary;
use halves::Halves;
use head::{Counters, Settings};

// The summary of node i becomes c, and its list another.
fn refill(
    s: Settings,
    n: Counters,
    floats: &mut [f64],
    links: &mut [u32],
    i: usize,
    c: Summary,
    list: &[u32],
)
    requires floats { Floats s n (length floats.old) × Links s n (length links.old) × (i < n.nodes) × Shaped s.feature s.dim c }
    requires len_bound { length list.now + 2 ≤ block_width s }
    ensures { tree_of s n floats.new links.new
        ≡ on_node (refilled c list.now) i (tree_of s n floats.old links.old) }
{
    nodes::put(s, n, floats, i, c);
    links::set_list(s, n, links, i, list);
}

// Node i with the first half, and a new node with the second, under the same parent.
pub fn part(
    s: Settings,
    n: Counters,
    floats: &mut [f64],
    links: &mut [u32],
    i: usize,
    h: Halves,
) -> Counters
    requires floats { Floats s n (length floats.old) × Links s n (length links.old) × (i < n.nodes) × (n.nodes < node_cap s) }
    requires halves_in { HalvesIn s n (tree_of s n floats.old links.old) i h }
    ensures value { result ≡ count_nodes (n.nodes + 1) n }
    ensures links_after { tree_of s result floats.new links.new ≡ halved s i h (tree_of s n floats.old links.old) }
{
    let leaf = links::is_leaf(s, n, links, i);
    let parent = links::parent(s, n, links, i);
    let one = &h.one[..h.ones];
    let two = &h.two[..h.twos];
    let a = gather(s, n, floats, leaf, one);
    let b = gather(s, n, floats, leaf, two);
    refill(s, n, floats, links, i, a, one);
    nodes::append(s, n, floats, links, b, parent, leaf, two)
}

// The nodes that a list names are told that p is their parent.
pub fn adopt(s: Settings, n: Counters, links: &mut [u32], list: &[u32], p: usize)
    requires links { Links s n (length links.old) × (p < no_parent) }
    requires k_bound { (k : ℕ) → k < length list.now → get_or list.now k 0 < n.nodes }
    ensures { LinksTo s n links.old n links.new (adopted_by p list.now) }
{
    for c in list {
        links::set_parent(s, n, links, *c as usize, p);
    }
}
