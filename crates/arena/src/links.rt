// The links of the tree's nodes, said of the tree that the slices hold.
ghost use Rattle.std.specs.Prelude.{◌≡◌, ◌+◌, ◌≤◌, ◌<◌, length, get_or};
ghost use Rattle.head.specs.Sizes.{block_width};
ghost use Rattle.rules.specs.Tree.{node_at, adding, with_list, under};
ghost use Rattle.rules.specs.Slices.{block_at, no_parent};
ghost use Rattle.stretch.specs.Blocks.{ParentFits, relinked};
ghost use Rattle.arena.specs.Numbered.{BlockIn, Relinked};
ghost use Rattle.arena.specs.Trees.{AnyFloats, LinksTo, Links, on_node};

use head::{Counters, Settings};
use stretch::block;

// The links of block i.
fn part(s: Settings, links: &[u32], i: usize) -> &[u32]
    requires { BlockIn s i (length links.now) }
    ensures { result.now ≡ block_at s links.now i }
{
    let w = s.block_width();
    let at = i * w;
    &links[at..at + w]
}

// Whether node i is a leaf.
pub fn is_leaf(s: Settings, n: Counters, links: &[u32], i: usize) -> bool
    requires { Links s n (length links.now) × (i < n.nodes) }
    ensures { AnyFloats s n links.now (λ t. result ≡ (node_at t i).leaf) }
{
    block::is_leaf(s, part(s, links, i))
}

// The parent of node i, if it has one.
pub fn parent(s: Settings, n: Counters, links: &[u32], i: usize) -> Option<usize>
    requires { Links s n (length links.now) × (i < n.nodes) }
    ensures { AnyFloats s n links.now (λ t. result ≡ (node_at t i).parent) }
{
    block::parent_of(s, part(s, links, i))
}

// The length of node i's list.
pub fn list_len(s: Settings, n: Counters, links: &[u32], i: usize) -> usize
    requires { Links s n (length links.now) × (i < n.nodes) }
    ensures { AnyFloats s n links.now (λ t. result ≡ length (node_at t i).list) }
{
    block::list_len(s, part(s, links, i))
}

// Node i's list.
pub fn list(s: Settings, n: Counters, links: &[u32], i: usize) -> &[u32]
    requires { Links s n (length links.now) × (i < n.nodes) }
    ensures { AnyFloats s n links.now (λ t. result.now ≡ (node_at t i).list) }
{
    block::list(s, part(s, links, i))
}

// The number at place k of node i's list.
pub fn list_at(s: Settings, n: Counters, links: &[u32], i: usize, k: usize) -> usize
    requires { Links s n (length links.now) × (i < n.nodes) × AnyFloats s n links.now (λ t. k < length (node_at t i).list) }
    ensures { AnyFloats s n links.now (λ t. result ≡ get_or (node_at t i).list k 0) × (result < 4294967296) }
{
    block::list_at(s, part(s, links, i), k)
}

// The links of block i: a parent, a kind and a list.
pub fn link(
    s: Settings,
    links: &mut [u32],
    i: usize,
    parent: Option<usize>,
    leaf: bool,
    list: &[u32],
)
    requires { BlockIn s i (length links.old) × ParentFits parent × (length list.now + 2 ≤ block_width s) }
    ensures { Relinked s (relinked parent leaf list.now) i links.old links.new }
{
    let w = s.block_width();
    let at = i * w;
    block::link(s, parent, leaf, list, &mut links[at..at + w]);
}

// A list becomes node i's.
pub fn set_list(s: Settings, n: Counters, links: &mut [u32], i: usize, list: &[u32])
    requires { Links s n (length links.old) × (i < n.nodes) × (length list.now + 2 ≤ block_width s) }
    ensures { LinksTo s n links.old n links.new (on_node (with_list list.now) i) }
{
    let w = s.block_width();
    let at = i * w;
    block::set_list(s, list, &mut links[at..at + w]);
}

// Node i goes under node p.
pub fn set_parent(s: Settings, n: Counters, links: &mut [u32], i: usize, p: usize)
    requires { Links s n (length links.old) × (i < n.nodes) × (p < no_parent) }
    ensures { LinksTo s n links.old n links.new (on_node (under p) i) }
{
    let w = s.block_width();
    let at = i * w;
    block::set_parent(s, p, &mut links[at..at + w]);
}

// The number k goes last into node i's list, into the spare place at most.
pub fn append(s: Settings, n: Counters, links: &mut [u32], i: usize, k: usize)
    requires links { Links s n (length links.old) × (i < n.nodes) × (k < 4294967296) }
    requires any_floats { AnyFloats s n links.old (λ t. length (node_at t i).list + 2 < block_width s) }
    ensures { LinksTo s n links.old n links.new (on_node (adding k) i) }
{
    let w = s.block_width();
    let at = i * w;
    block::append(s, k, &mut links[at..at + w]);
}
