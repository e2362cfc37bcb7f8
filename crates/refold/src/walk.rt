// The nodes in preorder, from the last to the first, by the links alone.
ghost use Rattle.std.specs.Prelude.{◌≡◌, false, ℕ, ◌<◌, length, get_or};
ghost use Rattle.rules.specs.Lists.{occurs};
ghost use Rattle.rules.specs.Tree.{node_at};
ghost use Rattle.arena.specs.Trees.{AnyFloats, Links};
ghost use Rattle.refold.specs.Walk.{last_under, node_before};
ghost use Rattle.refold.specs.Links.{Stands};

use arena::links;
use head::{Counters, Settings};

// The last node beneath node i: always the last of the list.
pub fn last(s: Settings, n: Counters, links: &[u32], i: usize) -> usize
    requires { Links s n (length links.now) × Stands s n links.now × (i < n.nodes) }
    ensures { AnyFloats s n links.now (λ t. result ≡ last_under t n.nodes i) }
{
    let mut at = i;
    for _ in 0..n.nodes {
        if links::is_leaf(s, n, links, at) {
            break;
        }
        let list = links::list(s, n, links, at);
        at = list[list.len() - 1] as usize;
    }
    at
}

// The node before node i in preorder, where p lists it: the last beneath the one before it in p's list, or p.
pub fn before(s: Settings, n: Counters, links: &[u32], p: usize, i: usize) -> usize
    requires links { Links s n (length links.now) × Stands s n links.now × (p < n.nodes) }
    requires any_floats { AnyFloats s n links.now (λ t. ((node_at t p).leaf ≡ false) × (0 < occurs i (node_at t p).list)) }
    ensures { AnyFloats s n links.now (λ t.
        (k : ℕ) → k < length (node_at t p).list → get_or (node_at t p).list k 0 ≡ i → result ≡ node_before t p k) }
{
    let list = links::list(s, n, links, p);
    let Some(k) = list.iter().position(|&k| k as usize == i) else {
        return p;
    };
    if k == 0 {
        return p;
    }
    last(s, n, links, list[k - 1] as usize)
}
