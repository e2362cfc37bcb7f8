// The refold: each node's summary made anew from its list, children before their parents.
#![tactic(auto)]

pub mod fold;
pub mod walk;

ghost use Rattle.std.specs.Prelude.{◌≡◌, ◌*◌, ◌≤◌, length};
ghost use Rattle.head.specs.Sizes.{slot_width, entry_cap};
ghost use Rattle.rules.specs.Slices.{tree_of};
ghost use Rattle.rules.specs.Refold.{refolded};
ghost use Rattle.arena.specs.Trees.{Floats, Links};
ghost use Rattle.laws.specs.ForCode.{Standing};
ghost use Rattle.refold.specs.Refolding.{Filled};

use crate::fold::refold_node;
use arena::links;
use head::{Counters, Settings};

// Every node made anew, from the last in preorder back to the root.
pub fn refold(s: Settings, n: Counters, floats: &mut [f64], links: &[u32], scratch: &mut [f64])
    requires floats { Floats s n (length floats.old) × Links s n (length links.now) × (entry_cap s * slot_width s ≤ length scratch.old) }
    requires standing { Standing s (tree_of s n floats.old links.now) × Filled (tree_of s n floats.old links.now) }
    ensures { tree_of s n floats.new links.now ≡ refolded s (tree_of s n floats.old links.now) }
{
    let mut i = walk::last(s, n, links, n.root);
    for _ in 0..n.nodes {
        refold_node(s, n, floats, links, i, scratch);
        let Some(p) = links::parent(s, n, links, i) else {
            return;
        };
        i = walk::before(s, n, links, p, i);
    }
}
