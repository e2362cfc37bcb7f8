// The fold of a list by halves, in scratch.
ghost use Rattle.std.specs.Prelude.{◌≡◌, map, ◌+◌, ◌*◌, ◌≤◌, ◌<◌, length};
ghost use Rattle.head.specs.Sizes.{slot_width, entry_cap};
ghost use Rattle.rules.specs.Tree.{child, merge, node_at};
ghost use Rattle.rules.specs.Slices.{tree_of};
ghost use Rattle.rules.specs.Refold.{fold_balanced, refold_one};
ghost use Rattle.arena.specs.Numbered.{SlotIn, summary_at};
ghost use Rattle.arena.specs.Trees.{AnyLinks, Floats, Links, ChildIn, ChildrenIn};
ghost use Rattle.refold.specs.Folds.{Folded};
ghost use Rattle.refold.specs.Links.{Stands};

use arena::{children, links, nodes, slots};
use head::{Counters, Settings};

// What a number names is copied to slot `at` of scratch.
fn copy(
    s: Settings,
    n: Counters,
    floats: &[f64],
    leaf: bool,
    c: usize,
    scratch: &mut [f64],
    at: usize,
)
    requires { Floats s n (length floats.now) × ChildIn n leaf c × SlotIn s at (length scratch.old) }
    ensures { AnyLinks s n floats.now (λ t. Folded s at scratch.old scratch.new (child t leaf c)) }
{
    let x = children::summary(s, n, floats, leaf, c);
    slots::store(s, scratch, at, x);
}

// The summary in slot `from` of scratch is merged into that in slot `at`.
fn join(s: Settings, scratch: &mut [f64], at: usize, from: usize)
    requires { SlotIn s at (length scratch.old) × SlotIn s from (length scratch.old) }
    ensures { Folded s at scratch.old scratch.new (merge s (summary_at s scratch.old at) (summary_at s scratch.old from)) }
{
    let c = slots::load(s, scratch, from);
    slots::merge(s, scratch, at, c);
}

// The fold of a list, in slot `at` of scratch, with the slots behind it to work in: a list of one is copied, a longer one folds its
// front half and its back half separately and merges them.
pub fn fold_balanced(
    s: Settings,
    n: Counters,
    floats: &[f64],
    leaf: bool,
    list: &[u32],
    scratch: &mut [f64],
    at: usize,
)
    requires floats { Floats s n (length floats.now) × ChildrenIn n leaf list.now × (0 < length list.now) }
    requires s_in_bounds { (at + length list.now) * slot_width s ≤ length scratch.old }
    ensures { AnyLinks s n floats.now (λ t.
        Folded s at scratch.old scratch.new (fold_balanced s (length list.now) (map (child t leaf) list.now))) }
{
    let len = list.len();
    if len == 1 {
        copy(s, n, floats, leaf, list[0] as usize, scratch, at);
        return;
    }
    let h = len / 2;
    fold_balanced(s, n, floats, leaf, &list[..h], scratch, at);
    fold_balanced(s, n, floats, leaf, &list[h..], scratch, at + h);
    join(s, scratch, at, at + h);
}

// Node i made anew from its list.
pub fn refold_node(
    s: Settings,
    n: Counters,
    floats: &mut [f64],
    links: &[u32],
    i: usize,
    scratch: &mut [f64],
)
    requires floats { Floats s n (length floats.old) × Links s n (length links.now) × Stands s n links.now × (i < n.nodes) }
    requires list_nonzero { (0 < length (node_at (tree_of s n floats.old links.now) i).list) × (entry_cap s * slot_width s ≤ length scratch.old) }
    ensures { tree_of s n floats.new links.now ≡ refold_one s i (tree_of s n floats.old links.now) }
{
    let leaf = links::is_leaf(s, n, links, i);
    let list = links::list(s, n, links, i);
    fold_balanced(s, n, floats, leaf, list, scratch, 0);
    let c = slots::load(s, scratch, 0);
    nodes::put(s, n, floats, i, c);
}
