// The entries of a tree, from the first leaf to the last, copied to scratch.
ghost use Rattle.std.specs.Prelude.{◌≡◌, true, ◌++◌, map, ◌+◌, ◌*◌, ◌≤◌, length};
ghost use Rattle.head.specs.Sizes.{entry_cap, slot_width};
ghost use Rattle.rules.specs.Tree.{entry_at};
ghost use Rattle.rules.specs.Slices.{tree_of};
ghost use Rattle.laws.specs.ForCode.{Standing};
ghost use Rattle.arena.specs.Trees.{AnyLinks, Floats, Links, ChildrenIn};
ghost use Rattle.scratch.specs.Slots.{slots_in};
ghost use Rattle.reinsert.specs.Waiting.{waiting};
ghost use Rattle.reinsert.specs.Collect.{all_collected};

use arena::{entries, links, slots};
use head::{Counters, Settings};

// The entries of a list go behind so many summaries in scratch.
fn copy_entries(
    s: Settings,
    n: Counters,
    floats: &[f64],
    list: &[u32],
    scratch: &mut [f64],
    count: usize,
) -> usize
    requires floats { Floats s n (length floats.now) × ChildrenIn n true list.now }
    requires list_bound { (count + length list.now ≤ entry_cap s) × (entry_cap s * slot_width s ≤ length scratch.old) }
    ensures value { result ≡ count + length list.now }
    ensures any_links { AnyLinks s n floats.now (λ t.
        slots_in s scratch.new result ≡ slots_in s scratch.old count ++ map (entry_at t) list.now) }
{
    for (k, &i) in list.iter().enumerate() {
        let c = entries::summary(s, n, floats, i as usize);
        slots::store(s, scratch, count + k, c);
    }
    count + list.len()
}

// A list goes on top of a stack of so many, its first number uppermost: by places, since a copy turned round would call memmove,
// and the archive asks for memset and memcpy alone.
fn stack_list(list: &[u32], stack: &mut [u32], high: usize) -> usize
    requires { high + length list.now ≤ length stack.old }
    ensures { waiting stack.new result ≡ list.now ++ waiting stack.old high }
{
    let len = list.len();
    for k in 0..len {
        stack[high + k] = list[len - 1 - k];
    }
    high + len
}

// Depth first from the root, the nodes that wait on a stack in scratch; says how many entries there are.
pub fn collect(
    s: Settings,
    n: Counters,
    floats: &[f64],
    links: &[u32],
    scratch: &mut [f64],
    stack: &mut [u32],
) -> usize
    requires floats { Floats s n (length floats.now) × Links s n (length links.now) × Standing s (tree_of s n floats.now links.now) }
    requires s_in_bounds { (entry_cap s * slot_width s ≤ length scratch.old) × (entry_cap s ≤ length stack.old) }
    ensures { slots_in s scratch.new result ≡ all_collected (tree_of s n floats.now links.now) }
{
    stack[0] = n.root as u32;
    let mut high = 1;
    let mut count = 0;
    for _ in 0..n.nodes {
        if high == 0 {
            break;
        }
        high -= 1;
        let i = stack[high] as usize;
        let list = links::list(s, n, links, i);
        if links::is_leaf(s, n, links, i) {
            count = copy_entries(s, n, floats, list, scratch, count);
        } else {
            high = stack_list(list, stack, high);
        }
    }
    count
}
