// The slices of an accepted call: what the tree does not need, and scratch, become 0.
ghost use Rattle.std.specs.Prelude.{length};
ghost use Rattle.rules.specs.Slices.{tree_of};
ghost use Rattle.fronts.specs.Fronts.{TreeFronts, Fronts, TreeLeft, AllLeft};

use arena::clear;
use head::{Counters, Settings};
use stretch::{block, slot};

// The tree's own slices.
pub fn tidy(s: Settings, n: Counters, floats: &mut [f64], links: &mut [u32])
    requires { TreeFronts s n (length floats.old) (length links.old) }
    ensures { TreeLeft s (tree_of s n floats.old links.old) n floats.new links.new }
{
    clear::floats(s, n, floats);
    clear::links(s, n, links);
}

// The same, and scratch.
pub fn tidy_all(
    s: Settings,
    n: Counters,
    floats: &mut [f64],
    links: &mut [u32],
    scratch: &mut [f64],
    numbers: &mut [u32],
)
    requires { Fronts s n (length floats.old) (length links.old) (length scratch.old) (length numbers.old) }
    ensures { AllLeft s (tree_of s n floats.old links.old) n
        floats.new links.new scratch.new numbers.new }
{
    tidy(s, n, floats, links);
    slot::zero(scratch);
    block::zero(numbers);
}
