// The tree check: document 01's eight conditions in their order, with no mark on any node and no write to what is lent.
#![tactic(auto)]

ghost use Rattle.std.specs.Prelude.{◌≡◌, true, ◌≤◌, length};
ghost use Rattle.head.specs.Limits.{Sized};
ghost use Rattle.head.specs.Sizes.{floats_needed, links_needed};
ghost use Rattle.rules.specs.Check.{rooted, checked};
ghost use Rattle.rules.specs.Slices.{tree_of};
ghost use Rattle.arena.specs.Trees.{AnyFloats, Links};
ghost use Rattle.lists.specs.Lent.{ListsFit};
ghost use Rattle.validate.specs.Examined.{walked_once};

use head::refusal::Condition;
use head::{Counters, Settings};
use tour::depths::Depths;

// Condition 4: the walk's depths, where it met every node once by the parent it names and came back, and every entry is in one leaf
// list, once.
fn walk_once(s: Settings, n: Counters, links: &[u32]) -> Option<Depths>
    requires { Links s n (length links.now) × ListsFit s n links.now × (n.entries ≤ 256) × AnyFloats s n links.now (λ t. rooted t ≡ true) }
    ensures { AnyFloats s n links.now (λ t. result ≡ walked_once t) }
{
    if once::once_each(s, n, links) {
        tour::walk(s, n, links)
    } else {
        None
    }
}

// The tree check: that the tree passes, or the lowest condition that fails. It writes nothing.
pub fn validate(s: Settings, n: Counters, floats: &[f64], links: &[u32]) -> Result<(), Condition>
    requires { Sized s × (floats_needed s ≤ length floats.now) × (links_needed s ≤ length links.now) }
    ensures { result ≡ checked s (tree_of s n floats.now links.now) }
{
    if !lists::rooted::sized(s, n) {
        return Err(Condition::Counts);
    }
    if !lists::rooted::rooted(s, n, links) {
        return Err(Condition::Root);
    }
    if !lists::lists_fit(s, n, links) {
        return Err(Condition::Lists);
    }
    let Some(depths) = walk_once(s, n, links) else {
        return Err(Condition::Links);
    };
    if !lists::filled(s, n, links) {
        return Err(Condition::Filled);
    }
    if !depths.level() {
        return Err(Condition::Level);
    }
    if !weights::summed(s, n, floats, links) {
        return Err(Condition::Weights);
    }
    if n.running.merged >= s.max_leaves {
        return Err(Condition::Merged);
    }
    Ok(())
}
