// The rebuild, when entries exceed M: merges until the target, the grown threshold, the merged ones dropped, reinsertion where it is due,
// and every node made anew.
#![tactic(auto)]

ghost use Rattle.std.specs.Prelude.{◌≡◌, ◌||◌, ◌+◌, ◌-◌, ◌≤◌, leb, length};
ghost use Rattle.head.specs.Limits.{Sized};
ghost use Rattle.head.specs.Sizes.{entry_cap};
ghost use Rattle.rules.specs.Slices.{tree_of};
ghost use Rattle.rules.specs.Rebuild.{target, dropped, rebalanced, compacted, one_more, rebuilt};
ghost use Rattle.laws.specs.Rebuilding.Merge.{Every};
ghost use Rattle.laws.specs.Rebuilding.Cousins.{FarPair};
ghost use Rattle.arena.specs.Trees.{Floats, Links};
ghost use Rattle.scratch.specs.Stored.{Scratch, pairs_in};
ghost use Rattle.scratch.specs.Flags.{alive_in};
ghost use Rattle.rebuild.specs.Counted.{merged_counts, counted_up};
ghost use Rattle.rebuild.specs.Rebuilding.{Compactable, Mergeable, Rebuildable};
ghost use Rattle.rebuild.specs.Merges.{AllMerged, compacted_by};

use head::{Counters, Settings};
use merging::dropping::drop_merged;
use merging::merges::Merges;
use merging::{merges, threshold};
use pairs::cousins::cousin_pairs;
use pairs::siblings::sibling_pairs;
use pairs::sorting::sort;
use refold::refold;
use reinsert::reinsert;

// How many merges bring so many entries to the target, max(M − M/10, 1): the first is the larger for every M.
fn wanted(s: Settings, entries: usize) -> usize
    requires { Sized s × (s.max_leaves ≤ entries) }
    ensures { result ≡ entries - target s.max_leaves }
{
    let m = s.max_leaves;
    entries - (m - m / 10)
}

// The counters after the merges: the threshold grown, the merged total with them.
fn merged(n: Counters, w: Merges) -> Counters
    requires { n.running.merged + w.count ≤ 4294967296 }
    ensures { result ≡ merged_counts w n }
{
    let threshold = threshold::grown(n.running.threshold, w.widest);
    n.with_threshold(threshold)
        .with_merged(n.running.merged + w.count)
}

// Whether all entries are due to be placed again: cousins were used, or the merged total reaches M.
fn due(s: Settings, n: Counters, across: bool) -> bool
    ensures { result ≡ (across || leb s.max_leaves n.running.merged) }
{
    across || s.max_leaves <= n.running.merged
}

// The merged-away entries dropped, and all others placed again where it is due.
fn compact(
    s: Settings,
    n: Counters,
    floats: &mut [f64],
    links: &mut [u32],
    scratch: &mut [f64],
    numbers: &mut [u32],
    across: bool,
) -> Counters
    requires floats { Floats s n (length floats.old) × Links s n (length links.old) × Scratch s (length scratch.old) (length numbers.old) }
    requires compactable { Compactable s n (alive_in numbers.old n.entries) (tree_of s n floats.old links.old) }
    ensures floats_2 { Floats s result (length floats.old) × Links s result (length links.old) }
    ensures links_after { tree_of s result floats.new links.new
        ≡ rebalanced s across (dropped (alive_in numbers.old n.entries) (tree_of s n floats.old links.old)) }
{
    let m = drop_merged(s, n, floats, links, numbers);
    if due(s, m, across) {
        return reinsert(s, m.with_merged(0), floats, links, scratch, numbers);
    }
    m
}

// The pairs in scratch merged by cost, until the target is reached.
fn merge_cheapest(
    s: Settings,
    n: Counters,
    floats: &mut [f64],
    scratch: &mut [f64],
    numbers: &mut [u32],
    pairs: usize,
) -> Merges
    requires floats { Floats s n (length floats.old) × Scratch s (length scratch.old) (length numbers.old) × (pairs ≤ entry_cap s) }
    requires max_leaves_bound { (s.max_leaves ≤ n.entries) × Every (FarPair n.entries) (pairs_in scratch.old numbers.old pairs) }
    ensures { AllMerged s n (pairs_in scratch.old numbers.old pairs) result floats.old floats.new numbers.new }
{
    sort(scratch, numbers, pairs);
    merges::revive(numbers, n.entries);
    merges::merge_pairs(s, n, floats, numbers, pairs, wanted(s, n.entries))
}

// The pairs in scratch merged, and what follows from it; nothing if there is nothing to merge.
fn merge_by(
    s: Settings,
    n: Counters,
    floats: &mut [f64],
    links: &mut [u32],
    scratch: &mut [f64],
    numbers: &mut [u32],
    pairs: usize,
    across: bool,
) -> Counters
    requires floats { Floats s n (length floats.old) × Links s n (length links.old) × Scratch s (length scratch.old) (length numbers.old) }
    requires mergeable { Mergeable s pairs (pairs_in scratch.old numbers.old pairs) (tree_of s n floats.old links.old) }
    ensures floats_2 { Floats s result (length floats.old) × Links s result (length links.old) }
    ensures links_after { tree_of s result floats.new links.new
        ≡ compacted_by s across (pairs_in scratch.old numbers.old pairs) (tree_of s n floats.old links.old) }
{
    let w = merge_cheapest(s, n, floats, scratch, numbers, pairs);
    if w.count == 0 {
        return n;
    }
    compact(s, merged(n, w), floats, links, scratch, numbers, across)
}

// Siblings are merged, or only if no leaf has two entries, cousins.
fn merge(
    s: Settings,
    n: Counters,
    floats: &mut [f64],
    links: &mut [u32],
    scratch: &mut [f64],
    numbers: &mut [u32],
) -> Counters
    requires floats { Floats s n (length floats.old) × Links s n (length links.old) × Scratch s (length scratch.old) (length numbers.old) }
    requires rebuildable { Rebuildable s (tree_of s n floats.old links.old) }
    ensures floats_2 { Floats s result (length floats.old) × Links s result (length links.old) }
    ensures links_after { tree_of s result floats.new links.new
        ≡ compacted s (tree_of s n floats.old links.old) }
{
    let near = sibling_pairs(s, n, floats, links, scratch, numbers);
    if near > 0 {
        return merge_by(s, n, floats, links, scratch, numbers, near, false);
    }
    let far = cousin_pairs(s, n, floats, links, scratch, numbers);
    merge_by(s, n, floats, links, scratch, numbers, far, true)
}

// One rebuild more: the u64 count stops at its top value.
fn one_more(rebuilds: u64) -> u64
    ensures { result ≡ one_more rebuilds }
{
    rebuilds.saturating_add(1)
}

// The counters after the rebuild.
#[tactic(auto, unfolding(crate::specs::Counted::counted_up, head::specs::Counting::count_running, head::specs::Counting::with_rebuilds))]
fn counted(n: Counters) -> Counters
    ensures { result ≡ counted_up n }
{
    n.with_rebuilds(one_more(n.running.rebuilds))
}

// The whole rebuild.
pub fn rebuild(
    s: Settings,
    n: Counters,
    floats: &mut [f64],
    links: &mut [u32],
    scratch: &mut [f64],
    numbers: &mut [u32],
) -> Counters
    requires floats { Floats s n (length floats.old) × Links s n (length links.old) × Scratch s (length scratch.old) (length numbers.old) }
    requires rebuildable { Rebuildable s (tree_of s n floats.old links.old) }
    ensures floats_2 { Floats s result (length floats.old) × Links s result (length links.old) }
    ensures links_after { tree_of s result floats.new links.new ≡ rebuilt s (tree_of s n floats.old links.old) }
{
    let m = merge(s, n, floats, links, scratch, numbers);
    refold(s, m, floats, links, scratch);
    counted(m)
}
