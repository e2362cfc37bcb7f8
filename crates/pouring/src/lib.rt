// Entries started afresh: each row pushed into the entry that it is routed to, on summaries in scratch while the tree stays as it is.
#![tactic(auto)]

ghost use Rattle.std.specs.Prelude.{◌≡◌, map, ◌+◌, ◌*◌, ◌≤◌, ◌<◌, length, replicate};
ghost use Rattle.feature.specs.Summaries.{blank};
ghost use Rattle.head.specs.Limits.{Sized};
ghost use Rattle.head.specs.Sizes.{entry_cap, slot_width};
ghost use Rattle.rules.specs.Lists.{every, rows_of};
ghost use Rattle.rules.specs.Tree.{entry_at, with_entries};
ghost use Rattle.rules.specs.Slices.{tree_of};
ghost use Rattle.rules.specs.Refit.{poured, reaccumulated, used};
ghost use Rattle.arena.specs.Trees.{AnyLinks, FloatsTo, Floats, Links};
ghost use Rattle.scratch.specs.Flags.{alive_in};
ghost use Rattle.scratch.specs.Slots.{slots_in};
ghost use Rattle.scratch.specs.Stored.{Scratch};
ghost use Rattle.route.specs.Routing.{Routable};
ghost use Rattle.pouring.specs.Used.{Flagged, Afresh};
ghost use Rattle.rules.specs.Route.{greedy};

use arena::{entries, slots};
use head::{Counters, Settings};
use route::route;
use rows::row;

// The first `count` summaries in scratch become empty ones.
fn empty_slots(s: Settings, scratch: &mut [f64], count: usize)
    requires { Sized s × (count ≤ entry_cap s) × (entry_cap s * slot_width s ≤ length scratch.old) }
    ensures { slots_in s scratch.new count ≡ replicate count blank }
{
    for i in 0..count {
        slots::store(s, scratch, i, feature::empty());
    }
}

// Each row goes into the summary in scratch that has the number of its entry.
fn pour_rows(
    s: Settings,
    n: Counters,
    floats: &[f64],
    links: &[u32],
    scratch: &mut [f64],
    rows: &[f64],
    count: usize,
)
    requires floats { Floats s n (length floats.now) × Links s n (length links.now) × (entry_cap s * slot_width s ≤ length scratch.old) }
    requires dim_in_bounds { (count * s.dim ≤ length rows.now) × Routable s (tree_of s n floats.now links.now) }
    ensures { slots_in s scratch.new n.entries
        ≡ poured s (greedy s (tree_of s n floats.now links.now)) (rows_of count s.dim rows.now)
        (slots_in s scratch.old n.entries) }
{
    for k in 0..count {
        let x = row(s, rows, k);
        let e = route(s, n, floats, links, x);
        slots::push(s, scratch, e, x);
    }
}

// The summaries in scratch become the entries started afresh.
fn pour(
    s: Settings,
    n: Counters,
    floats: &[f64],
    links: &[u32],
    scratch: &mut [f64],
    rows: &[f64],
    count: usize,
)
    requires floats { Floats s n (length floats.now) × Links s n (length links.now) × (entry_cap s * slot_width s ≤ length scratch.old) }
    requires dim_in_bounds { (count * s.dim ≤ length rows.now) × Routable s (tree_of s n floats.now links.now) }
    ensures { slots_in s scratch.new n.entries
        ≡ reaccumulated s (greedy s) (tree_of s n floats.now links.now) (rows_of count s.dim rows.now) }
{
    empty_slots(s, scratch, n.entries);
    pour_rows(s, n, floats, links, scratch, rows, count);
}

// The summaries in scratch become the entries.
fn put_back(s: Settings, n: Counters, floats: &mut [f64], scratch: &[f64])
    requires { Floats s n (length floats.old) × (entry_cap s * slot_width s ≤ length scratch.now) }
    ensures { FloatsTo s n floats.old n floats.new (with_entries (slots_in s scratch.now n.entries)) }
{
    for i in 0..n.entries {
        entries::put(s, n, floats, i, slots::load(s, scratch, i));
    }
}

// Whether entry i is used, its weight above 0; place 3i + 2 of the numbers says so from here on.
fn flag_used(s: Settings, n: Counters, floats: &[f64], numbers: &mut [u32], i: usize) -> bool
    requires { Floats s n (length floats.now) × (i < n.entries) × (3 * i + 2 < length numbers.old) }
    ensures { AnyLinks s n floats.now (λ t. result ≡ used (entry_at t i)) × Flagged i result numbers.old numbers.new }
{
    let at = 3 * i + 2;
    if 0.0 < entries::weight(s, n, floats, i) {
        numbers[at] = 1;
        return true;
    }
    numbers[at] = 0;
    false
}

// The numbers say which entries are used; says whether all are.
fn flag_all(s: Settings, n: Counters, floats: &[f64], numbers: &mut [u32]) -> bool
    requires { Floats s n (length floats.now) × (3 * n.entries ≤ length numbers.old) }
    ensures any_links { AnyLinks s n floats.now (λ t. alive_in numbers.new n.entries ≡ map used t.entries) }
    ensures value { result ≡ every (λ b. b) (alive_in numbers.new n.entries) }
{
    let mut all = true;
    for i in 0..n.entries {
        if !flag_used(s, n, floats, numbers, i) {
            all = false;
        }
    }
    all
}

// Each entry becomes the sum of the rows that are routed to it, and the numbers say which are used; says whether all are.
pub fn reaccumulate(
    s: Settings,
    n: Counters,
    floats: &mut [f64],
    links: &[u32],
    scratch: &mut [f64],
    numbers: &mut [u32],
    rows: &[f64],
    count: usize,
) -> bool
    requires floats { Floats s n (length floats.old) × Links s n (length links.now) × Scratch s (length scratch.old) (length numbers.old) }
    requires dim_in_bounds { (count * s.dim ≤ length rows.now) × Routable s (tree_of s n floats.old links.now) }
    ensures { Afresh s (rows_of count s.dim rows.now) (tree_of s n floats.old links.now)
        (tree_of s n floats.new links.now) (alive_in numbers.new n.entries) result }
{
    pour(s, n, floats, links, scratch, rows, count);
    put_back(s, n, floats, scratch);
    flag_all(s, n, floats, numbers)
}
