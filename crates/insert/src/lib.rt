// Rows into the tree, one after the other, with a rebuild whenever entries exceed M.
#![tactic(auto)]

ghost use Rattle.std.specs.Prelude.{◌≡◌, ◌*◌, ◌≤◌, length};
ghost use Rattle.rules.specs.Lists.{rows_of};
ghost use Rattle.rules.specs.Slices.{tree_of};
ghost use Rattle.arena.specs.Trees.{Floats, Links};
ghost use Rattle.scratch.specs.Stored.{Scratch};
ghost use Rattle.insert.specs.Resting.{Resting};
ghost use Rattle.rules.specs.Rows.{inserted, inserted_all};

use grow::grow;
use head::{Counters, Settings};
use rebuild::rebuild;
use rows::row;

// One row.
pub fn insert(
    s: Settings,
    n: Counters,
    floats: &mut [f64],
    links: &mut [u32],
    scratch: &mut [f64],
    numbers: &mut [u32],
    row: &[f64],
) -> Counters
    requires floats { Floats s n (length floats.old) × Links s n (length links.old) × Scratch s (length scratch.old) (length numbers.old) }
    requires dim_in_bounds { (s.dim ≤ length row.now) × Resting s 1 (tree_of s n floats.old links.old) }
    ensures floats_2 { Floats s result (length floats.old) × Links s result (length links.old) }
    ensures links_after { tree_of s result floats.new links.new ≡ inserted s row.now (tree_of s n floats.old links.old) }
{
    let m = grow(s, n, floats, links, row);
    if s.max_leaves < m.entries {
        return rebuild(s, m, floats, links, scratch, numbers);
    }
    m
}

// The first `count` rows of a batch.
pub fn insert_all(
    s: Settings,
    n: Counters,
    floats: &mut [f64],
    links: &mut [u32],
    scratch: &mut [f64],
    numbers: &mut [u32],
    rows: &[f64],
    count: usize,
) -> Counters
    requires floats { Floats s n (length floats.old) × Links s n (length links.old) × Scratch s (length scratch.old) (length numbers.old) }
    requires dim_in_bounds { (count * s.dim ≤ length rows.now) × Resting s count (tree_of s n floats.old links.old) }
    ensures floats_2 { Floats s result (length floats.old) × Links s result (length links.old) }
    ensures links_after { tree_of s result floats.new links.new
        ≡ inserted_all s (rows_of count s.dim rows.now) (tree_of s n floats.old links.old) }
{
    let mut m = n;
    for k in 0..count {
        m = insert(s, m, floats, links, scratch, numbers, row(s, rows, k));
    }
    m
}
