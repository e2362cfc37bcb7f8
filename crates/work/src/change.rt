// A call's work in the front of any slices that are long enough.
ghost use Rattle.std.specs.Prelude.{◌≡◌, ◌*◌, ◌≤◌, length};
ghost use Rattle.head.specs.Heads.{settings_of};
ghost use Rattle.rules.specs.Lists.{rows_of};
ghost use Rattle.rules.specs.Calls.{changed, lent_tree};
ghost use Rattle.rules.specs.CallLaws.{Ready};
ghost use Rattle.refusals.specs.Lending.{lending};
ghost use Rattle.work.specs.Worked.{worked, Workable};
ghost use Rattle.work.specs.Whole.{head_left};

use crate::{Work, perform_tidily};
use head::Head;

// The first `count` rows worked into the tree that is lent; gives the head.
pub fn change(
    h: Head,
    floats: &mut [f64],
    links: &mut [u32],
    scratch: &mut [f64],
    numbers: &mut [u32],
    rows: &[f64],
    count: usize,
    w: Work,
) -> Head
    requires ready { Ready h (lending floats.old links.old scratch.old numbers.old) × (count * (settings_of h).dim ≤ length rows.now) }
    requires workable { Workable w (settings_of h) count (lent_tree h floats.old links.old) }
    ensures { head_left result floats.new links.new scratch.new numbers.new
        ≡ changed h (lending floats.old links.old scratch.old numbers.old)
        (worked w (settings_of h) (rows_of count (settings_of h).dim rows.now) (lent_tree h floats.old links.old)) }
{
    let s = h.settings();
    let f = s.floats_needed();
    let l = s.links_needed();
    let sf = s.scratch_floats_needed();
    let sl = s.scratch_links_needed();
    let n = perform_tidily(
        s,
        h.counters,
        &mut floats[0..f],
        &mut links[0..l],
        &mut scratch[0..sf],
        &mut numbers[0..sl],
        rows,
        count,
        w,
    );
    h.with_counters(n)
}
