// An empty tree in the needed fronts.
ghost use Rattle.std.specs.Prelude.{◌≡◌, [], length};
ghost use Rattle.head.specs.Limits.{Sized};
ghost use Rattle.head.specs.Sizes.{floats_needed, links_needed};
ghost use Rattle.rules.specs.Tree.{fresh};
ghost use Rattle.rules.specs.Calls.{made_by};
ghost use Rattle.fronts.specs.Fronts.{TreeLeft};
ghost use Rattle.fronts.specs.Whole.{head_made};
ghost use Rattle.rules.specs.CallLaws.{Granted};

use crate::tidy::tidy;
use head::{Counters, Head, Settings};

// In slices that are as long as needed.
fn empty(s: Settings, threshold: f64, floats: &mut [f64], links: &mut [u32]) -> Counters
    requires { Sized s × (length floats.old ≡ floats_needed s) × (length links.old ≡ links_needed s) }
    ensures { TreeLeft s (fresh threshold) result floats.new links.new }
{
    let n = Counters::new(threshold);
    let m = reinsert::clear(s, n, floats, links);
    tidy(s, m, floats, links);
    m
}

// In the front of any that are long enough; gives the head.
pub fn create(h: Head, floats: &mut [f64], links: &mut [u32]) -> Head
    requires { Granted h floats.old links.old }
    ensures { head_made result floats.new links.new ≡ made_by [] h floats.old links.old }
{
    let s = h.settings();
    let threshold = h.counters.running.threshold;
    let f = s.floats_needed();
    let l = s.links_needed();
    let n = empty(s, threshold, &mut floats[0..f], &mut links[0..l]);
    h.with_counters(n)
}
