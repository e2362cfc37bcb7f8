// Where a caller reads the entries.
ghost use Rattle.std.specs.Prelude.{◌≡◌, []};
ghost use Rattle.head.specs.Heads.{settings_of};
ghost use Rattle.head.specs.Limits.{Sized};
ghost use Rattle.rules.specs.Calls.{shown_by};

use head::Head;
use rules::Places;

// The entries' slots stand behind those of the nodes.
pub fn places(h: Head) -> Places
    requires { Sized (settings_of h) }
    ensures { result ≡ (shown_by [] h).places }
{
    let s = h.settings();
    let width = s.slot_width();
    let feature = s.feature;
    Places {
        entries: h.counters.entries,
        first: s.node_cap() * width,
        width,
        means: s.dim,
        deviations: feature::slots(feature, s.dim),
    }
}
