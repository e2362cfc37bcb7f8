// How many words each lent buffer needs, by the settings in a head; 0 where the head is outside its limits.
ghost use Rattle.std.specs.Prelude.{◌≡◌, true, false};
ghost use Rattle.head.specs.Heads.{settings_of};
ghost use Rattle.head.specs.Limits.{Sized, allowed};
ghost use Rattle.head.specs.Sizes.{floats_needed, links_needed, scratch_floats_needed, scratch_links_needed};
ghost use Rattle.boundary.specs.Numbers.{head_of};
ghost use Rattle.export.specs.Given.{needed};

use boundary::HeadNumbers;
use boundary::given::head_of;
use head::Settings;

fn needed<F: FnOnce(Settings) -> usize>(h: HeadNumbers, formula: F) -> u64
    requires { (s : Settings) → Sized s → F.pre formula s }
    ensures outside { allowed (head_of h) ≡ false → result ≡ 0 }
    ensures inside { allowed (head_of h) ≡ true → F.post formula (settings_of (head_of h)) result }
{
    let h = head_of(h);
    if !h.is_allowed() {
        return 0;
    }
    formula(h.settings()) as u64
}

#[unsafe(no_mangle)]
pub extern "C" fn cftree_floats_needed(h: HeadNumbers) -> u64
    ensures { result ≡ needed floats_needed (head_of h) }
{
    needed(h, Settings::floats_needed)
}

#[unsafe(no_mangle)]
pub extern "C" fn cftree_links_needed(h: HeadNumbers) -> u64
    ensures { result ≡ needed links_needed (head_of h) }
{
    needed(h, Settings::links_needed)
}

#[unsafe(no_mangle)]
pub extern "C" fn cftree_scratch_floats_needed(h: HeadNumbers) -> u64
    ensures { result ≡ needed scratch_floats_needed (head_of h) }
{
    needed(h, Settings::scratch_floats_needed)
}

#[unsafe(no_mangle)]
pub extern "C" fn cftree_scratch_links_needed(h: HeadNumbers) -> u64
    ensures { result ≡ needed scratch_links_needed (head_of h) }
{
    needed(h, Settings::scratch_links_needed)
}
