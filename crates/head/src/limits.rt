// Whether a head is within its limits: refusal 1 is given exactly where it is not.
ghost use Rattle.std.specs.Prelude.{◌≡◌};
ghost use Rattle.head.specs.Limits.{within, sizes_within, choices_within, threshold_within, allowed};

use crate::Head;

#[tactic(auto, unfolding(crate::specs::Limits::within))]
fn is_within(least: usize, most: usize, n: usize) -> bool
    ensures { result ≡ within least most n }
{
    (least..=most).contains(&n)
}

#[tactic(auto, unfolding(crate::specs::Limits::sizes_within))]
fn are_sizes_within(h: Head) -> bool
    ensures { result ≡ sizes_within h }
{
    is_within(Head::LEAST_DIM, Head::MOST_DIM, h.dim)
        && is_within(Head::LEAST_BRANCHING, Head::MOST_BRANCHING, h.branching)
        && is_within(Head::LEAST_LEAF_CAP, Head::MOST_LEAF_CAP, h.leaf_cap)
        && is_within(Head::LEAST_MAX_LEAVES, Head::MOST_MAX_LEAVES, h.max_leaves)
}

#[tactic(auto, unfolding(crate::specs::Limits::choices_within))]
fn are_choices_within(h: Head) -> bool
    ensures { result ≡ choices_within h }
{
    h.feature < Head::FEATURES && h.dist < Head::DISTANCES && h.abs < Head::DISTANCES
}

// A threshold is finite and not below 0; −0.0 is not below 0.
#[tactic(auto, unfolding(crate::specs::Limits::threshold_within))]
fn is_threshold_within(x: f64) -> bool
    ensures { result ≡ threshold_within x }
{
    binary64::is_finite(x) && x >= 0.0
}

impl Head {
    // Whether every size, every choice and the threshold are within their limits.
    #[tactic(auto, unfolding(crate::specs::Limits::allowed))]
    pub fn is_allowed(self) -> bool
        ensures { result ≡ allowed self }
    {
        are_sizes_within(self)
            && are_choices_within(self)
            && is_threshold_within(self.counters.running.threshold)
    }
}
