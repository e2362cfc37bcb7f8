// The head that a caller lends by value, the sizes that its settings ask for, and the refusals.
#![tactic(auto)]

pub mod changes;
pub mod limits;
pub mod refusal;
pub mod sizes;

ghost use Rattle.std.specs.Prelude.{◌≡◌};
ghost use Rattle.head.specs.Heads.{new_head, feature_at, distance_at, settings_of, with_counters};

use distance::Distance;
use feature::Feature;

// What runs along with a tree's nodes and entries: the absorption threshold, the rebuilds, and the entries merged away
// since the nodes were last built anew.
#[derive(Clone, Copy)]
pub struct Running {
    pub threshold: f64,
    pub rebuilds: u64,
    pub merged: usize,
}

// What a tree counts as it grows: its nodes and entries, which node is the root, and what runs along with them.
#[derive(Clone, Copy)]
pub struct Counters {
    pub nodes: usize,
    pub entries: usize,
    pub root: usize,
    pub running: Running,
}

// The settings as the caller has them, numbers that may be outside their limits, and the counters.
#[derive(Clone, Copy)]
pub struct Head {
    pub dim: usize,
    pub branching: usize,
    pub leaf_cap: usize,
    pub max_leaves: usize,
    pub feature: u32,
    pub dist: u32,
    pub abs: u32,
    pub counters: Counters,
}

// The settings inside the library, each within its limits.
#[derive(Clone, Copy)]
pub struct Settings {
    pub dim: usize,
    pub branching: usize,
    pub leaf_cap: usize,
    pub max_leaves: usize,
    pub feature: Feature,
    pub dist: Distance,
    pub abs: Distance,
}

// The feature of a number, and any other number's is the last; no From, since neither type is this crate's.
#[tactic(auto, unfolding(crate::specs::Heads::feature_at))]
fn feature_at(n: u32) -> Feature
    ensures { result ≡ feature_at n }
{
    match n {
        0 => Feature::Spherical,
        _ => Feature::Diagonal,
    }
}

// The distance of a number, likewise.
#[tactic(auto, unfolding(crate::specs::Heads::distance_at))]
fn distance_at(n: u32) -> Distance
    ensures { result ≡ distance_at n }
{
    match n {
        0 => Distance::CentroidEuclidean,
        1 => Distance::CentroidManhattan,
        2 => Distance::AverageIntercluster,
        3 => Distance::AverageIntracluster,
        4 => Distance::VarianceIncrease,
        _ => Distance::Radius,
    }
}

impl Head {
    pub const LEAST_DIM: usize = 1;

    pub const MOST_DIM: usize = 8;

    pub const LEAST_BRANCHING: usize = 2;

    pub const MOST_BRANCHING: usize = 16;

    pub const LEAST_LEAF_CAP: usize = 1;

    pub const MOST_LEAF_CAP: usize = 16;

    pub const LEAST_MAX_LEAVES: usize = 1;

    pub const MOST_MAX_LEAVES: usize = 256;

    pub const FEATURES: u32 = 2;

    pub const DISTANCES: u32 = 6;

    // 2^53
    pub const MOST_ROWS: u64 = 9_007_199_254_740_992;

    // The head of an empty tree: one node, a leaf with nothing in it.
    #[tactic(auto, unfolding(crate::specs::Heads::new_head))]
    pub fn new(
        dim: usize,
        branching: usize,
        leaf_cap: usize,
        max_leaves: usize,
        feature: u32,
        dist: u32,
        abs: u32,
        threshold: f64,
    ) -> Self
        ensures { result ≡ new_head dim branching leaf_cap max_leaves feature dist abs threshold }
    {
        let counters = Counters::new(threshold);
        Head {
            dim,
            branching,
            leaf_cap,
            max_leaves,
            feature,
            dist,
            abs,
            counters,
        }
    }

    // The settings, where the head is allowed.
    #[tactic(auto, unfolding(crate::specs::Heads::settings_of))]
    pub fn settings(self) -> Settings
        ensures { result ≡ settings_of self }
    {
        let feature = feature_at(self.feature);
        let dist = distance_at(self.dist);
        let abs = distance_at(self.abs);
        Settings {
            dim: self.dim,
            branching: self.branching,
            leaf_cap: self.leaf_cap,
            max_leaves: self.max_leaves,
            feature,
            dist,
            abs,
        }
    }

    // The same settings, other counters.
    #[tactic(auto, unfolding(crate::specs::Heads::with_counters))]
    pub fn with_counters(self, counters: Counters) -> Self
        ensures { result ≡ with_counters self counters }
    {
        Head { counters, ..self }
    }
}
