// The counters of an empty tree, and counters with one number changed.
ghost use Rattle.std.specs.Prelude.{◌≡◌};
ghost use Rattle.head.specs.Heads.{new_counters};
ghost use Rattle.head.specs.Counting.{count_nodes, count_entries, root_at, count_running, with_threshold, with_rebuilds, with_merged};

use crate::{Counters, Running};

impl Counters {
    // One node, a leaf with nothing in it.
    #[tactic(auto, unfolding(crate::specs::Heads::new_counters, crate::specs::Counting::new_running))]
    pub fn new(threshold: f64) -> Self
        ensures { result ≡ new_counters threshold }
    {
        let running = Running {
            threshold,
            rebuilds: 0,
            merged: 0,
        };
        Counters {
            nodes: 1,
            entries: 0,
            root: 0,
            running,
        }
    }

    #[tactic(auto, unfolding(crate::specs::Counting::count_nodes))]
    pub fn with_nodes(mut self, nodes: usize) -> Self
        ensures { result ≡ count_nodes nodes self }
    {
        self.nodes = nodes;
        self
    }

    #[tactic(auto, unfolding(crate::specs::Counting::count_entries))]
    pub fn with_entries(mut self, entries: usize) -> Self
        ensures { result ≡ count_entries entries self }
    {
        self.entries = entries;
        self
    }

    #[tactic(auto, unfolding(crate::specs::Counting::root_at))]
    pub fn with_root(mut self, root: usize) -> Self
        ensures { result ≡ root_at root self }
    {
        self.root = root;
        self
    }

    #[tactic(auto, unfolding(crate::specs::Counting::count_running, crate::specs::Counting::with_threshold))]
    pub fn with_threshold(mut self, threshold: f64) -> Self
        ensures { result ≡ count_running (with_threshold threshold) self }
    {
        self.running.threshold = threshold;
        self
    }

    #[tactic(auto, unfolding(crate::specs::Counting::count_running, crate::specs::Counting::with_rebuilds))]
    pub fn with_rebuilds(mut self, rebuilds: u64) -> Self
        ensures { result ≡ count_running (with_rebuilds rebuilds) self }
    {
        self.running.rebuilds = rebuilds;
        self
    }

    #[tactic(auto, unfolding(crate::specs::Counting::count_running, crate::specs::Counting::with_merged))]
    pub fn with_merged(mut self, merged: usize) -> Self
        ensures { result ≡ count_running (with_merged merged) self }
    {
        self.running.merged = merged;
        self
    }
}
