// How long each lent buffer has to be, by formulas in the settings.
ghost use Rattle.std.specs.Prelude.{◌≡◌};
ghost use Rattle.head.specs.Limits.{Sized};
ghost use Rattle.head.specs.Sizes.{node_cap, entry_cap, slot_width, block_width, floats_needed, links_needed, scratch_floats_needed, scratch_links_needed};

use crate::Settings;

impl Settings {
    // The most nodes, N: (M+1)(M+2)/2.
    #[tactic(auto, using(crate::specs::Sizes::product_small), unfolding(crate::specs::Sizes::node_cap))]
    pub fn node_cap(self) -> usize
        requires { Sized self }
        ensures { result ≡ node_cap self }
    {
        (self.max_leaves + 1) * (self.max_leaves + 2) / 2
    }

    // The most entries: M+1, one of them only until the rebuild.
    #[tactic(auto, unfolding(crate::specs::Sizes::entry_cap))]
    pub fn entry_cap(self) -> usize
        requires { Sized self }
        ensures { result ≡ entry_cap self }
    {
        self.max_leaves + 1
    }

    // A summary's floats: its weight, dim means and dim deviations.
    #[tactic(auto, unfolding(crate::specs::Sizes::slot_width))]
    pub fn slot_width(self) -> usize
        requires { Sized self }
        ensures { result ≡ slot_width self }
    {
        1 + 2 * self.dim
    }

    // A node's links: its parent, its kind with its list's length, its list, and one spare place.
    #[tactic(auto, unfolding(crate::specs::Sizes::block_width))]
    pub fn block_width(self) -> usize
        requires { Sized self }
        ensures { result ≡ block_width self }
    {
        self.branching.max(self.leaf_cap) + 3
    }

    #[tactic(auto, using(crate::specs::Sizes::floats_small, crate::specs::Sizes::nodes_small, crate::specs::Sizes::entries_small), unfolding(crate::specs::Sizes::floats_needed))]
    pub fn floats_needed(self) -> usize
        requires { Sized self }
        ensures { result ≡ floats_needed self }
    {
        (self.node_cap() + self.entry_cap()) * self.slot_width()
    }

    #[tactic(auto, using(crate::specs::Sizes::links_small), unfolding(crate::specs::Sizes::links_needed))]
    pub fn links_needed(self) -> usize
        requires { Sized self }
        ensures { result ≡ links_needed self }
    {
        self.node_cap() * self.block_width()
    }

    // A summary for each entry.
    #[tactic(auto, using(crate::specs::Sizes::scratch_small), unfolding(crate::specs::Sizes::scratch_floats_needed))]
    pub fn scratch_floats_needed(self) -> usize
        requires { Sized self }
        ensures { result ≡ scratch_floats_needed self }
    {
        self.entry_cap() * self.slot_width()
    }

    // Three numbers for each entry.
    #[tactic(auto, using(crate::specs::Sizes::entries_small), unfolding(crate::specs::Sizes::scratch_links_needed))]
    pub fn scratch_links_needed(self) -> usize
        requires { Sized self }
        ensures { result ≡ scratch_links_needed self }
    {
        3 * self.entry_cap()
    }
}
