// Condition 6: the depths at which a walk has met leaves, inner nodes and forks, and the deepest.
ghost use Rattle.std.specs.Prelude.{◌≡◌, ◌<◌};
ghost use Rattle.tour.specs.Walking.{put_in, is_fork, no_depths, met, level_at, levelled};

use seen::Seen;

#[derive(Clone, Copy, Default)]
pub struct Depths {
    pub leaves: Seen,
    pub inner: Seen,
    pub forks: Seen,
    pub deepest: usize,
}

// The set with d in it, where it is to be.
#[tactic(auto, unfolding(crate::specs::Walking::put_in))]
fn put(there: bool, set: Seen, d: usize) -> Seen
    ensures { result ≡ put_in there d set }
{
    if there { set.add(d) } else { set }
}

// Whether a node is no leaf and lists two or more.
#[tactic(auto, unfolding(crate::specs::Walking::is_fork))]
fn is_fork(leaf: bool, len: usize) -> bool
    ensures { result ≡ is_fork leaf len }
{
    !leaf && len > 1
}

impl Depths {
    // No node met.
    #[tactic(auto, unfolding(crate::specs::Walking::no_depths, seen::specs::Sets::none))]
    pub fn new() -> Self
        ensures { result ≡ no_depths }
    {
        Self::default()
    }

    // A node met at depth d: a leaf, or an inner node that lists so many.
    #[tactic(auto, unfolding(crate::specs::Walking::met))]
    pub fn meet(self, leaf: bool, len: usize, d: usize) -> Self
        ensures { result ≡ met leaf len d self }
    {
        Depths {
            leaves: put(leaf, self.leaves, d),
            inner: put(!leaf, self.inner, d),
            forks: put(is_fork(leaf, len), self.forks, d),
            deepest: self.deepest.max(d),
        }
    }

    // Whether no leaf is as deep as an inner node, d deep, and one of these forks.
    #[tactic(auto, unfolding(crate::specs::Walking::level_at))]
    fn level_at(self, d: usize) -> bool
        requires { d < 256 }
        ensures { result ≡ level_at self d }
    {
        !self.inner.has(d) || (!self.leaves.has(d) && self.forks.has(d))
    }

    // Condition 6, of the depths of all nodes.
    pub fn level(self) -> bool
        ensures { result ≡ levelled self }
    {
        self.deepest < 256 && lists::every_below(self.deepest + 1, |d| self.level_at(d))
    }
}
