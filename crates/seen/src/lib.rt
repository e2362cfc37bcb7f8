// A set of numbers below 256, a bit each in four words.
#![tactic(auto)]

ghost use Rattle.std.specs.Prelude.{◌≡◌, ◌/◌, ◌<◌, eqb};
ghost use Rattle.std.specs.Int.Bits.{bit_or};
ghost use Rattle.seen.specs.Sets.{none, word_of, bit_of, times, with};

#[derive(Clone, Copy, Default)]
pub struct Seen {
    words: [u64; 4],
}

impl Seen {
    // No number.
    #[tactic(auto, unfolding(crate::specs::Sets::none))]
    pub fn new() -> Self
        ensures { result ≡ none }
    {
        Self::default()
    }

    // The word that e's bit is in. Words are named by their places, here and in `add`: indexed by a number that is worked out, they
    // and the sets of a walk stay in memory, and the tree check takes two thirds more stack.
    #[tactic(auto, using(crate::specs::Sets::word_at))]
    fn word(self, e: usize) -> u64
        requires { e < 256 }
        ensures { result ≡ word_of self (e / 64) }
    {
        if e < 64 {
            self.words[0]
        } else if e < 128 {
            self.words[1]
        } else if e < 192 {
            self.words[2]
        } else {
            self.words[3]
        }
    }

    // Whether e is in the set.
    #[tactic(auto, using(crate::specs::Sets::has_is))]
    pub fn has(self, e: usize) -> bool
        requires { e < 256 }
        ensures { result ≡ eqb (times self e) 1 }
    {
        self.word(e) >> (e % 64) & 1 == 1
    }

    // Word q with e in it, where it is e's.
    #[tactic(auto, using(crate::specs::Sets::word_gains, crate::specs::Sets::word_stays))]
    fn word_with(self, q: usize, e: usize) -> u64
        requires { q < 4 }
        ensures { result ≡ bit_or (word_of self q) (bit_of e q) }
    {
        if e / 64 == q {
            self.words[q] | 1 << (e % 64)
        } else {
            self.words[q]
        }
    }

    // The set with e in it; numbers from 256 on are not kept.
    #[tactic(auto, unfolding(crate::specs::Sets::with))]
    pub fn add(self, e: usize) -> Self
        ensures { result ≡ with self e }
    {
        Seen {
            words: [
                self.word_with(0, e),
                self.word_with(1, e),
                self.word_with(2, e),
                self.word_with(3, e),
            ],
        }
    }
}
