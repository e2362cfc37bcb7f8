// What a call answers: that it did its work, or which of the seven refusals it gives.
ghost use Rattle.std.specs.Prelude.{◌≡◌};
ghost use Rattle.head.specs.Refusals.{number_of, number_of_condition};

// The tree check's conditions, in document 01's order.
#[derive(Clone, Copy)]
pub enum Condition {
    Counts,
    Root,
    Lists,
    Links,
    Filled,
    Level,
    Weights,
    Merged,
}

#[derive(Clone, Copy)]
pub enum Refusal {
    Settings,
    Room,
    // The number of the lowest condition of the tree check that fails.
    Tree(u32),
    // Dim, and the row's length or what is left over of a batch's.
    Shape(usize, usize),
    Empty,
    Full,
    Output,
}

pub type Answer = Result<(), Refusal>;

// Document 01's numbers.
impl From<Condition> for u32 {
    ghost from_gives = { λ c n. n ≡ number_of_condition c };

    #[tactic(auto, unfolding(crate::specs::Refusals::number_of_condition))]
    fn from(c: Condition) -> u32 {
        match c {
            Condition::Counts => 1,
            Condition::Root => 2,
            Condition::Lists => 3,
            Condition::Links => 4,
            Condition::Filled => 5,
            Condition::Level => 6,
            Condition::Weights => 7,
            Condition::Merged => 8,
        }
    }
}

impl From<Refusal> for u32 {
    ghost from_gives = { λ r n. n ≡ number_of r };

    #[tactic(auto, unfolding(crate::specs::Refusals::number_of))]
    fn from(r: Refusal) -> u32 {
        match r {
            Refusal::Settings => 1,
            Refusal::Room => 2,
            Refusal::Tree(_) => 3,
            Refusal::Shape(_, _) => 4,
            Refusal::Empty => 5,
            Refusal::Full => 6,
            Refusal::Output => 7,
        }
    }
}
