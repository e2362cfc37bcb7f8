// The calls, and the refusals that each can give.
use std::fmt;
use std::fmt::Display;

// A call that changes the tree.
#[derive(Clone, Copy, PartialEq, Eq)]
pub enum Change {
    Create,
    InsertRow,
    InsertBatch,
    Refit,
}

// A call that only reads it.
#[derive(Clone, Copy, PartialEq, Eq)]
pub enum Look {
    Route,
    Validate,
    Entries,
    Spread,
}

#[derive(Clone, Copy, PartialEq, Eq)]
pub enum Call {
    Change(Change),
    Look(Look),
}

// A refusal without its values: a fault of what is lent.
#[derive(Clone, Copy, PartialEq, Eq)]
pub enum Fault {
    Settings,
    Room,
    Tree,
    Shape,
    Empty,
    Full,
    Output,
}

pub const CALLS: [Call; 8] = [
    Call::Change(Change::Create),
    Call::Change(Change::InsertRow),
    Call::Change(Change::InsertBatch),
    Call::Change(Change::Refit),
    Call::Look(Look::Route),
    Call::Look(Look::Validate),
    Call::Look(Look::Entries),
    Call::Look(Look::Spread),
];

// In order of checking.
pub const FAULTS: [Fault; 7] = [
    Fault::Settings,
    Fault::Room,
    Fault::Tree,
    Fault::Shape,
    Fault::Empty,
    Fault::Full,
    Fault::Output,
];

impl Call {
    // Whether the table shows a refusal of a call. A refit's sixth would take 2^53 rows.
    pub fn gives(self, fault: Fault) -> bool {
        match fault {
            Fault::Settings | Fault::Room => true,
            Fault::Tree => self != Call::Change(Change::Create),
            Fault::Shape => match self {
                Call::Change(change) => change != Change::Create,
                Call::Look(look) => look == Look::Route,
            },
            Fault::Empty => self == Call::Look(Look::Route),
            Fault::Full => match self {
                Call::Change(Change::InsertRow) | Call::Change(Change::InsertBatch) => true,
                _ => false,
            },
            Fault::Output => match self {
                Call::Look(Look::Route) | Call::Look(Look::Spread) => true,
                _ => false,
            },
        }
    }
}

impl Display for Call {
    fn fmt<W: fmt::Write>(&self, f: &mut fmt::Formatter<W>) -> fmt::Result {
        f.pad(match self {
            Call::Change(Change::Create) => "create",
            Call::Change(Change::InsertRow) => "insert_row",
            Call::Change(Change::InsertBatch) => "insert_batch",
            Call::Change(Change::Refit) => "refit",
            Call::Look(Look::Route) => "route",
            Call::Look(Look::Validate) => "validate",
            Call::Look(Look::Entries) => "entries",
            Call::Look(Look::Spread) => "spread",
        })
    }
}

// Number and name.
impl Display for Fault {
    fn fmt<W: fmt::Write>(&self, f: &mut fmt::Formatter<W>) -> fmt::Result {
        f.pad(match self {
            Fault::Settings => "1 SETTINGS",
            Fault::Room => "2 ROOM",
            Fault::Tree => "3 TREE",
            Fault::Shape => "4 SHAPE",
            Fault::Empty => "5 EMPTY",
            Fault::Full => "6 FULL",
            Fault::Output => "7 OUTPUT",
        })
    }
}
