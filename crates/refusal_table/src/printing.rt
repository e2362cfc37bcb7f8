// What the tables print of an answer.
use head::refusal::{Answer, Refusal};
use std::fmt;
use std::fmt::{Display, InlineText};

// The refusal's name and values.
#[derive(Clone, Copy)]
pub struct Shown(pub Answer);

impl Display for Shown {
    fn fmt<W: fmt::Write>(&self, f: &mut fmt::Formatter<W>) -> fmt::Result {
        match self.0 {
            Ok(()) => f.pad("accepted"),
            Err(Refusal::Settings) => f.pad("SETTINGS"),
            Err(Refusal::Room) => f.pad("ROOM"),
            Err(Refusal::Tree(condition)) => {
                f.pad(InlineText::<15>::of(format_args!("TREE {condition}")).as_str())
            }
            Err(Refusal::Shape(dim, long)) => {
                f.pad(InlineText::<47>::of(format_args!("SHAPE {dim} {long}")).as_str())
            }
            Err(Refusal::Empty) => f.pad("EMPTY"),
            Err(Refusal::Full) => f.pad("FULL"),
            Err(Refusal::Output) => f.pad("OUTPUT"),
        }
    }
}
