// The public calls. Nothing is required of the caller: each takes any head, slices and rows, and does its work or gives one
// of the seven refusals. A refused call leaves every lent number as it was; a NaN's bytes too, since refusals are worked out
// over slices that are lent to be read.
#![tactic(auto)]

pub mod change;
pub mod look;
