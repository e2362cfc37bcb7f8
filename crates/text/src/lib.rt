// Lines of the listing: what a line's bytes say, and the bytes that say a number.
#![tactic(auto)]

pub mod digits;
pub mod fields;
pub mod heads;
pub mod numbers;
pub mod row;
pub mod words;
pub mod writing;

// What a line says as a row.
#[derive(Clone, Copy)]
pub enum RowLine {
    Row,
    // A field is no float, or there are more or fewer than a row has.
    Malformed,
}
