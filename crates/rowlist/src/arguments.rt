// The program's arguments: it takes none but --help.
use std::env::{Env, FillError};
use text::words;

// The form of the input, and what is printed.
fn help(rt: &impl Print) {
    let _ = rt.write_all(
        b"usage: rowlist < INPUT

Inserts the rows of its input into a CF-tree, and lists the tree's entries.

A line has at most 200 bytes and ends in a newline alone; the last one may go
without. Tabs part its fields. A number is decimal, without sign or leading zeros.
A float is the 16 lowercase hex digits of its bits: 3ff0000000000000 is 1.

Line 1 has eight fields:
  dim        1 to 8: the floats of a row
  branching  2 to 16: the most children of a node
  leaf_cap   1 to 16: the most entries of a leaf
  M          1 to 24: the most entries of the tree
  feature    spherical or diagonal
  dist       euclidean, manhattan, inter, intra, increase or radius
  abs        one of the same words
  threshold  a float, finite and not below 0
Every further line is a row: dim floats.

Prints a line with the number of entries, the threshold, the number of rebuilds and
the number of rows; then a line for each entry: its number from 0, its number of
rows, its means (dim floats) and its deviations (spherical one, diagonal dim).
The first line that is malformed, refused or too long ends the run: `bad`, a tab and
the number of this line are all that is printed. Standard error has the reason.
",
    );
}

// Whether the program was given an argument k, from 1.
pub fn has(rt: &impl Env, k: usize) -> bool {
    let mut word = [0u8; 8];
    match rt.arg(k, &mut word) {
        Ok(_) => true,
        Err(FillError::TooLong) => true,
        Err(FillError::NotPresent) => false,
    }
}

// What the arguments ask for.
pub fn answer(rt: &(impl Env + Print + Eprint)) {
    let mut word = [0u8; 8];
    if let Ok(n) = rt.arg(1, &mut word) {
        if words::is(&word[..n], b"--help") && !has(rt, 2) {
            help(rt);
            return;
        }
    }
    let _ = rt.eprint("rowlist: it takes no arguments but --help\n");
}
