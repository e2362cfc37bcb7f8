// Why a listing is bad: one line on standard error, written at once.
use arrayvec::ArrayString;
use lines::{Run, Stage};
use reasons::Reason;
use std::fmt::Write;
use std::{fmt, io};

// What field k of line 1, from 1, has to be.
fn setting(k: usize) -> &'static str {
    match k {
        1 => "field 1 (dim): expected a decimal from 1 to 8, without sign or leading zeros",
        2 => "field 2 (branching): expected a decimal from 2 to 16, without sign or leading zeros",
        3 => "field 3 (leaf_cap): expected a decimal from 1 to 16, without sign or leading zeros",
        4 => "field 4 (M): expected a decimal from 1 to 24, without sign or leading zeros",
        5 => "field 5 (feature): expected spherical or diagonal",
        6 => "field 6 (dist): expected euclidean, manhattan, inter, intra, increase or radius",
        7 => "field 7 (abs): expected euclidean, manhattan, inter, intra, increase or radius",
        _ => "field 8 (threshold): expected a float of 16 lowercase hex digits",
    }
}

// What of a line is wrong; a row has dim floats.
#[derive(Clone, Copy)]
struct Wrong {
    why: Reason,
    dim: usize,
}

impl fmt::Display for Wrong {
    fn fmt<W: fmt::Write>(&self, f: &mut fmt::Formatter<W>) -> fmt::Result {
        let dim = self.dim;
        match self.why {
            Reason::Long => f.write_str("over 200 bytes"),
            Reason::Return => {
                f.write_str("ends in a carriage return; lines end in a newline alone")
            }
            Reason::Fields(found) => {
                write!(f, "fields parted by tabs: expected 8, found {found}")
            }
            Reason::Setting(k) => f.write_str(setting(k)),
            Reason::Threshold => {
                f.write_str("field 8 (threshold): expected a finite float, not below 0")
            }
            Reason::Float(k) => {
                write!(f, "field {k}: expected a float of 16 lowercase hex digits")
            }
            Reason::Shape(found) => {
                write!(
                    f,
                    "SHAPE: floats parted by tabs: expected {dim}, found {found}"
                )
            }
            Reason::Full => { f.write_str("FULL: the tree has 2^53 rows, the most that it takes") }
        }
    }
}

// The reason of a bad run that has ended, and nothing of any other. No message is as long as its room.
pub fn tell(run: Run, to: &impl Print) -> io::Result<()> {
    let number = run.number;
    let mut message = ArrayString::<200>::new();
    let _ = match run.stage {
        Stage::First => write!(
            message,
            "rowlist: line {number}: missing, the input is empty\n"
        ),
        Stage::Rows => return Ok(()),
        Stage::Bad(why) => {
            let wrong = Wrong {
                why,
                dim: run.head.dim,
            };
            write!(message, "rowlist: line {number}: {wrong}\n")
        }
    };
    to.write_all(message.as_bytes())
}
