// A row's line: its floats.
ghost use Rattle.std.specs.Prelude.{◌≡◌, ◌≤◌, length};
ghost use Rattle.rules.specs.Listing.{fields_of, hex_floats};
ghost use Rattle.text.specs.Rows.{RowRead, floats_in};

use crate::{RowLine, fields, numbers};

// The floats of a line of dim fields, to the front of a row.
fn floats(line: &[u8], dim: usize, row: &mut [f64]) -> RowLine
    requires { (length (fields_of line.now) ≡ dim) × (dim ≤ length row.old) }
    ensures { RowRead dim (hex_floats (fields_of line.now)) row.old row.new result }
{
    for k in 0..dim {
        let Some(x) = numbers::hex_float(fields::field(line, k)) else {
            return RowLine::Malformed;
        };
        row[k] = x;
    }
    RowLine::Row
}

// The row of dim floats that a line has, to the front of a row.
pub fn row_line(line: &[u8], dim: usize, row: &mut [f64]) -> RowLine
    requires { dim ≤ length row.old }
    ensures { RowRead dim (floats_in line.now) row.old row.new result }
{
    if line.len() > 200 {
        return RowLine::Malformed;
    }
    if fields::field_count(line) != dim {
        return RowLine::Malformed;
    }
    floats(line, dim, row)
}
