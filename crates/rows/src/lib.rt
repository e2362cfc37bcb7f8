// A batch: rows of dim numbers one after the other in a slice.
#![tactic(auto)]

ghost use Rattle.std.specs.Prelude.{◌≡◌, ◌+◌, ◌*◌, ◌≤◌, length};
ghost use Rattle.rows.specs.Rows.{row_of};

use head::Settings;

// Row k.
pub fn row(s: Settings, rows: &[f64], k: usize) -> &[f64]
    requires { (k + 1) * s.dim ≤ length rows.now }
    ensures { result.now ≡ row_of s rows.now k }
{
    let w = s.dim;
    let at = k * w;
    &rows[at..at + w]
}
