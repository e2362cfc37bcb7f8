// Fields of a line, parted by tabs.
ghost use Rattle.std.specs.Prelude.{◌≡◌, [], ◌+◌, ◌≤◌, ◌<◌, length, get_or, drop};
ghost use Rattle.rules.specs.Listing.{fields_of};
ghost use Rattle.text.specs.Fields.{tab_at};

// How many fields a line has.
pub fn field_count(line: &[u8]) -> usize
    requires { length line.now ≤ 200 }
    ensures { result ≡ length (fields_of line.now) }
{
    line.iter().filter(|b| **b == b'\t').count() + 1
}

// Where the field that begins at a place ends: the next tab, or the end of the line.
fn end_of(line: &[u8], from: usize) -> usize
    requires { from ≤ length line.now }
    ensures { result ≡ from + tab_at (drop from line.now) }
{
    let rest = &line[from..];
    from + rest.iter().position(|b| *b == b'\t').unwrap_or(rest.len())
}

// Field k.
pub fn field(line: &[u8], k: usize) -> &[u8]
    requires { k < length (fields_of line.now) }
    ensures { result.now ≡ get_or (fields_of line.now) k [] }
{
    let mut from = 0;
    for _ in 0..k {
        from = end_of(line, from) + 1;
    }
    let end = end_of(line, from);
    &line[from..end]
}
