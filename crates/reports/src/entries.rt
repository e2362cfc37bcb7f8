// A line an entry: its number, weight, means and deviations.
ghost use Rattle.std.specs.Prelude.{true, ◌≡◌, ◌+◌, ◌≤◌, length};
ghost use Rattle.binary64.specs.Counts.{is_count};
ghost use Rattle.rules.specs.Slices.{tree_of};
ghost use Rattle.rules.specs.Listing.{entry_line, entry_lines};
ghost use Rattle.reports.specs.Lines.{Wrote, tabbed};
ghost use Rattle.reports.specs.Entries.{summary_fields, EntryFits, Entries};
ghost use Rattle.rules.specs.Tree.{row_count};

use crate::fields;
use arena::entries::summary;
use feature::Summary;
use head::{Counters, Settings};
use text::writing::write_decimal;

// The rows that an entry stands for.
#[tactic(auto, using(crate::specs::Entries::rows_told))]
fn rows_of(e: Summary) -> u64
    requires { is_count e.weight ≡ true }
    ensures { result ≡ row_count e }
{
    binary64::count_of(e.weight).unwrap_or(0)
}

// The means and the deviations.
fn write_summary(s: Settings, e: Summary, out: &mut [u8], at: usize) -> usize
    requires { EntryFits s e × (at + 272 ≤ length out.old) }
    ensures { Wrote at (tabbed (summary_fields s e)) out.old out.new result }
{
    let feature = s.feature;
    let slots = feature::slots(feature, s.dim);
    let mean = e.mean;
    let deviation = e.deviation;
    let end = fields::hexes(&mean, s.dim, out, at);
    fields::hexes(&deviation, slots, out, end)
}

// The line of entry i.
fn write_entry(s: Settings, i: usize, e: Summary, out: &mut [u8], at: usize) -> usize
    requires { EntryFits s e × (at + 314 ≤ length out.old) }
    ensures { Wrote at (entry_line s i e) out.old out.new result }
{
    let rows = rows_of(e);
    let a = write_decimal(i as u64, out, at);
    let b = fields::decimal(rows, out, a);
    let c = write_summary(s, e, out, b);
    fields::newline(out, c)
}

// The lines of all entries.
pub fn write_entries(
    s: Settings,
    n: Counters,
    floats: &[f64],
    links: &[u32],
    out: &mut [u8],
    at: usize,
) -> usize
    requires { Entries s n floats.now links.now × (at + 7536 ≤ length out.old) }
    ensures { Wrote at (entry_lines s 0 (tree_of s n floats.now links.now).entries) out.old out.new result }
{
    let mut end = at;
    for i in 0..n.entries {
        let e = summary(s, n, floats, i);
        end = write_entry(s, i, e, out, end);
    }
    end
}
