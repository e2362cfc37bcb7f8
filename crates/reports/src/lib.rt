// What the listing prints: the bad line, or the report of a tree.
#![tactic(auto)]

pub mod entries;
pub mod fields;

ghost use Rattle.std.specs.Prelude.{◌≤◌, length};
ghost use Rattle.head.specs.Heads.{settings_of};
ghost use Rattle.rules.specs.Calls.{lent_tree};
ghost use Rattle.rules.specs.Listing.{bad_line, report};
ghost use Rattle.reports.specs.Lines.{page, Wrote, counts_line};
ghost use Rattle.reports.specs.Entries.{Reportable};

use head::Head;
use text::writing::write_decimal;

// The bytes of an output that has room for any listing.
pub const PAGE: usize = 8192;

// `bad`, and the number of the line that ended the run.
pub fn write_bad(n: u64, out: &mut [u8]) -> usize
    requires { page ≤ length out.old }
    ensures { Wrote 0 (bad_line n) out.old out.new result }
{
    out[0] = b'b';
    out[1] = b'a';
    out[2] = b'd';
    let end = fields::decimal(n, out, 3);
    fields::newline(out, end)
}

// Entry count, threshold, rebuilds and total weight.
fn write_counts(entries: usize, threshold: f64, rebuilds: u64, total: u64, out: &mut [u8]) -> usize
    requires { page ≤ length out.old }
    ensures { Wrote 0 (counts_line entries threshold rebuilds total) out.old out.new result }
{
    let a = write_decimal(entries as u64, out, 0);
    let b = fields::hex(threshold, out, a);
    let c = fields::decimals(rebuilds, total, out, b);
    fields::newline(out, c)
}

// The report of a tree whose rows are `total`.
pub fn write_report(h: Head, total: u64, floats: &[f64], links: &[u32], out: &mut [u8]) -> usize
    requires { Reportable h total floats.now links.now × (page ≤ length out.old) }
    ensures { Wrote 0 (report (settings_of h) (lent_tree h floats.now links.now)) out.old out.new result }
{
    let n = h.counters;
    let at = write_counts(
        n.entries,
        n.running.threshold,
        n.running.rebuilds,
        total,
        out,
    );
    entries::write_entries(h.settings(), n, floats, links, out, at)
}
