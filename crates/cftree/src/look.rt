// The calls that only read the tree.
ghost use Rattle.std.specs.Prelude.{◌≡◌};
ghost use Rattle.rules.specs.Calls.{routed, spread_written, validated, entries_shown};
ghost use Rattle.cftree.specs.Looks.{listing, written};

use head::Head;
use head::refusal::{Answer, Refusal};
use outputs::places::places;
use outputs::routes::write_routes;
use outputs::spread::write_spread;
use refusals::lent;
use rules::Places;

// Whether the tree could be worked with.
pub fn validate(h: Head, floats: &[f64], links: &[u32]) -> Answer
    ensures { result ≡ validated h floats.now links.now }
{
    lent::look(h, floats, links)
}

// Where a caller reads the weight, the means and the deviations of each entry, in order.
pub fn entries(h: Head, floats: &[f64], links: &[u32]) -> Result<Places, Refusal>
    ensures { listing result ≡ entries_shown h floats.now links.now }
{
    lent::look(h, floats, links)?;
    Ok(places(h))
}

// The entry number of each row, to the front of the output.
pub fn route(h: Head, floats: &[f64], links: &[u32], rows: &[f64], out: &mut [u32]) -> Answer
    ensures { written result out.new ≡ routed h floats.now links.now rows.now out.old }
{
    refusals::look::route(h, floats, links, rows, out)?;
    let s = h.settings();
    write_routes(s, h.counters, floats, links, rows, rows.len() / s.dim, out);
    Ok(())
}

// The spread of each entry, dim numbers an entry, to the front of the output.
pub fn spread(h: Head, floats: &[f64], links: &[u32], out: &mut [f64]) -> Answer
    ensures { written result out.new ≡ spread_written h floats.now links.now out.old }
{
    refusals::look::spread(h, floats, links, out)?;
    write_spread(h.settings(), h.counters, floats, out);
    Ok(())
}
