// The slices as an accepted call leaves them: past the counts, past the lists and past what a feature keeps, 0.
ghost use Rattle.std.specs.Prelude.{◌≡◌, ◌*◌, ◌≤◌, length};
ghost use Rattle.binary64.specs.Operators.{f0};
ghost use Rattle.head.specs.Limits.{Sized};
ghost use Rattle.head.specs.Sizes.{slot_width, floats_needed, links_needed};
ghost use Rattle.rules.specs.Slices.{filled_to, floats_of, links_of};
ghost use Rattle.arena.specs.Pieces.{pieces_of};
ghost use Rattle.stretch.specs.Tidy.{tidy_slot};
ghost use Rattle.arena.specs.Trees.{AnyLinks, AnyFloats, Floats, Links};

use head::{Counters, Settings};
use stretch::{block, slot};

// The first k slots of p without what their feature does not keep, and 0 behind them.
pub fn slots(s: Settings, k: usize, p: &mut [f64])
    requires { Sized s × (k * slot_width s ≤ length p.old) }
    ensures { p.new ≡ filled_to (length p.old) f0 (pieces_of (tidy_slot s) (slot_width s) p.old k) }
{
    let w = s.slot_width();
    for i in 0..k {
        let at = i * w;
        slot::tidy(s, &mut p[at..at + w]);
    }
    let end = k * w;
    slot::zero(&mut p[end..]);
}

// The floats that the tree needs and nothing else.
pub fn floats(s: Settings, n: Counters, floats: &mut [f64])
    requires { Floats s n (length floats.old) × (length floats.old ≡ floats_needed s) }
    ensures { AnyLinks s n floats.old (λ t. floats.new ≡ floats_of s t) }
{
    let end = s.node_cap() * s.slot_width();
    slots(s, n.nodes, &mut floats[0..end]);
    slots(s, n.entries, &mut floats[end..]);
}

// The links that the tree needs and nothing else.
pub fn links(s: Settings, n: Counters, links: &mut [u32])
    requires { Links s n (length links.old) × (length links.old ≡ links_needed s) }
    ensures { AnyFloats s n links.old (λ t. links.new ≡ links_of s t) }
{
    let w = s.block_width();
    let k = n.nodes;
    for i in 0..k {
        let at = i * w;
        block::tidy(s, &mut links[at..at + w]);
    }
    let end = k * w;
    block::zero(&mut links[end..]);
}
