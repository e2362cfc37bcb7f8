// Refusals 1, 2 and 3: the settings, the room, the tree.
ghost use Rattle.std.specs.Prelude.{◌≡◌, ◌++◌, ◌≤◌, length};
ghost use Rattle.head.specs.Limits.{Sized};
ghost use Rattle.head.specs.Sizes.{floats_needed, links_needed};
ghost use Rattle.rules.specs.Check.{checked};
ghost use Rattle.rules.specs.Slices.{tree_of};
ghost use Rattle.rules.specs.Calls.{answer_of, room_refusal, tree_refusal, tree_refusals, change_refusals, create_refusals};
ghost use Rattle.refusals.specs.Lending.{lending};

use head::refusal::{Answer, Refusal};
use head::{Counters, Head, Settings};
use validate::validate;

// 2, for two slices that are to be so long.
fn room(floats_needed: usize, links_needed: usize, floats: &[f64], links: &[u32]) -> Answer
    ensures { result ≡ answer_of (room_refusal floats_needed (length floats.now) ++ room_refusal links_needed (length links.now)) }
{
    if floats.len() < floats_needed {
        return Err(Refusal::Room);
    }
    if links.len() < links_needed {
        return Err(Refusal::Room);
    }
    Ok(())
}

// 3.
fn tree_check(s: Settings, n: Counters, floats: &[f64], links: &[u32]) -> Answer
    requires { Sized s × (floats_needed s ≤ length floats.now) × (links_needed s ≤ length links.now) }
    ensures { result ≡ answer_of (tree_refusal (checked s (tree_of s n floats.now links.now))) }
{
    validate(s, n, floats, links).map_err(|c| Refusal::Tree(u32::from(c)))
}

// Creation: 1 and 2 only.
pub fn create(h: Head, floats: &[f64], links: &[u32]) -> Answer
    ensures { result ≡ answer_of (create_refusals h floats.now links.now) }
{
    if !h.is_allowed() {
        return Err(Refusal::Settings);
    }
    let s = h.settings();
    room(s.floats_needed(), s.links_needed(), floats, links)
}

// A call that only reads the tree.
pub fn look(h: Head, floats: &[f64], links: &[u32]) -> Answer
    ensures { result ≡ answer_of (tree_refusals h floats.now links.now) }
{
    create(h, floats, links)?;
    tree_check(h.settings(), h.counters, floats, links)
}

// A call that changes the tree: scratch before the tree.
pub fn change(h: Head, floats: &[f64], links: &[u32], scratch: &[f64], numbers: &[u32]) -> Answer
    ensures { result ≡ answer_of (change_refusals h (lending floats.now links.now scratch.now numbers.now)) }
{
    create(h, floats, links)?;
    let s = h.settings();
    room(
        s.scratch_floats_needed(),
        s.scratch_links_needed(),
        scratch,
        numbers,
    )?;
    tree_check(s, h.counters, floats, links)
}
