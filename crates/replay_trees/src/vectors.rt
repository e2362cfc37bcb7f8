// A vector is a line of words: dim, branching, leaf_cap, M, the node count, the entry count, the root and the merged total; how many
// nodes and how many entries follow; of each node its weight, its parent word, its kind word, how many numbers of its list follow, and
// those; the weights of the entries; the lowest condition that fails, or 0. What no word is given for holds a NaN or the largest
// number: the check must not look at it.
ghost use Rattle.std.specs.Prelude.{◌≤◌, length};
ghost use Rattle.head.specs.Limits.{Sized};
ghost use Rattle.head.specs.Sizes.{floats_needed, links_needed};

use head::refusal::Condition;
use head::{Counters, Head, Settings};
use replay::{Malformed, words};
use std::io::Read;

// The most that a vector has of each: M is 24, dim 8, a list 16.
const MOST_NODES: u64 = 325;

const MOST_FLOATS: usize = 5950;

const MOST_LINKS: usize = 6175;

// The next number of a vector.
fn word(input: &mut impl Read) -> Result<u64, Malformed> {
    words::word(input, b' ')
}

// The same where any number will do, and a malformed word stands for the largest, which is in no vector: the check has to see it.
fn word_or_largest(input: &mut impl Read) -> u64 {
    word(input).unwrap_or(u64::MAX)
}

// Writes a link, if there is a place for it.
fn put_link(links: &mut [u32], at: usize, x: u64) -> Result<(), Malformed> {
    let link = links.get_mut(at).ok_or(Malformed)?;
    *link = u32::try_from(x).map_err(|_| Malformed)?;
    Ok(())
}

// Writes the float of some bits, if there is a place for it.
fn put_float(floats: &mut [f64], at: usize, bits: u64) -> Result<(), Malformed> {
    let float = floats.get_mut(at).ok_or(Malformed)?;
    *float = binary64::of_bits(bits);
    Ok(())
}

// Reads the numbers of a list to the links from `at` on.
fn read_list(input: &mut impl Read, links: &mut [u32], at: usize) -> Result<(), Malformed>
    requires { at ≤ 65536 }
{
    let len = word(input)?;
    if len > 17 {
        return Err(Malformed);
    }
    for k in 0..len as usize {
        put_link(links, at + k, word(input)?)?;
    }
    Ok(())
}

// Reads a node to the slot and the block that begin there.
fn read_node(
    input: &mut impl Read,
    floats: &mut [f64],
    slot: usize,
    links: &mut [u32],
    block: usize,
) -> Result<(), Malformed>
    requires { block ≤ 65000 }
{
    put_float(floats, slot, word_or_largest(input))?;
    put_link(links, block, word(input)?)?;
    put_link(links, block + 1, word(input)?)?;
    read_list(input, links, block + 2)
}

// Reads nodes to the first slots and blocks.
fn read_nodes(
    input: &mut impl Read,
    s: Settings,
    count: u64,
    floats: &mut [f64],
    links: &mut [u32],
) -> Result<(), Malformed>
    requires { Sized s }
{
    if count > MOST_NODES {
        return Err(Malformed);
    }
    let mut slot = 0;
    let mut block = 0;
    for _ in 0..count {
        read_node(input, floats, slot, links, block)?;
        slot += s.slot_width();
        block += s.block_width();
    }
    Ok(())
}

// Reads the weights of entries to the slots past the nodes'.
fn read_entries(
    input: &mut impl Read,
    s: Settings,
    count: u64,
    floats: &mut [f64],
) -> Result<(), Malformed>
    requires { Sized s }
{
    if count > MOST_NODES {
        return Err(Malformed);
    }
    let mut slot = s.node_cap() * s.slot_width();
    for _ in 0..count {
        put_float(floats, slot, word_or_largest(input))?;
        slot += s.slot_width();
    }
    Ok(())
}

// The lowest condition that fails, or 0.
fn number(verdict: Result<(), Condition>) -> u64 {
    match verdict {
        Ok(()) => 0,
        Err(condition) => u64::from(u32::from(condition)),
    }
}

// Checks a tree, and answers whether the verdict is the word that ends the vector.
fn compared(
    input: &mut impl Read,
    s: Settings,
    n: Counters,
    floats: &[f64],
    links: &[u32],
) -> Result<bool, Malformed>
    requires { Sized s × (floats_needed s ≤ length floats.now) × (links_needed s ≤ length links.now) }
{
    let expected = words::word(input, b'\n')?;
    Ok(number(validate::validate(s, n, floats, links)) == expected)
}

// Reads nodes and entries and checks the tree.
fn checked(input: &mut impl Read, s: Settings, n: Counters) -> Result<bool, Malformed>
    requires { Sized s }
{
    if s.floats_needed() > MOST_FLOATS {
        return Err(Malformed);
    }
    if s.links_needed() > MOST_LINKS {
        return Err(Malformed);
    }
    let nothing = 0.0 / 0.0;
    let mut floats = [nothing; MOST_FLOATS];
    let mut links = [0xffff_ffffu32; MOST_LINKS];
    let nodes = word(input)?;
    let entries = word(input)?;
    read_nodes(input, s, nodes, &mut floats, &mut links)?;
    read_entries(input, s, entries, &mut floats)?;
    compared(input, s, n, &floats, &links)
}

// The counters of a vector.
fn counters(input: &mut impl Read) -> Counters {
    let nodes = word_or_largest(input) as usize;
    let entries = word_or_largest(input) as usize;
    let root = word_or_largest(input) as usize;
    let merged = word_or_largest(input) as usize;
    Counters::new(0.0)
        .with_nodes(nodes)
        .with_entries(entries)
        .with_root(root)
        .with_merged(merged)
}

// Reads the rest of a vector that begins with dim, and checks its tree.
fn begun(input: &mut impl Read, dim: u64) -> Result<bool, Malformed> {
    let branching = word(input)? as usize;
    let leaf_cap = word(input)? as usize;
    let max_leaves = word(input)? as usize;
    let h = Head::new(dim as usize, branching, leaf_cap, max_leaves, 0, 0, 0, 0.0);
    if !h.is_allowed() {
        return Err(Malformed);
    }
    let n = counters(input);
    checked(input, h.settings(), n)
}

// Reads the next vector, checks its tree, and answers whether the verdict is the expected one; none where no vector is left.
pub fn next(input: &mut impl Read) -> Result<Option<bool>, Malformed> {
    match words::next(input, b' ')? {
        Some(dim) => begun(input, dim).map(Some),
        None => Ok(None),
    }
}
