// The tree check's conditions, each broken on the smallest tree that shows it: dim 1, branching 2, leaf_cap 2, M 3.
ghost use Rattle.std.specs.Prelude.{◌≤◌, ◌≡◌, length};

use crate::printing::Shown;
use cftree::{change, look};
use head::refusal::{Answer, Condition};
use head::{Counters, Head};
use std::io;

const CONDITIONS: [Condition; 8] = [
    Condition::Counts,
    Condition::Root,
    Condition::Lists,
    Condition::Links,
    Condition::Filled,
    Condition::Level,
    Condition::Weights,
    Condition::Merged,
];

// What is damaged for a condition.
fn damage(condition: Condition) -> &'static str {
    match condition {
        Condition::Counts => "the head counts no node",
        Condition::Root => "the head's root is no node",
        Condition::Lists => "a leaf lists an entry not there",
        Condition::Links => "an entry listed under two leaves",
        Condition::Filled => "an empty root that is no leaf",
        Condition::Level => "a root that lists one leaf alone",
        Condition::Weights => "the root weighs 2, its entry 1",
        Condition::Merged => "merged is M",
    }
}

// The condition in the header's words.
fn words(condition: Condition) -> &'static str {
    match condition {
        Condition::Counts => "node count 1 to N, entry count 0 to M",
        Condition::Root => "the root exists and has no parent",
        Condition::Lists => "no list is over its cap; every child number exists",
        Condition::Links => {
            "every node is reached from the root once, by the parent it names; every entry is in one leaf list, once"
        }
        Condition::Filled => "no list is empty, but for a lone root leaf with no entries",
        Condition::Level => {
            "all leaves are equally deep, and each level has more nodes than the level above it"
        }
        Condition::Weights => {
            "entry weights are whole, 1 to 2^53; each node's weight is the sum of those beneath it; the total is at most 2^53"
        }
        Condition::Merged => "merged is below M",
    }
}

// How many rows the tree has before it is damaged: three are the leaves [0, 2] and [1], nodes 0 and 1, under node 2.
fn rows_of(broken: Option<Condition>) -> usize
    ensures { result ≤ 3 }
{
    match broken {
        None => 3,
        Some(Condition::Lists) => 1,
        Some(Condition::Links) => 3,
        Some(Condition::Level) => 1,
        Some(Condition::Weights) => 1,
        _ => 0,
    }
}

// The counters, damaged for condition 1, 2, 6 or 8.
fn counted(broken: Option<Condition>, c: Counters) -> Counters {
    match broken {
        Some(Condition::Counts) => c.with_nodes(0),
        Some(Condition::Root) => c.with_root(1),
        Some(Condition::Level) => c.with_nodes(2).with_root(1),
        Some(Condition::Merged) => c.with_merged(3),
        _ => c,
    }
}

// The links, damaged for condition 3, 4, 5 or 6. Node i's parent, kind and list begin at number 5i.
fn link(broken: Option<Condition>, links: &mut [u32])
    requires { length links.old ≡ 50 }
{
    match broken {
        Some(Condition::Lists) => {
            links[2] = 1;
        }
        Some(Condition::Links) => {
            links[6] = 5;
            links[8] = 2;
        }
        Some(Condition::Filled) => {
            links[1] = 0;
        }
        Some(Condition::Level) => {
            links[0] = 1;
            links[5] = 4294967295;
            links[6] = 2;
        }
        _ => {}
    }
}

// The nodes' weights: damaged for condition 7, and the sums of the lists for 4 and 6. Node i's stands at number 3i.
fn weigh(broken: Option<Condition>, floats: &mut [f64])
    requires { length floats.old ≡ 42 }
{
    match broken {
        Some(Condition::Links) => {
            floats[3] = 2.0;
            floats[6] = 4.0;
        }
        Some(Condition::Level) => {
            floats[3] = 1.0;
        }
        Some(Condition::Weights) => {
            floats[0] = 2.0;
        }
        _ => {}
    }
}

// A tree of the first rows.
fn grown(
    floats: &mut [f64],
    links: &mut [u32],
    scratch: &mut [f64],
    numbers: &mut [u32],
    rows: &[f64],
) -> Head {
    let h = Head::new(1, 2, 2, 3, 0, 0, 0, 0.0);
    let h = change::create(h, floats, links).unwrap_or(h);
    change::insert_batch(h, floats, links, scratch, numbers, rows).unwrap_or(h)
}

// What the tree check says of the tree once it is damaged.
fn judged(broken: Option<Condition>, h: Head, floats: &mut [f64], links: &mut [u32]) -> Answer
    requires { (length floats.old ≡ 42) × (length links.old ≡ 50) }
{
    link(broken, links);
    weigh(broken, floats);
    let counters = counted(broken, h.counters);
    look::validate(h.with_counters(counters), floats, links)
}

fn answer(broken: Option<Condition>) -> Answer {
    let mut floats = [0.0; 42];
    let mut links = [0u32; 50];
    let mut scratch = [0.0; 12];
    let mut numbers = [0u32; 12];
    let rows = [0.0, 10.0, 1.0];
    let n = rows_of(broken);
    let h = grown(
        &mut floats,
        &mut links,
        &mut scratch,
        &mut numbers,
        &rows[0..n],
    );
    judged(broken, h, &mut floats, &mut links)
}

// A tree that passes, then each condition in its turn.
pub fn print_conditions(rt: &impl Print) -> io::Result<()> {
    println!(rt;
        "\nThe tree check's conditions: validate's answer to a small tree with one of them broken"
    )?;
    println!(rt; "{:<10}{:<34}condition", "answer", "damaged")?;
    println!(rt;
        "{:<10}{:<34}1 to 8 hold",
        Shown(answer(None)),
        "nothing: three rows, two leaves"
    )?;
    for condition in CONDITIONS {
        let number = u32::from(condition);
        println!(rt;
            "{:<10}{:<34}{number}  {}",
            Shown(answer(Some(condition))),
            damage(condition),
            words(condition)
        )?;
    }
    Ok(())
}
