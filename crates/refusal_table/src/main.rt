// Each refusal of each call, the readings at the limits and each condition of the tree check, with the answers that the
// library gives. '!' stands behind one where a refused call changed what was lent.
#![tactic(auto)]

mod asking;
mod cases;
mod conditions;
mod lending;
mod limits;
mod printing;

use crate::asking::print_case;
use crate::cases::{CALLS, Call, FAULTS, Fault};
use crate::lending::Case;
use std::io;

// One line: the call, the refusal, and the three answers.
fn print_line(rt: &impl Print, call: Call, fault: Fault, next: Option<Fault>) -> io::Result<()> {
    print!(rt; "{call:<14}{fault:<12}")?;
    let alone = Case {
        call,
        fault: Some(fault),
        other: None,
        inside: None,
    };
    print_case(rt, alone)?;
    if next.is_none() {
        print!(rt; "{:<18}", "-")?;
    } else {
        print_case(
            rt,
            Case {
                other: next,
                ..alone
            },
        )?;
    }
    print_case(
        rt,
        Case {
            call,
            fault: None,
            other: None,
            inside: Some(fault),
        },
    )?;
    println!(rt; "")
}

// The lines of one call: a refusal's line waits for the next one that the call can give.
fn print_call(rt: &impl Print, call: Call) -> io::Result<()> {
    let mut last = None;
    for next in FAULTS {
        if call.gives(next) {
            if let Some(fault) = last {
                print_line(rt, call, fault, Some(next))?;
            }
            last = Some(next);
        }
    }
    if let Some(fault) = last {
        print_line(rt, call, fault, None)?;
    }
    Ok(())
}

// The lines of every call, under what stands in their columns.
fn print_calls(rt: &impl Print) -> io::Result<()> {
    println!(rt;
        "Each call with each refusal that it can give, in order of checking: its answer to an input with that fault alone, to one"
    )?;
    println!(rt;
        "with the next fault too, and to one just inside the limit. TREE has the lowest condition that fails, SHAPE dim and a row's"
    )?;
    println!(rt;
        "length or what a batch leaves over. An ! behind an answer: the refused call changed what was lent."
    )?;
    println!(rt; "call          refusal     that fault alone  the next one too  just inside")?;
    for call in CALLS {
        print_call(rt, call)?;
    }
    Ok(())
}

fn main(rt: HostRuntime) -> io::Result<()> {
    print_calls(&rt)?;
    crate::limits::print_limits(&rt)?;
    crate::conditions::print_conditions(&rt)
}
