// What the replay writes to standard output.
use crate::list::Total;
use judging::Differs;
use std::io;

// Where a call differs, counted from 0.
fn place(rt: &impl Print, differs: Differs) -> io::Result<()> {
    match differs {
        Differs::Answer(place) => print!(rt; ": number {place} of its answer"),
        Differs::State(place) => print!(rt; ": word {place} of the state"),
        Differs::Wrong => rt.print(": no such call, or the oracle's answer is cut short"),
    }
}

// A call that differs; 0 stands for the case's first line.
pub(crate) fn differs(rt: &impl Print, case: u64, call: u64, differs: Differs) -> io::Result<()> {
    print!(rt; "case {case}, call {call}")?;
    place(rt, differs)?;
    rt.print("\n")
}

pub(crate) fn cut_short(rt: &impl Print) -> io::Result<()> {
    rt.print("the list is cut short\n")
}

// The last line.
pub(crate) fn total(rt: &impl Print, total: Total) -> io::Result<()> {
    let Total {
        cases,
        calls,
        differ,
    } = total;
    print!(rt; "{cases} cases, {calls} calls, {differ} differ\n")
}
