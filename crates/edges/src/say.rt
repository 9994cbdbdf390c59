// What the cases write to standard output.
use atoms::Taken;
use rules::Refusal;
use std::io;
use table::BadTable;

fn name(refusal: Refusal) -> &'static str {
    match refusal {
        Refusal::TooLarge => "TooLarge",
        Refusal::BadRow => "BadRow",
        Refusal::BadCoupling => "BadCoupling",
        Refusal::ModelNotFound => "ModelNotFound",
        Refusal::InvalidMessage => "InvalidMessage",
        Refusal::InvalidModelState => "InvalidModelState",
        Refusal::NoQueueRoom => "NoQueueRoom",
        Refusal::NoMessageRoom => "NoMessageRoom",
        Refusal::NoServiceTime => "NoServiceTime",
        Refusal::BadTime => "BadTime",
        Refusal::ClockOverflow => "ClockOverflow",
        Refusal::Idle => "Idle",
        Refusal::NoOutRoom => "NoOutRoom",
        Refusal::BadBlock => "BadBlock",
        Refusal::BadState => "BadState",
    }
}

// A refusal's number and name.
pub(crate) fn refusal(rt: &impl Print, refusal: Refusal) -> io::Result<()> {
    let number = rules::number(refusal);
    let name = name(refusal);
    print!(rt; ": {number} {name}")
}

// What became of what came.
pub(crate) fn taken(rt: &impl Print, taken: Result<Taken, Refusal>) -> io::Result<()> {
    match taken {
        Ok(Taken::Started) => rt.print(": started"),
        Ok(Taken::Kept) => rt.print(": kept"),
        Ok(Taken::Dropped) => rt.print(": dropped"),
        Ok(Taken::Marked) => rt.print(": marked"),
        Ok(Taken::Asked) => rt.print(": asked"),
        Err(why) => refusal(rt, why),
    }
}

// How many jobs go out.
pub(crate) fn gone(rt: &impl Print, answer: Result<u64, Refusal>) -> io::Result<()> {
    match answer {
        Ok(count) => print!(rt; ": {count} out"),
        Err(why) => refusal(rt, why),
    }
}

// A state: its phase, its timer and how many are held.
pub(crate) fn state(rt: &impl Print, phase: &str, timer: f64, held: u64) -> io::Result<()> {
    let timer = times::bits_of(timer);
    print!(rt; "; {phase}, timer {timer:016x}, {held} held")
}

// A refusal's number, what is refused and the row that it was met at.
fn refused(rt: &impl Print, refusal: Refusal, what: &str, row: usize) -> io::Result<()> {
    let number = rules::number(refusal);
    print!(rt; ": {number} {what} {row}")
}

// What intake says of a table.
pub(crate) fn verdict(rt: &impl Print, verdict: Result<(), BadTable>) -> io::Result<()> {
    match verdict {
        Err(BadTable::TooLarge) => refusal(rt, Refusal::TooLarge),
        Err(BadTable::Row(row)) => refused(rt, Refusal::BadRow, "BadRow, row", row),
        Err(BadTable::Connector(row)) => {
            refused(rt, Refusal::BadCoupling, "BadCoupling, connector", row)
        }
        Err(BadTable::Coupling(row)) => refused(
            rt,
            Refusal::BadCoupling,
            "BadCoupling, coupling",
            row,
        ),
        Ok(()) => rt.print(": passed"),
    }
}
