// What the replay writes to standard output.
use engine::{End, Report};
use rules::Refusal;
use std::io;

pub(crate) fn answer(rt: &impl Print, answer: Result<(), Refusal>) -> io::Result<()> {
    match answer {
        Ok(()) => rt.print("done\n"),
        Err(refusal) => {
            let number = rules::number(refusal);
            print!(rt; "refused {number}\n")
        }
    }
}

pub(crate) fn report(rt: &impl Print, report: Report) -> io::Result<()> {
    let Report {
        steps,
        written,
        end,
    } = report;
    print!(rt; "{steps} steps, {written} rows, ")?;
    match end {
        End::Done => rt.print("done\n"),
        End::Reached => rt.print("reached\n"),
        End::Spent => rt.print("spent\n"),
        End::Refused(refusal) => answer(rt, Err(refusal)),
    }
}

// Every word that is not 0, with its place.
pub(crate) fn words(rt: &impl Print, name: &str, words: &[u64]) -> io::Result<()> {
    rt.print(name)?;
    for (place, word) in words.iter().enumerate() {
        if *word != 0 {
            print!(rt; " {place}={word:x}")?;
        }
    }
    rt.print("\n")
}
