// The stopwatch, on words from a place of the sheet to another.
use crate::sheet::Sheet;
use crate::{Event, say, sheet, values};
use atoms::{Handed, StopwatchState, Taken};
use rules::{Metric, Stopwatch, StopwatchPhase};
use std::io;
use words::word_at;

// What is done with the words that are lent.
#[derive(Clone, Copy)]
pub(crate) enum Use {
    Event(Event),
    CountSet,
    Mean,
    ReadJob,
    ReadWord,
}

fn metric_of(word: u64) -> Metric {
    match word {
        0 => Metric::Minimum,
        _ => Metric::Maximum,
    }
}

fn row_of(asked: &[u64]) -> Stopwatch {
    Stopwatch {
        start: values::port(word_at(asked, 6)),
        stop: values::port(word_at(asked, 7)),
        ask: values::port(word_at(asked, 8)),
        output: 4,
        metric: metric_of(word_at(asked, 9)),
    }
}

fn phase_of(word: u64) -> StopwatchPhase {
    match word {
        0 => StopwatchPhase::Passive,
        _ => StopwatchPhase::JobFetch,
    }
}

fn name(phase: StopwatchPhase) -> &'static str {
    match phase {
        StopwatchPhase::Passive => "Passive",
        StopwatchPhase::JobFetch => "JobFetch",
    }
}

fn state_of(asked: &[u64]) -> StopwatchState {
    StopwatchState {
        phase: phase_of(word_at(asked, 3)),
        timer: values::float(word_at(asked, 4)),
        held: word_at(asked, 5),
    }
}

fn say_state(rt: &impl Print, state: StopwatchState) -> io::Result<()> {
    say::state(rt, name(state.phase), state.timer, state.held)
}

fn say_taken(rt: &impl Print, taken: Handed<StopwatchState, Taken>) -> io::Result<()> {
    say::taken(rt, taken.answer)?;
    say_state(rt, taken.next)
}

fn say_gone(rt: &impl Print, gone: Handed<StopwatchState, Option<u64>>) -> io::Result<()> {
    match gone.answer {
        Ok(Some(name)) => print!(rt; ": job {name}")?,
        Ok(None) => rt.print(": nothing")?,
        Err(why) => say::refusal(rt, why)?,
    }
    say_state(rt, gone.next)
}

fn on(rt: &impl Print, event: Event, asked: &[u64], words: &mut [u64]) -> io::Result<()> {
    let state = state_of(asked);
    let row = row_of(asked);
    let clock = values::float(word_at(asked, 10));
    let port = values::port(word_at(asked, 11));
    let job = values::job(word_at(asked, 12));
    match event {
        Event::External => say_taken(rt, state.external(row, clock, port, job, words)),
        Event::Internal => say_gone(rt, state.internal(row, words)),
        Event::ExternalRule => say_taken(rt, state.external_rule(row, clock, port, job, words)),
        Event::InternalRule => say_gone(rt, state.internal_rule(row, words)),
    }
}

fn mean(rt: &impl Print, asked: &[u64], words: &[u64]) -> io::Result<()> {
    match marks::mean(words, word_at(asked, 3)) {
        Ok(Some(mean)) => {
            let mean = times::bits_of(mean);
            print!(rt; ": {mean:016x}")
        }
        Ok(None) => rt.print(": none"),
        Err(_) => rt.print(": cut short"),
    }
}

// The three words of a job.
fn read_job(rt: &impl Print, asked: &[u64], words: &[u64]) -> io::Result<()> {
    let k = word_at(asked, 3) as usize;
    if k < 64 {
        let name = word_at(words, k);
        let start = word_at(words, 64 + k);
        let stop = word_at(words, 128 + k);
        print!(rt; ": {name} {start:016x} {stop:016x}")?;
    }
    Ok(())
}

fn read_word(rt: &impl Print, asked: &[u64], words: &[u64]) -> io::Result<()> {
    let word = word_at(words, word_at(asked, 3) as usize);
    print!(rt; ": {word}")
}

fn say_changes(rt: &impl Print, before: &[u64], after: &[u64]) -> io::Result<()> {
    let count = sheet::changes(before, after);
    print!(rt; ", words changed: {count}")
}

fn on_words(rt: &impl Print, what: Use, asked: &[u64], words: &mut [u64]) -> io::Result<()> {
    match what {
        Use::Event(event) => on(rt, event, asked, words),
        Use::CountSet => say_changes(rt, words, &[]),
        Use::Mean => mean(rt, asked, words),
        Use::ReadJob => read_job(rt, asked, words),
        Use::ReadWord => read_word(rt, asked, words),
    }
}

// The words that are lent stand from one place to before another.
pub(crate) fn run(rt: &impl Print, what: Use, asked: &[u64], sheet: &mut Sheet) -> io::Result<()> {
    let from = word_at(asked, 1) as usize;
    let end = word_at(asked, 2) as usize;
    if from <= end && end <= sheet.len() {
        on_words(rt, what, asked, &mut sheet[from..end])?;
    }
    Ok(())
}

// An external event, and how many words it changes.
pub(crate) fn changes(rt: &impl Print, asked: &[u64], sheet: &mut Sheet) -> io::Result<()> {
    let before = *sheet;
    run(rt, Use::Event(Event::External), asked, sheet)?;
    say_changes(rt, &before, sheet)
}
