// The batcher.
use crate::{Event, say, values};
use atoms::{BatcherState, Handed, Taken};
use rules::{Batcher, BatcherPhase};
use std::io;
use words::word_at;

fn phase_of(word: u64) -> BatcherPhase {
    match word {
        0 => BatcherPhase::Passive,
        1 => BatcherPhase::Batching,
        _ => BatcherPhase::Release,
    }
}

fn name(phase: BatcherPhase) -> &'static str {
    match phase {
        BatcherPhase::Passive => "Passive",
        BatcherPhase::Batching => "Batching",
        BatcherPhase::Release => "Release",
    }
}

fn state_of(asked: &[u64]) -> BatcherState {
    BatcherState {
        phase: phase_of(word_at(asked, 1)),
        timer: values::float(word_at(asked, 2)),
        held: word_at(asked, 3),
    }
}

fn say_state(rt: &impl Print, state: BatcherState) -> io::Result<()> {
    say::state(rt, name(state.phase), state.timer, state.held)
}

fn say_taken(rt: &impl Print, taken: Handed<BatcherState, Taken>) -> io::Result<()> {
    say::taken(rt, taken.answer)?;
    say_state(rt, taken.next)
}

fn say_gone(rt: &impl Print, gone: Handed<BatcherState, u64>) -> io::Result<()> {
    say::gone(rt, gone.answer)?;
    say_state(rt, gone.next)
}

pub(crate) fn run(rt: &impl Print, event: Event, asked: &[u64]) -> io::Result<()> {
    let state = state_of(asked);
    let row = Batcher {
        input: 1,
        output: 2,
        max_batch_size: word_at(asked, 4),
        max_batch_time: values::float(word_at(asked, 5)),
    };
    match event {
        Event::External => say_taken(rt, state.external(row)),
        Event::Internal => say_gone(rt, state.internal(row)),
        Event::ExternalRule => say_taken(rt, state.external_rule(row)),
        Event::InternalRule => say_gone(rt, state.internal_rule(row)),
    }
}
