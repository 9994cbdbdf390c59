// The processor.
use crate::{Event, say, values};
use atoms::{ProcessorState, Served, Taken};
use rules::{Processor, ProcessorPhase};
use std::io;
use words::word_at;

fn phase_of(word: u64) -> ProcessorPhase {
    match word {
        0 => ProcessorPhase::Passive,
        _ => ProcessorPhase::Active,
    }
}

fn name(phase: ProcessorPhase) -> &'static str {
    match phase {
        ProcessorPhase::Passive => "Passive",
        ProcessorPhase::Active => "Active",
    }
}

fn state_of(asked: &[u64]) -> ProcessorState {
    ProcessorState {
        phase: phase_of(word_at(asked, 1)),
        timer: values::float(word_at(asked, 2)),
        held: word_at(asked, 3),
    }
}

// The state, and the place in the service list.
fn say_state(rt: &impl Print, state: ProcessorState, place: u64) -> io::Result<()> {
    say::state(rt, name(state.phase), state.timer, state.held)?;
    print!(rt; ", place {place}")
}

fn say_taken(rt: &impl Print, taken: Served<Taken>) -> io::Result<()> {
    say::taken(rt, taken.answer)?;
    say_state(rt, taken.next, taken.place)
}

fn say_gone(rt: &impl Print, gone: Served<u64>) -> io::Result<()> {
    say::gone(rt, gone.answer)?;
    say_state(rt, gone.next, gone.place)
}

fn on(rt: &impl Print, event: Event, asked: &[u64], services: &[f64]) -> io::Result<()> {
    let state = state_of(asked);
    let row = Processor {
        input: 1,
        output: 2,
        queue_capacity: word_at(asked, 4),
    };
    let place = word_at(asked, 5);
    let port = values::port(word_at(asked, 6));
    match event {
        Event::External => say_taken(rt, state.external(row, services, place, port)),
        Event::Internal => say_gone(rt, state.internal(row, services, place)),
        Event::ExternalRule => say_taken(rt, state.external_rule(row, services, place, port)),
        Event::InternalRule => say_gone(rt, state.internal_rule(services, place)),
    }
}

// The service times stand behind the first seven numbers.
pub(crate) fn run(rt: &impl Print, event: Event, asked: &[u64]) -> io::Result<()> {
    let mut room = [0f64; 8];
    let Some(bits) = asked.get(7..) else {
        return Ok(());
    };
    match values::times_of(bits, &mut room) {
        Some(services) => on(rt, event, asked, services),
        None => Ok(()),
    }
}
