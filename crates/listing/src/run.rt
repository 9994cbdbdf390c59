// Runs what a bench file says.
ghost use Rattle.std.specs.Prelude.{◌≤◌, length};

use crate::course::{Bench, Course, Settings, Status};
use crate::out::{Listing, Refused};
use crate::trace::Trace;
use crate::{input, room, say, trace, warn, why};
use bench_file::{Misread, Page};
use rules::{Message, Refusal};
use std::io::Stderr;

// What an action's row asks for, by its first word.
#[derive(Clone, Copy)]
pub(crate) enum Action {
    Inject,
    StepN,
    StepUntil,
    StepUntilIdle,
}

pub(crate) fn action_of(cells: &[u64; 7]) -> Action {
    match cells[0] {
        1 => Action::Inject,
        2 => Action::StepN,
        3 => Action::StepUntil,
        _ => Action::StepUntilIdle,
    }
}

// The first of a page's rows, so many.
fn first_rows(page: &[u64], rows: usize, width: usize) -> &[u64]
    ensures { length result.now ≤ length page.now }
{
    page.get(..rows.saturating_mul(width)).unwrap_or(page)
}

// The file is read whole before anything is run. How it ended.
pub(crate) fn file(rt: HostRuntime, path: &[u8], text: &[u8]) -> Status {
    let mut models = [0u64; 1280];
    let mut connectors = [0u64; 2048];
    let mut couplings = [0u64; 3072];
    let mut services: room::ServiceBits = room::filled(0);
    let mut actions: room::Actions = room::filled(0);
    let reading = bench_file::read(
        text,
        &mut models,
        &mut connectors,
        &mut couplings,
        &mut services,
        &mut actions,
    );
    match reading {
        Err(
            Misread {
                line,
                column,
                expected,
            },
        ) => {
            say::wrong_line(rt.stderr(), path, text, line, column, expected);
            Status::Wrong
        }
        Ok(counts) => {
            let bench = Bench {
                path,
                text,
                models: first_rows(&models, counts.models, 10),
                connectors: first_rows(&connectors, counts.connectors, 4),
                couplings: first_rows(&couplings, counts.couplings, 6),
                services: first_rows(&services, counts.services, 1),
                actions: first_rows(&actions, counts.actions, 7),
            };
            post(rt, bench, input::settings(rt, counts.rows))
        }
    }
}

// Posts the table, and goes on with the actions.
fn post(rt: HostRuntime, bench: Bench, settings: Settings) -> Status {
    let mut state: room::State = room::filled(0);
    match simulation::post(bench.models, bench.connectors, bench.couplings, &mut state) {
        Err(refusal) => refused_table(rt, bench, refusal),
        Ok(()) => begin(rt, bench, settings, &mut state),
    }
}

fn refused_table(rt: HostRuntime, bench: Bench, refusal: Refusal) -> Status {
    let err = rt.stderr();
    let mut buffer: room::Page = room::filled(0);
    let mut listing = Listing::new(rt, &mut buffer);
    listing.status = Status::Refused(refusal);
    listing.end_refused(refusal);
    let reason = reasons::reason_of(bench.models, bench.connectors, bench.couplings);
    let verdict = table::intake(bench.models, bench.connectors, bench.couplings);
    let refused = Refused(refusal);
    why::place(err, bench, verdict, reason);
    say::print(err, format_args!("{refused}: "));
    why::rule(err, bench.text, reason);
    say::print(err, "\n");
    listing.status
}

fn begin(rt: HostRuntime, bench: Bench, settings: Settings, state: &mut [u64]) -> Status {
    let err = rt.stderr();
    if !settings.quiet {
        say::omitted(err, capacities::omitted(bench.models));
        warn::ends(err, bench);
    }
    let (status, idle) = listed(rt, bench, settings, state);
    if !settings.quiet {
        left(err, bench, state, status, idle);
    }
    status
}

// The listing and the trace: how it ended, and the action of the last run, where that ended idle. The trace is closed then: nothing that is
// said afterwards gets into it.
fn listed(
    rt: HostRuntime,
    bench: Bench,
    settings: Settings,
    state: &mut [u64],
) -> (Status, Option<usize>) {
    let mut room: room::ServiceTimes = room::filled(0.0);
    let Some(services) = times_of(bench.services, &mut room) else {
        return (Status::Wrong, None);
    };
    let Ok(file) = trace::open(rt) else {
        return (Status::Cut, None);
    };
    let mut buffer: room::Buffer = room::filled(0);
    let mut rows: room::Rows = room::filled(0);
    let mut course = Course {
        settings,
        listing: Listing::new(rt, &mut buffer),
        trace: Trace::new(file.as_ref()),
        state,
        services,
        rows: &mut rows,
        number: 1,
        idle: None,
    };
    course.run(bench);
    course.listing.flush();
    course.finish();
    (course.listing.status, course.idle)
}

// Warns of what is left where the file was run to its end, and of what is held where its last run ended idle.
fn left(err: Stderr, bench: Bench, state: &[u64], status: Status, idle: Option<usize>) {
    let Some(changing) = state.get(changing_at(state)..) else {
        return;
    };
    if let Status::Ran = status {
        warn::services(err, bench, changing);
    }
    if let Some(action) = idle {
        warn::held(err, bench, action, changing);
    }
}

// The times of these bits, laid into the room, where that is enough for them.
fn times_of<'a>(bits: &[u64], room: &'a mut [f64]) -> Option<&'a [f64]> {
    if room.len() < bits.len() {
        return None;
    }
    for (time, bits) in room.iter_mut().zip(bits) {
        *time = time_of(*bits);
    }
    Some(&room[..bits.len()])
}

// Where the changing part of a state begins.
fn changing_at(state: &[u64]) -> usize {
    if holding::is_state(state) {
        return lookup::tail_at(state);
    }
    state.len()
}

impl Course<'_> {
    // The actions in the file's order, up to one that is refused.
    fn run(&mut self, bench: Bench) {
        self.listing.print(if self.settings.decimal {
            "step clock decimal messages\n"
        } else {
            "step clock messages\n"
        });
        let (rows, _) = bench.actions.as_chunks::<7>();
        for (row, cells) in rows.iter().enumerate() {
            self.act(row, cells);
            if let Status::Refused(refusal) = self.listing.status {
                self.refused(bench, row, cells, refusal);
            }
            if !self.listing.goes_on() {
                return;
            }
        }
    }

    fn act(&mut self, row: usize, cells: &[u64; 7]) {
        let [_, first, second, ..] = *cells;
        let is_idle = match action_of(cells) {
            Action::Inject => return self.inject(message_of(cells)),
            Action::StepN => {
                self.step_n(first);
                self.listing.status.is_idle()
            }
            Action::StepUntil => {
                self.step_until(time_of(first), second);
                self.listing.status.is_idle()
            }
            Action::StepUntilIdle => self.step_until_idle(first),
        };
        self.idle = is_idle.then_some(row);
    }

    // One that is refused leaves no run that ended idle.
    fn inject(&mut self, message: Message) {
        if let Err(refusal) = simulation::inject_input(self.state, message) {
            self.listing.status = Status::Refused(refusal);
            self.idle = None;
        }
    }

    // What is said where an action is refused.
    fn refused(&mut self, bench: Bench, row: usize, cells: &[u64; 7], refusal: Refusal) {
        let err = self.listing.rt.stderr();
        let is_injection = matches!(action_of(cells), Action::Inject);
        self.listing.end_refused(refusal);
        say::place(err, bench, Page::Actions, row);
        say::refused(err, Refused(refusal), self, is_injection);
    }
}

// The time that has these bits. What is no time stays none: infinity stands for all of that, and every call refuses them alike.
fn time_of(bits: u64) -> f64 {
    match times::time_of_bits(bits) {
        Some(time) => time,
        None => times::never(),
    }
}

// An id or a port. The reader has kept it below 65536.
fn short(word: u64) -> u16 {
    u16::try_from(word).unwrap_or(0)
}

// The words behind an injection's first.
fn message_of(cells: &[u64; 7]) -> Message {
    let [
        _,
        source_id,
        source_port,
        target_id,
        target_port,
        time,
        content,
    ] = *cells;
    Message {
        source_id: short(source_id),
        source_port: short(source_port),
        target_id: short(target_id),
        target_port: short(target_port),
        time: time_of(time),
        // The reader has kept it below 2^32.
        content: u32::try_from(content).unwrap_or(0),
    }
}
