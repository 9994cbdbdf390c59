// Runs step by step, and a line for each step: its number, the clock as bits, how many messages are active.
use crate::course::{Course, Status};
use crate::out::{Decimal, Listing};
use engine::{End, Report};
use rules::Refusal;

// The clock. A state that is no state has none, and then the step was refused.
pub(crate) fn clock(state: &[u64]) -> f64 {
    simulation::get_global_time(state).unwrap_or(0.0)
}

// How many messages are active; room is lent for them.
fn active(state: &[u64], room: &mut [u64]) -> usize {
    simulation::get_messages(state, room).unwrap_or(0)
}

// The first of these rows of six words, so many, with their times in decimal too where that is asked for.
pub(crate) fn print_rows(listing: &mut Listing, rows: &[u64], count: usize, decimal: bool) {
    let (rows, _) = rows.as_chunks::<6>();
    for row in rows.iter().take(count) {
        print_row(listing, row, decimal);
    }
}

// A message.
fn print_row(listing: &mut Listing, row: &[u64; 6], decimal: bool) {
    let [source, from, target, to, time, content] = *row;
    listing.print(format_args!("  {source}:{from} to {target}:{to} time {time:016x}"));
    if decimal {
        print_decimal(listing, time);
    }
    listing.print(format_args!(" content {content}\n"));
}

// A row of a trace may have any bits there.
fn print_decimal(listing: &mut Listing, bits: u64) {
    match times::time_of_bits(bits) {
        Some(time) => {
            let time = Decimal(time);
            listing.print(format_args!(" {time}"));
        }
        None => listing.print(" -"),
    }
}

fn is_reached(end: End) -> bool {
    match end {
        End::Reached => true,
        End::Done | End::Spent | End::Refused(_) => false,
    }
}

impl Course<'_> {
    // How many messages are active. The rows of the step are lent for them where nobody asks for these.
    fn active(&mut self) -> usize {
        if self.settings.rows || self.trace.file.is_some() {
            let mut room = [0u64; 1536];
            return active(self.state, &mut room);
        }
        let state = &mut *self.state;
        let rows = &mut *self.rows;
        active(state, rows)
    }

    // The line of a step, and its rows where they are asked for.
    fn print_step(&mut self, written: usize) {
        let active = self.active();
        let number = self.number;
        let clock = clock(self.state);
        let bits = times::bits_of(clock);
        if self.settings.decimal {
            let clock = Decimal(clock);
            self.listing
                .print(format_args!("{number} {bits:016x} {clock} {active}\n"));
        } else {
            self.listing
                .print(format_args!("{number} {bits:016x} {active}\n"));
        }
        let waiting = self.trace.waiting;
        if self.settings.rows && waiting <= self.rows.len() {
            let rows = &mut self.rows[waiting..];
            print_rows(&mut self.listing, rows, written, false);
        }
    }

    // What a run of one step leaves: its line and rows, or the refusal.
    fn after(&mut self, report: Report) {
        if let End::Refused(refusal) = report.end {
            self.listing.status = Status::Refused(refusal);
        } else {
            self.print_step(report.written);
            self.number = self.number.saturating_add(1);
        }
        self.keep(report.written);
    }

    // Its rows go behind those that wait for the trace.
    fn step(&mut self) {
        let waiting = self.trace.waiting;
        if waiting <= self.rows.len() {
            let report = simulation::step(self.state, self.services, &mut self.rows[waiting..]);
            self.after(report);
        }
    }

    // One step of step_until: whether it reaches the time.
    fn step_towards(&mut self, until: f64) -> bool {
        let waiting = self.trace.waiting;
        if self.rows.len() < waiting {
            return false;
        }
        let rows = &mut self.rows[waiting..];
        let report = simulation::step_until(self.state, self.services, until, 1, rows);
        self.after(report);
        is_reached(report.end)
    }

    // step_n: so many steps.
    pub(crate) fn step_n(&mut self, count: u64) {
        for _ in 0..count {
            self.step();
            if !self.listing.goes_on() {
                return;
            }
        }
        self.listing.print("done\n");
    }

    // step_until. A limit that is no time is refused before any step, also where the allowance is 0.
    pub(crate) fn step_until(&mut self, time: f64, allowance: u64) {
        if !times::is_time(time) {
            self.listing.status = Status::Refused(Refusal::BadTime);
            return;
        }
        for _ in 0..allowance {
            let is_reached = self.step_towards(time);
            if !self.listing.goes_on() {
                return;
            }
            if is_reached {
                return self.listing.print("reached\n");
            }
        }
        self.listing.print("spent\n");
    }

    // Until there is nothing left to do, in at most so many steps: whether that is so.
    pub(crate) fn step_until_idle(&mut self, allowance: u64) -> bool {
        for _ in 0..allowance {
            self.step();
            if self.listing.status.is_idle() {
                self.listing.status = Status::Ran;
                self.listing.print("idle\n");
                return true;
            }
            if !self.listing.goes_on() {
                return false;
            }
        }
        self.listing.print("spent\n");
        false
    }
}
