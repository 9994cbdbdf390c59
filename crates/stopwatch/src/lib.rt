// The stopwatch (01, "The four models"). Its jobs, with their marks, stand in lent words (crate `marks`).
#![tactic(auto)]

ghost use Rattle.std.specs.Prelude.{◌≡◌};
ghost use Rattle.stopwatch.specs.Watching.{fresh, unchanged, quiet, fits_in, marking, external_in, fetching, internal_in, external_call_in, internal_call_in, Took, Went};

use events::{Handed, Taken};
use marks::{CutShort, Mark, Unmarked};
use rules::{Refusal, Stopwatch, StopwatchPhase};

#[derive(Clone, Copy)]
pub struct StopwatchState {
    pub phase: StopwatchPhase,
    pub timer: f64,
    pub held: u64,
}

impl StopwatchState {
    // "infinite at first, phase Passive, nothing held"
    pub fn new() -> Self
        ensures { result ≡ fresh }
    {
        Self {
            phase: StopwatchPhase::Passive,
            timer: times::never(),
            held: 0,
        }
    }

    // Whether the state, its words and the row are what 20 asks.
    pub fn fits(self, row: Stopwatch, words: &[u64]) -> bool
        ensures { result ≡ fits_in row self words.now }
    {
        if row.start == row.stop {
            return false;
        }
        if row.start == row.ask {
            return false;
        }
        if row.stop == row.ask {
            return false;
        }
        if !times::is_timer(self.timer) {
            return false;
        }
        marks::fit(words, self.held)
    }

    fn refused(self, refusal: Refusal) -> Handed<Self, Taken>
        ensures { result ≡ unchanged self refusal }
    {
        Handed {
            next: self,
            answer: Err(refusal),
        }
    }

    // The clock is set on the job.
    fn mark(self, words: &mut [u64], job: u32, mark: Mark, clock: f64) -> Handed<Self, Taken>
        ensures { (result, words.new) ≡ marking mark job clock self words.old }
    {
        match marks::set_mark(words, self.held, job as u64, mark, clock) {
            Ok(held) => {
                let phase = self.phase;
                Handed {
                    next: StopwatchState {
                        phase,
                        timer: self.timer,
                        held,
                    },
                    answer: Ok(Taken::Marked),
                }
            }
            Err(Unmarked::NoRoom) => self.refused(Refusal::NoQueueRoom),
            Err(Unmarked::CutShort) => self.refused(Refusal::BadState),
        }
    }

    // A message comes: 01's rule alone, and the words after it. Where a mark is to be set and the words are cut short, it is 20; a request for the metric does not look at them.
    pub fn external_rule(
        self,
        row: Stopwatch,
        clock: f64,
        port: u16,
        job: u32,
        words: &mut [u64],
    ) -> Handed<Self, Taken>
        ensures { (result, words.new) ≡ external_in row clock port job self words.old }
    {
        if port == row.start {
            return self.mark(words, job, Mark::Start, clock);
        }
        if port == row.stop {
            return self.mark(words, job, Mark::Stop, clock);
        }
        if port == row.ask {
            return Handed {
                next: StopwatchState {
                    phase: StopwatchPhase::JobFetch,
                    timer: 0.0,
                    held: self.held,
                },
                answer: Ok(Taken::Asked),
            };
        }
        self.refused(Refusal::InvalidMessage)
    }

    // The timer has run out: 01's rule alone.
    pub fn internal_rule(self, row: Stopwatch, words: &[u64]) -> Handed<Self, Option<u64>>
        ensures { result ≡ internal_in row self words.now }
    {
        let phase = self.phase;
        match phase {
            StopwatchPhase::Passive => self.rests(None),
            StopwatchPhase::JobFetch => self.fetch(row, words),
        }
    }

    // Passive and infinite again.
    fn rests(self, name: Option<u64>) -> Handed<Self, Option<u64>>
        ensures { result ≡ quiet self name }
    {
        Handed {
            next: StopwatchState {
                phase: StopwatchPhase::Passive,
                timer: times::never(),
                held: self.held,
            },
            answer: Ok(name),
        }
    }

    // In JobFetch: puts out the job of the metric, or nothing; 20 where the words are cut short.
    fn fetch(self, row: Stopwatch, words: &[u64]) -> Handed<Self, Option<u64>>
        ensures { result ≡ fetching row self words.now }
    {
        let metric = row.metric;
        match marks::fetch(words, self.held, metric) {
            Ok(name) => self.rests(name),
            Err(CutShort) => Handed {
                next: self,
                answer: Err(Refusal::BadState),
            },
        }
    }

    // A message comes: 20, then the rule, and the words after it.
    pub fn external(
        self,
        row: Stopwatch,
        clock: f64,
        port: u16,
        job: u32,
        words: &mut [u64],
    ) -> Handed<Self, Taken>
        ensures lays { (result, words.new) ≡ external_call_in row clock port job self words.old }
        ensures means { Took row clock port job self words.old result words.new }
    {
        if !times::is_time(clock) {
            return self.refused(Refusal::BadState);
        }
        if !self.fits(row, words) {
            return self.refused(Refusal::BadState);
        }
        self.external_rule(row, clock, port, job, words)
    }

    // The timer has run out: 20, then the rule.
    pub fn internal(self, row: Stopwatch, words: &[u64]) -> Handed<Self, Option<u64>>
        ensures lays { result ≡ internal_call_in row self words.now }
        ensures means { Went row self words.now result }
    {
        if self.fits(row, words) {
            return self.internal_rule(row, words);
        }
        Handed {
            next: self,
            answer: Err(Refusal::BadState),
        }
    }
}
