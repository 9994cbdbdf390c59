// The batcher (01, "The four models").
#![tactic(auto)]

ghost use Rattle.std.specs.Prelude.{◌≡◌, List, ℕ, length, T};
ghost use Rattle.rules.specs.Base.{every, done};
ghost use Rattle.rules.specs.Sizes.{is_content};
ghost use Rattle.rules.specs.Table as Table;
ghost use Rattle.rules.specs.Simulation as Simulation;
ghost use Rattle.rules.specs.Models as Models;
ghost use Rattle.rules.specs.Valid as Valid;
ghost use Rattle.batcher.specs.Batching.{batcher_of, fresh, unchanged, kept_as, Took, Went};

use events::{Handed, Taken};
use rules::{Batcher, BatcherPhase, Refusal};

#[derive(Clone, Copy)]
pub struct BatcherState {
    pub phase: BatcherPhase,
    pub timer: f64,
    pub held: u64,
}

// The maximum, in its full width.
fn size_of(row: Batcher) -> u64
    ensures { result ≡ row.max_batch_size }
{
    row.max_batch_size
}

impl BatcherState {
    // "infinite at first, phase Passive, nothing held"
    pub fn new() -> Self
        ensures { result ≡ fresh }
    {
        Self {
            phase: BatcherPhase::Passive,
            timer: times::never(),
            held: 0,
        }
    }

    // Whether the state and the row are what 20 asks.
    pub fn fits(self, row: Batcher) -> bool
        ensures { (queue : List ℕ) → length queue ≡ self.held → T (every is_content queue) → result ≡ Valid.model_fits (Table.batcher row) (Simulation.of_batcher (batcher_of self queue)) }
    {
        if row.max_batch_size == 0 {
            return false;
        }
        if 0x4000_0000_0000_0000 < row.max_batch_size {
            return false;
        }
        if !times::is_time(row.max_batch_time) {
            return false;
        }
        if !times::is_timer(self.timer) {
            return false;
        }
        self.held <= 64
    }

    fn refused(self, refusal: Refusal) -> Handed<Self, Taken>
        ensures { result ≡ unchanged self refusal }
    {
        Handed {
            next: self,
            answer: Err(refusal),
        }
    }

    // The job is kept, in this phase and with this timer.
    fn kept(self, phase: BatcherPhase, timer: f64) -> Handed<Self, Taken>
        ensures { result ≡ kept_as self phase timer }
    {
        if 64 <= self.held {
            return self.refused(Refusal::NoQueueRoom);
        }
        Handed {
            next: BatcherState {
                phase,
                timer,
                held: self.held + 1,
            },
            answer: Ok(Taken::Kept),
        }
    }

    // A job comes: 01's rule alone. That h + 1 is below m is asked without a sum that could wrap.
    pub fn external_rule(self, row: Batcher) -> Handed<Self, Taken>
        ensures { (queue : List ℕ) (job : ℕ) → length queue ≡ self.held → Took self queue job result (Models.batcher_external row job (batcher_of self queue)) }
    {
        let m = size_of(row);
        if m <= self.held {
            return self.kept(BatcherPhase::Release, 0.0);
        }
        if m <= self.held + 1 {
            return self.kept(BatcherPhase::Release, 0.0);
        }
        let phase = self.phase;
        match phase {
            BatcherPhase::Passive => self.kept(BatcherPhase::Batching, row.max_batch_time),
            BatcherPhase::Batching => self.kept(BatcherPhase::Batching, self.timer),
            BatcherPhase::Release => self.refused(Refusal::InvalidModelState),
        }
    }

    // The timer has run out: 01's rule alone. That 2m is at most h is asked without a product that could wrap.
    pub fn internal_rule(self, row: Batcher) -> Handed<Self, u64>
        ensures { (queue : List ℕ) → length queue ≡ self.held → Went self queue result (done (Models.batcher_internal row (batcher_of self queue))) }
    {
        let most = size_of(row);
        if self.held <= most {
            return Handed {
                next: BatcherState::new(),
                answer: Ok(self.held),
            };
        }
        let rest = self.held - most;
        if most <= rest {
            return Handed {
                next: BatcherState {
                    phase: BatcherPhase::Release,
                    timer: 0.0,
                    held: rest,
                },
                answer: Ok(most),
            };
        }
        Handed {
            next: BatcherState {
                phase: BatcherPhase::Batching,
                timer: row.max_batch_time,
                held: rest,
            },
            answer: Ok(most),
        }
    }

    // A job comes: 20, then the rule.
    pub fn external(self, row: Batcher) -> Handed<Self, Taken>
        ensures { (queue : List ℕ) (job : ℕ) → length queue ≡ self.held → T (every is_content queue) → Took self queue job result (Valid.batcher_external_call row job (batcher_of self queue)) }
    {
        if self.fits(row) {
            return self.external_rule(row);
        }
        self.refused(Refusal::BadState)
    }

    // The timer has run out: 20, then the rule.
    pub fn internal(self, row: Batcher) -> Handed<Self, u64>
        ensures { (queue : List ℕ) → length queue ≡ self.held → T (every is_content queue) → Went self queue result (Valid.batcher_internal_call row (batcher_of self queue)) }
    {
        if self.fits(row) {
            return self.internal_rule(row);
        }
        Handed {
            next: self,
            answer: Err(Refusal::BadState),
        }
    }
}
