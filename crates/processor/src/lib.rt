// The processor (01, "The four models").
#![tactic(auto)]

ghost use Rattle.std.specs.Prelude.{◌≡◌, List, [], ℕ, length, T, Float};
ghost use Rattle.rules.specs.Base.{every};
ghost use Rattle.rules.specs.declared.ProcessorPhase.TheVariants as working;
ghost use Rattle.rules.specs.Sizes.{is_content};
ghost use Rattle.rules.specs.Table as Table;
ghost use Rattle.rules.specs.Simulation as Simulation;
ghost use Rattle.rules.specs.Models as Models;
ghost use Rattle.rules.specs.Valid as Valid;
ghost use Rattle.processor.specs.Processing.{processor_of, fresh, unchanged, resting, Took, Went};

use events::Taken;
use rules::{Processor, ProcessorPhase, Refusal};

#[derive(Clone, Copy)]
pub struct ProcessorState {
    pub phase: ProcessorPhase,
    pub timer: f64,
    pub held: u64,
}

// What an event hands back: the next state and the next place in the service list, or both as they were after a refusal; and what came of the event.
#[derive(Clone, Copy)]
pub struct Served<A> {
    pub next: ProcessorState,
    pub place: u64,
    pub answer: Result<A, Refusal>,
}

impl ProcessorState {
    // "infinite at first, phase Passive, nothing held"
    pub fn new() -> Self
        ensures { result ≡ fresh }
    {
        Self {
            phase: ProcessorPhase::Passive,
            timer: times::never(),
            held: 0,
        }
    }

    // Whether the state and the row are what 20 asks.
    pub fn fits(self, row: Processor) -> bool
        ensures { (queue : List ℕ) → length queue ≡ self.held → T (every is_content queue) → result ≡ Valid.model_fits (Table.processor row) (Simulation.of_processor (processor_of self queue)) }
    {
        if !times::is_timer(self.timer) {
            return false;
        }
        if 64 < self.held {
            return false;
        }
        if row.queue_capacity < self.held {
            return false;
        }
        if 0 < self.held {
            return true;
        }
        let phase = self.phase;
        match phase {
            ProcessorPhase::Active => false,
            ProcessorPhase::Passive => true,
        }
    }

    // The state as it was, with what became of the job.
    fn told(self, place: u64, answer: Result<Taken, Refusal>) -> Served<Taken>
        ensures { result ≡ unchanged self place answer }
    {
        Served {
            next: self,
            place,
            answer,
        }
    }

    // A job starts.
    fn start(self, services: &[f64], place: u64) -> Served<Taken>
        ensures { (job : ℕ) → self.held ≡ 0 → Took self place [] job result (Models.start services.now job place) }
    {
        match events::service_time(services, place) {
            Ok((time, next)) => Served {
                next: ProcessorState {
                    phase: ProcessorPhase::Active,
                    timer: time,
                    held: 1,
                },
                place: next,
                answer: Ok(Taken::Started),
            },
            Err(refusal) => self.told(place, Err(refusal)),
        }
    }

    // A job comes: 01's rule alone. 5, 6, 7, 9 and 10 leave the state as it was.
    pub fn external_rule(
        self,
        row: Processor,
        services: &[f64],
        place: u64,
        port: u16,
    ) -> Served<Taken>
        ensures { (queue : List ℕ) (job : ℕ) → length queue ≡ self.held → Took self place queue job result (Models.processor_external row services.now port job (processor_of self queue) place) }
    {
        if port != row.input {
            return self.told(place, Err(Refusal::InvalidMessage));
        }
        if self.held == row.queue_capacity {
            if self.held == 0 {
                return self.told(place, Err(Refusal::InvalidModelState));
            }
            return self.told(place, Ok(Taken::Dropped));
        }
        if self.held == 0 {
            return self.start(services, place);
        }
        if 64 <= self.held {
            return self.told(place, Err(Refusal::NoQueueRoom));
        }
        let phase = self.phase;
        Served {
            next: ProcessorState {
                phase,
                timer: self.timer,
                held: self.held + 1,
            },
            place,
            answer: Ok(Taken::Kept),
        }
    }

    // The timer has run out: 01's rule alone.
    pub fn internal_rule(self, services: &[f64], place: u64) -> Served<u64>
        ensures { (queue : List ℕ) → length queue ≡ self.held → Went self place queue result (Models.processor_internal services.now (processor_of self queue) place) }
    {
        let phase = self.phase;
        match phase {
            ProcessorPhase::Active => self.released(place),
            ProcessorPhase::Passive => self.resumed(services, place),
        }
    }

    // Active: the first job goes out. The timer is 0, so that the next one starts.
    fn released(self, place: u64) -> Served<u64>
        ensures { (queue : List ℕ) (services : List Float) → length queue ≡ self.held → Went self place queue result (Models.processor_internal_in working.Active services (processor_of self queue) place) }
    {
        if self.held == 0 {
            return ProcessorState::rests(0, place, 0);
        }
        ProcessorState::rests(self.held - 1, place, 1)
    }

    // So many are left, and so many went out.
    fn rests(held: u64, place: u64, out: u64) -> Served<u64>
        ensures { result ≡ resting held place out }
    {
        Served {
            next: ProcessorState {
                phase: ProcessorPhase::Passive,
                timer: 0.0,
                held,
            },
            place,
            answer: Ok(out),
        }
    }

    // Passive: the next job starts, or there is none.
    fn resumed(self, services: &[f64], place: u64) -> Served<u64>
        ensures { (queue : List ℕ) → length queue ≡ self.held → Went self place queue result (Models.processor_internal_in working.Passive services.now (processor_of self queue) place) }
    {
        if self.held == 0 {
            return Served {
                next: ProcessorState::new(),
                place,
                answer: Ok(0),
            };
        }
        match events::service_time(services, place) {
            Ok((time, next)) => Served {
                next: ProcessorState {
                    phase: ProcessorPhase::Active,
                    timer: time,
                    held: self.held,
                },
                place: next,
                answer: Ok(0),
            },
            Err(refusal) => Served {
                next: self,
                place,
                answer: Err(refusal),
            },
        }
    }

    // A job comes: 20, then the rule.
    pub fn external(self, row: Processor, services: &[f64], place: u64, port: u16) -> Served<Taken>
        ensures { (queue : List ℕ) (job : ℕ) → length queue ≡ self.held → T (every is_content queue) → Took self place queue job result (Valid.processor_external_call row services.now port job (processor_of self queue) place) }
    {
        if self.fits(row) {
            return self.external_rule(row, services, place, port);
        }
        self.told(place, Err(Refusal::BadState))
    }

    // The timer has run out: 20, then the rule.
    pub fn internal(self, row: Processor, services: &[f64], place: u64) -> Served<u64>
        ensures { (queue : List ℕ) → length queue ≡ self.held → T (every is_content queue) → Went self place queue result (Valid.processor_internal_call row services.now (processor_of self queue) place) }
    {
        if self.fits(row) {
            return self.internal_rule(services, place);
        }
        Served {
            next: self,
            place,
            answer: Err(Refusal::BadState),
        }
    }
}
