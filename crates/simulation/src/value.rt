// A simulation by value: the same words in a struct, as many as the largest table needs. Each call takes it and hands the next one back.
ghost use Rattle.std.specs.Prelude.{◌≡◌};
ghost use Rattle.rules.specs.Layout.{room_in, lent};
ghost use Rattle.rules.specs.Calls as Calls;
ghost use Rattle.storing.specs.Lent.{call_in, answered, left, listed, put_in, left_anew, run_in, left_by_run};
ghost use Rattle.lent_runs.specs.Reported.{Reported};
ghost use Rattle.asking.specs.Told.{status_answered};
ghost use Rattle.simulation.specs.Answers.{count_told, time_told};
ghost use Rattle.simulation.specs.Values.{posted_words};

use asking::Status;
use engine::Report;
use rules::{Message, Refusal};

#[derive(Clone, Copy)]
pub struct Simulation {
    pub words: [u64; 17286],
}

// The next simulation, and whether the call was refused.
#[derive(Clone, Copy)]
pub struct Changed {
    pub simulation: Simulation,
    pub answer: Result<(), Refusal>,
}

// The simulation that a run leaves, and its report.
#[derive(Clone, Copy)]
pub struct Ran {
    pub simulation: Simulation,
    pub report: Report,
}

impl Simulation {
    // `post` by value. A refused one hands back the simulation of the empty table.
    pub fn post(models: &[u64], connectors: &[u64], couplings: &[u64]) -> Changed
        ensures answers { result.answer ≡ answered (Calls.post (lent models.now connectors.now couplings.now)) }
        ensures leaves { result.simulation.words ≡ posted_words models.now connectors.now couplings.now }
    {
        let mut words = [0u64; 17286];
        let answer = crate::post(models, connectors, couplings, &mut words);
        match answer {
            Ok(()) => {}
            Err(_) => {
                let none = [0u64; 0];
                let _ = crate::post(&none, &none, &none, &mut words);
            }
        }
        Changed {
            simulation: Simulation { words },
            answer,
        }
    }

    // `put` by value: the same answer, and the next simulation.
    pub fn put(self, models: &[u64], connectors: &[u64], couplings: &[u64]) -> Changed
        ensures answers { result.answer ≡ answered (put_in models.now connectors.now couplings.now self.words) }
        ensures leaves { result.simulation.words ≡ left_anew models.now connectors.now couplings.now self.words (put_in models.now connectors.now couplings.now self.words) }
    {
        let mut words = self.words;
        let answer = crate::put(&mut words, models, connectors, couplings);
        Changed {
            simulation: Simulation { words },
            answer,
        }
    }

    // `inject_input` by value: the same answer, and the next simulation.
    pub fn inject_input(self, message: Message) -> Changed
        ensures answers { result.answer ≡ answered (call_in (Calls.inject_input message) self.words) }
        ensures leaves { result.simulation.words ≡ left self.words (call_in (Calls.inject_input message) self.words) }
    {
        let mut words = self.words;
        let answer = crate::inject_input(&mut words, message);
        Changed {
            simulation: Simulation { words },
            answer,
        }
    }

    // `step` by value: the same report and rows, and the next simulation.
    pub fn step(self, services: &[f64], rows: &mut [u64]) -> Ran
        ensures reports { Reported result.report (run_in (Calls.step services.now (room_in rows.old)) self.words) rows.old rows.new }
        ensures leaves { result.simulation.words ≡ left_by_run self.words (run_in (Calls.step services.now (room_in rows.old)) self.words) }
    {
        let mut words = self.words;
        let report = crate::step(&mut words, services, rows);
        Ran {
            simulation: Simulation { words },
            report,
        }
    }

    // `step_n` by value: the same report and rows, and the next simulation.
    pub fn step_n(self, services: &[f64], count: u64, rows: &mut [u64]) -> Ran
        ensures reports { Reported result.report (run_in (Calls.step_n services.now (room_in rows.old) count) self.words) rows.old rows.new }
        ensures leaves { result.simulation.words ≡ left_by_run self.words (run_in (Calls.step_n services.now (room_in rows.old) count) self.words) }
    {
        let mut words = self.words;
        let report = crate::step_n(&mut words, services, count, rows);
        Ran {
            simulation: Simulation { words },
            report,
        }
    }

    // `step_until` by value: the same report and rows, and the next simulation.
    pub fn step_until(self, services: &[f64], until: f64, allowance: u32, rows: &mut [u64]) -> Ran
        ensures reports { Reported result.report (run_in (Calls.step_until services.now until (room_in rows.old) allowance) self.words) rows.old rows.new }
        ensures leaves { result.simulation.words ≡ left_by_run self.words (run_in (Calls.step_until services.now until (room_in rows.old) allowance) self.words) }
    {
        let mut words = self.words;
        let report = crate::step_until(&mut words, services, until, allowance, rows);
        Ran {
            simulation: Simulation { words },
            report,
        }
    }

    // `reset` by value: the same answer, and the next simulation.
    pub fn reset(self) -> Changed
        ensures answers { result.answer ≡ answered (call_in Calls.reset self.words) }
        ensures leaves { result.simulation.words ≡ left self.words (call_in Calls.reset self.words) }
    {
        let mut words = self.words;
        let answer = crate::reset(&mut words);
        Changed {
            simulation: Simulation { words },
            answer,
        }
    }

    // `reset_messages` by value: the same answer, and the next simulation.
    pub fn reset_messages(self) -> Changed
        ensures answers { result.answer ≡ answered (call_in Calls.reset_messages self.words) }
        ensures leaves { result.simulation.words ≡ left self.words (call_in Calls.reset_messages self.words) }
    {
        let mut words = self.words;
        let answer = crate::reset_messages(&mut words);
        Changed {
            simulation: Simulation { words },
            answer,
        }
    }

    // `reset_global_time` by value: the same answer, and the next simulation.
    pub fn reset_global_time(self) -> Changed
        ensures answers { result.answer ≡ answered (call_in Calls.reset_global_time self.words) }
        ensures leaves { result.simulation.words ≡ left self.words (call_in Calls.reset_global_time self.words) }
    {
        let mut words = self.words;
        let answer = crate::reset_global_time(&mut words);
        Changed {
            simulation: Simulation { words },
            answer,
        }
    }

    // `get_status` by value: the same answer.
    pub fn get_status(self, id: u16) -> Result<Status, Refusal>
        ensures { result ≡ status_answered (call_in (Calls.get_status id) self.words) }
    {
        let words = self.words;
        crate::get_status(&words, id)
    }

    // `get_messages` by value: the same answer and rows.
    pub fn get_messages(self, rows: &mut [u64]) -> Result<usize, Refusal>
        ensures answers { result ≡ count_told (call_in (Calls.get_messages (room_in rows.old)) self.words) }
        ensures lays { rows.new ≡ listed rows.old (call_in (Calls.get_messages (room_in rows.old)) self.words) }
    {
        let words = self.words;
        crate::get_messages(&words, rows)
    }

    // `get_global_time` by value: the same answer.
    pub fn get_global_time(self) -> Result<f64, Refusal>
        ensures { result ≡ time_told (call_in Calls.get_global_time self.words) }
    {
        let words = self.words;
        crate::get_global_time(&words)
    }
}
