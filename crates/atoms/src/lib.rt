// The three atoms in one place: a state is a timer, a phase and the number of jobs held. An event takes the state and hands the next one back.
// `external` and `internal` ask first what 20 asks. `external_rule` and `internal_rule` are 01's rule alone, for a caller that has asked.
#![tactic(auto)]

pub use batcher::BatcherState;
pub use events::{Handed, Taken, service_time};
pub use processor::{ProcessorState, Served};
pub use stopwatch::StopwatchState;
