// The shared types of document 01: refusals, phases, metric, message, and what a model's row says of it.
// Their rules are definitions in specs/.
#![tactic(auto)]

ghost use Rattle.std.specs.Prelude.{◌≡◌};
ghost use Rattle.rules.specs.Names as Names;

// 01, "Refusal numbers", and 14 of 02's A1: each with its number.
#[derive(Clone, Copy, Debug, PartialEq, Eq)]
pub enum Refusal {
    TooLarge = 1,
    BadRow = 2,
    BadCoupling = 3,
    ModelNotFound = 4,
    InvalidMessage = 5,
    InvalidModelState = 6,
    NoQueueRoom = 7,
    NoMessageRoom = 8,
    NoServiceTime = 9,
    BadTime = 10,
    ClockOverflow = 11,
    Idle = 12,
    NoOutRoom = 13,
    BadBlock = 14,
    BadState = 20,
}

#[derive(Clone, Copy, Debug, PartialEq, Eq)]
pub enum ProcessorPhase {
    Passive,
    Active,
}

#[derive(Clone, Copy, Debug, PartialEq, Eq)]
pub enum BatcherPhase {
    Passive,
    Batching,
    Release,
}

#[derive(Clone, Copy, Debug, PartialEq, Eq)]
pub enum StopwatchPhase {
    Passive,
    JobFetch,
}

#[derive(Clone, Copy, Debug, PartialEq, Eq)]
pub enum Metric {
    Minimum,
    Maximum,
}

// What `queue_capacity` is in a row that omits it (`Sizes.omitted_capacity`).
pub const OMITTED_CAPACITY: u64 = 32;

// What the rows of the three atoms say: their ports, and their settings, named as in the Rust.
// A stopwatch is asked for its metric at the port `ask`.
#[derive(Clone, Copy)]
pub struct Processor {
    pub input: u16,
    pub output: u16,
    pub queue_capacity: u64,
}

#[derive(Clone, Copy)]
pub struct Batcher {
    pub input: u16,
    pub output: u16,
    pub max_batch_size: u64,
    pub max_batch_time: f64,
}

#[derive(Clone, Copy)]
pub struct Stopwatch {
    pub start: u16,
    pub stop: u16,
    pub ask: u16,
    pub output: u16,
    pub metric: Metric,
}

#[derive(Clone, Copy)]
pub struct Message {
    pub source_id: u16,
    pub source_port: u16,
    pub target_id: u16,
    pub target_port: u16,
    pub time: f64,
    pub content: u32,
}

// The number of a refusal.
pub fn number(refusal: Refusal) -> u32
    ensures { result ≡ Names.number refusal }
{
    refusal as u32
}
