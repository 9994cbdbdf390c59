// How a file is run: what is asked for, how it goes, and the status that it ends with.
use crate::out::Listing;
use crate::trace::Trace;
use rules::Refusal;
use std::fs::OpenOptions;
use std::io::Write;

#[derive(Clone, Copy)]
pub(crate) enum Status {
    // The file goes on, or was run to its end.
    Ran,
    // The file is wrong or cannot be read.
    Wrong,
    // A table, an injection or a run was refused.
    Refused(Refusal),
    // The listing could not be written.
    Lost,
    // Nobody reads the listing any more.
    Left,
    // The trace could not be written. The listing still can, so that is no `Lost` before the end.
    Cut,
}

impl Status {
    // Nothing is left to do.
    pub(crate) fn is_idle(self) -> bool {
        matches!(self, Status::Refused(Refusal::Idle))
    }

    // What the command is told.
    fn code(self) -> u8 {
        match self {
            Status::Ran => 0,
            Status::Wrong => 1,
            Status::Refused(_) => 3,
            Status::Lost | Status::Cut => 4,
            Status::Left => 5,
        }
    }
}

// What the command finds on descriptor 3.
const TOLD: &str = "/proc/self/fd/3";

// Tells the command that started the program, on a descriptor that nothing of a bench file reaches. Without it the program was ended by
// something else. Where nobody asks for it, nothing is told.
pub(crate) fn tell(rt: HostRuntime, status: Status) {
    let code = status.code();
    if let Ok(mut told) = OpenOptions::new().append(true).open(&rt, TOLD) {
        let _ = write!(told, "{code}");
    }
}

// What a person asked for: the messages' rows, clocks in decimal, no warnings.
#[derive(Clone, Copy)]
pub(crate) struct Settings {
    pub rows: bool,
    pub decimal: bool,
    pub quiet: bool,
}

// A bench file as it was read.
#[derive(Clone, Copy)]
pub(crate) struct Bench<'a> {
    pub path: &'a [u8],
    pub text: &'a [u8],
    pub models: &'a [u64],
    pub connectors: &'a [u64],
    pub couplings: &'a [u64],
    // As bits.
    pub services: &'a [u64],
    pub actions: &'a [u64],
}

// A run.
#[derive(Drop)]
pub(crate) struct Course<'a> {
    pub settings: Settings,
    pub listing: Listing<'a>,
    pub trace: Trace<'a>,
    pub state: &'a mut [u64],
    pub services: &'a [f64],
    // Those that wait for the trace, and behind them those of a step.
    pub rows: &'a mut [u64],
    // Of the next step, counted from 1 through the whole file.
    pub number: u64,
    // The action of the last run, where that ended idle.
    pub idle: Option<usize>,
}
