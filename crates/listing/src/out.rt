// The listing: gathered in a lent buffer, and written to standard output when that is full and at the end.
use crate::course::Status;
use crate::say;
use rules::Refusal;
use std::fmt;
use std::fmt::{Display, Write};
use std::io::ErrorKind;

#[derive(Drop)]
pub(crate) struct Listing<'a> {
    pub rt: HostRuntime,
    pub status: Status,
    buffer: &'a mut [u8],
    // How many bytes wait in the buffer.
    held: usize,
}

impl<'a> Listing<'a> {
    pub(crate) fn new(rt: HostRuntime, buffer: &'a mut [u8]) -> Self {
        Listing {
            rt,
            status: Status::Ran,
            buffer,
            held: 0,
        }
    }
}

impl Listing<'_> {
    pub(crate) fn goes_on(&self) -> bool {
        matches!(self.status, Status::Ran)
    }

    // Writes what waits. Once that failed, nothing more is written.
    pub(crate) fn flush(&mut self) {
        let held = self.held;
        if held <= self.buffer.len() {
            self.status = written(self.rt, self.status, &self.buffer[..held]);
        }
        self.held = 0;
    }

    fn byte(&mut self, byte: u8) {
        if self.buffer.len() <= self.held {
            self.flush();
        }
        let held = self.held;
        if held < self.buffer.len() {
            self.buffer[held] = byte;
            self.held = held + 1;
        }
    }

    pub(crate) fn print(&mut self, text: impl Display + Drop) {
        let _ = write!(self, "{text}");
    }

    // How something ended by a refusal.
    pub(crate) fn end_refused(&mut self, refusal: Refusal) {
        let refused = Refused(refusal);
        self.print(format_args!("{refused}\n"));
        self.flush();
    }
}

impl Write for Listing<'_> {
    fn write_str(&mut self, s: &str) -> fmt::Result {
        for byte in s.as_bytes() {
            self.byte(*byte);
        }
        Ok(())
    }
}

// Writes bytes to standard output: how it stands then. Where nobody reads the listing, a trace that could not be written still counts.
fn written(rt: HostRuntime, status: Status, bytes: &[u8]) -> Status {
    if let Status::Lost | Status::Left = status {
        return status;
    }
    let Err(error) = rt.stdout().write_all(bytes) else {
        return status;
    };
    if error.kind() != ErrorKind::BrokenPipe {
        say::fail(rt, b"jambthrush: standard output", error);
        return Status::Lost;
    }
    match status {
        Status::Cut => Status::Cut,
        _ => Status::Left,
    }
}

// `refused N NAME`
#[derive(Clone, Copy)]
pub(crate) struct Refused(pub Refusal);

impl Display for Refused {
    fn fmt<W: fmt::Write>(&self, f: &mut fmt::Formatter<W>) -> fmt::Result {
        let number = rules::number(self.0);
        let name = name(self.0);
        write!(f, "refused {number} {name}")
    }
}

fn name(refusal: Refusal) -> &'static str {
    match refusal {
        Refusal::TooLarge => "TooLarge",
        Refusal::BadRow => "BadRow",
        Refusal::BadCoupling => "BadCoupling",
        Refusal::ModelNotFound => "ModelNotFound",
        Refusal::InvalidMessage => "InvalidMessage",
        Refusal::InvalidModelState => "InvalidModelState",
        Refusal::NoQueueRoom => "NoQueueRoom",
        Refusal::NoMessageRoom => "NoMessageRoom",
        Refusal::NoServiceTime => "NoServiceTime",
        Refusal::BadTime => "BadTime",
        Refusal::ClockOverflow => "ClockOverflow",
        Refusal::Idle => "Idle",
        Refusal::NoOutRoom => "NoOutRoom",
        Refusal::BadBlock => "BadBlock",
        Refusal::BadState => "BadState",
    }
}

// A time in decimal: at most six places after the point, and no zeros at their end.
#[derive(Clone, Copy)]
pub(crate) struct Decimal(pub f64);

impl Display for Decimal {
    fn fmt<W: fmt::Write>(&self, f: &mut fmt::Formatter<W>) -> fmt::Result {
        let read = decimals::micros_of(self.0);
        let whole = read.whole;
        let mut rest = read.micros;
        write!(f, "{whole}")?;
        if rest != 0 {
            write!(f, ".")?;
        }
        for place in [100_000, 10_000, 1_000, 100, 10, 1] {
            if rest == 0 {
                break;
            }
            let digit = rest / place;
            write!(f, "{digit}")?;
            rest %= place;
        }
        Ok(())
    }
}
