// One case: a simulation from its post on.
ghost use Rattle.std.specs.Prelude.{◌≤◌, ◌-◌, length, IfOk, IfSome};

use crate::{calls, lines, say, sheets};
use judging::Differs;
use std::io;

#[derive(Clone, Copy)]
pub(crate) struct Replayed {
    pub(crate) calls: u64,
    pub(crate) differs: bool,
}

// How a case stands: the words that are lent for its state, and what they must be.
#[derive(Drop)]
struct Case<'a> {
    number: u64,
    state: &'a mut [u64],
    told: &'a mut [u64],
    services: &'a [f64],
}

impl Case<'_> {
    // How many of the oracle's numbers are its answer. After post and put one more says where the state ends, which begins with the table; all else in it is 0 at first.
    fn begin(&mut self, asked: &[u64], said: &[u64], count: usize) -> usize {
        if 2 < words::word_at(asked, 0) {
            return count;
        }
        sheets::begin(self.told, asked, words::word_at(said, 1) as usize);
        2
    }

    // The state after a call whose answer is the oracle's, which then says what has changed.
    fn after(&mut self, asked: &[u64], said: &[u64], count: usize) -> Result<(), Differs> {
        let used = self.begin(asked, said, count);
        let state = &mut *self.state;
        let told = &mut *self.told;
        match said.get(used..) {
            Some(changes) if sheets::change(told, changes) => judging::state(state, told),
            _ => Err(Differs::Wrong),
        }
    }

    // Makes a call, and compares its answer and the whole state after it with the oracle's.
    fn make(&mut self, asked: &[u64], said: &[u64]) -> Result<(), Differs> {
        let mut answer = [judging::BEFORE; 4096];
        let count = calls::make(asked, said, self.state, self.services, &mut answer);
        let seen = judging::answer(&answer, count, said);
        if judging::is_same(seen) {
            return self.after(asked, said, count);
        }
        seen
    }

    // The first call of a text: its line, and the line of its answer. The text behind them; None where it differs, and then it was said.
    fn one<'t>(
        &mut self,
        rt: &impl Print,
        call: u64,
        text: &'t [u8],
    ) -> io::Result<Option<&'t [u8]>>
        ensures { IfOk result (λ next. IfSome next (λ rest. length rest.now ≤ length text.now - 1)) }
    {
        let mut asked = [0u64; 4096];
        let mut said = [0u64; 4096];
        let (asked, rest) = lines::read(text, &mut asked);
        let (said, rest) = lines::read(rest, &mut said);
        if let Err(differs) = self.make(asked, said) {
            say::differs(rt, self.number, call, differs)?;
            return Ok(None);
        }
        Ok(Some(rest))
    }

    // The calls of a case, up to the first that differs.
    fn all(&mut self, rt: &impl Print, text: &[u8]) -> io::Result<Replayed> {
        let mut calls: u64 = 0;
        let mut rest = text;
        while !rest.is_empty() {
            calls = calls.saturating_add(1);
            let Some(next) = self.one(rt, calls, rest)? else {
                return Ok(Replayed {
                    calls,
                    differs: true,
                });
            };
            rest = next;
        }
        Ok(Replayed {
            calls,
            differs: false,
        })
    }
}

// A case that does not begin as cases do.
fn wrong(rt: &impl Print, case: u64) -> io::Result<Replayed> {
    say::differs(rt, case, 0, Differs::Wrong)?;
    Ok(Replayed {
        calls: 0,
        differs: true,
    })
}

// The calls, with so many words lent for the state and these service times.
fn lend(rt: &impl Print, case: u64, words: u64, bits: &[u64], text: &[u8]) -> io::Result<Replayed> {
    let mut times = [0f64; 512];
    let mut state = [judging::BEFORE; 17286];
    let mut told = [judging::BEFORE; 17286];
    if 17286 < words || times.len() < bits.len() {
        return wrong(rt, case);
    }
    for (time, bits) in times.iter_mut().zip(bits) {
        *time = calls::time_of(*bits);
    }
    let mut case = Case {
        number: case,
        state: &mut state[..words as usize],
        told: &mut told[..words as usize],
        services: &times[..bits.len()],
    };
    case.all(rt, text)
}

// A case: its first line has its number, how many words are lent for the state, and the service times; then come the calls.
pub(crate) fn replay(rt: &impl Print, text: &[u8]) -> io::Result<Replayed> {
    let mut head = [0u64; 1024];
    match lines::read(text, &mut head) {
        ([case, words, bits @ ..], calls) => lend(rt, *case, *words, bits, calls),
        _ => wrong(rt, 0),
    }
}
