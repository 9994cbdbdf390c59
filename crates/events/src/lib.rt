// What the atoms' events answer, and the service list that they read.
#![tactic(auto)]

ghost use Rattle.std.specs.Prelude.{◌≡◌};
ghost use Rattle.rules.specs.Models as Models;
ghost use Rattle.events.specs.Meaning.{service_of};

use rules::Refusal;

// What became of what came, where it is not refused.
#[derive(Clone, Copy)]
pub enum Taken {
    Started,
    Kept,
    Dropped,
    Marked,
    Asked,
}

// What an event hands back: the next state, or the state as it was after a refusal; and what came of the event.
#[derive(Clone, Copy)]
pub struct Handed<S, A> {
    pub next: S,
    pub answer: Result<A, Refusal>,
}

// The service time at a place, with the place after it: 9 past the end, 10 where it is no time.
pub fn service_time(services: &[f64], place: u64) -> Result<(f64, u64), Refusal>
    ensures { service_of result ≡ Models.service services.now place }
{
    let at = place as usize;
    if services.len() <= at {
        return Err(Refusal::NoServiceTime);
    }
    let time = services[at];
    if times::is_time(time) {
        Ok((time, place + 1))
    } else {
        Err(Refusal::BadTime)
    }
}
