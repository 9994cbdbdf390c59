// The step (000) in place: messages taken, the advance, the timers, the turns of the models without parent, the messages sent.
// The words hold how many messages are active, the clock, the place in the service list, the rows, and from `active` on the messages; after these, room for what events put out.
#![tactic(auto)]

ghost use Rattle.std.specs.Prelude.{◌≡◌, ◌+◌, ◌≤◌, ◌<◌, length, T};
ghost use Rattle.times.specs.Time.{is_time};
ghost use Rattle.rules.specs.Step as Step;
ghost use Rattle.rules.specs.Depth.{Deep};
ghost use Rattle.memory.specs.Words.{word_at};
ghost use Rattle.lookup.specs.Inside.{Inside, table_in};
ghost use Rattle.views.specs.World.{end_of, Frame};
ghost use Rattle.views.specs.Messages.{messages_in, Joined};
ghost use Rattle.model_events.specs.Events.{Scene, Event};
ghost use Rattle.stepping.specs.declared.Stopped.TheVariants.{Halfway};
ghost use Rattle.stepping.specs.Simulating.{clock_in, turns_of, Sound, Steps, Closed};
ghost use Rattle.stepping.specs.Whole.{stamped};

use rules::Refusal;

// Why a step was not done. Refused halfway, the words hold no simulation that is to be kept.
#[derive(Clone, Copy)]
pub enum Stopped {
    Untouched(Refusal),
    Halfway(Refusal),
}

// What `?` hands on was refused once something may have been written.
impl From<Refusal> for Stopped {
    ghost from_gives = { λ refusal stopped. stopped ≡ Halfway refusal };

    fn from(refusal: Refusal) -> Stopped {
        Stopped::Halfway(refusal)
    }
}

// The clock, from its bits.
pub fn clock_at(mem: &[u64]) -> f64
    requires { (2 ≤ length mem.now) × T (is_time (clock_in mem.now)) }
    ensures { result ≡ clock_in mem.now }
{
    times::time_of_bits(mem[1]).unwrap_or(0.0)
}

// How many messages are active, and the clock's bits.
fn stamp(mem: &mut [u64], count: u64, bits: u64)
    requires { 2 ≤ length mem.old }
    ensures { mem.new ≡ stamped count bits mem.old }
{
    mem[0] = count;
    mem[1] = bits;
}

// A model without parent has its turn: where it is due it has its event, and what it puts out is sent. So many were sent so far.
fn root_turn(
    state: &[u64],
    services: &[f64],
    mem: &mut [u64],
    clock: f64,
    row: usize,
    active: usize,
    count: usize,
) -> Result<usize, Refusal>
    requires { Event state.now mem.old clock row × Deep (table_in state.now) 5 row × (end_of (table_in state.now) ≤ active) × (active + 2816 ≤ length mem.old) × (count ≤ 256) }
    ensures joins { Joined result (messages_in active) 256 count (Step.root_turn (table_in state.now) services.now clock row) (table_in state.now) mem.old mem.new }
    ensures frame { Frame (table_in state.now) active (length mem.old) mem.old mem.new }
{
    if !model_events::is_due(state, mem, 5, row) {
        return Ok(count);
    }
    let at = active + 1536;
    let messages = internal_events::internal(state, services, mem, 5, clock, row, at)?;
    sending::send_all(state, mem, row, clock, at, messages, active, count)
}

// Each model without parent in row order. A row whose timer's word is not 0 is not due.
fn root_turns(
    state: &[u64],
    services: &[f64],
    mem: &mut [u64],
    clock: f64,
    active: usize,
) -> Result<usize, Refusal>
    requires { Scene state.now mem.old clock × (end_of (table_in state.now) ≤ active) × (active + 2816 ≤ length mem.old) }
    ensures joins { Joined result (messages_in active) 256 0 (turns_of (table_in state.now) services.now clock) (table_in state.now) mem.old mem.new }
    ensures frame { Frame (table_in state.now) active (length mem.old) mem.old mem.new }
{
    let mut count = 0;
    let mut from = 0;
    while let Some(row) = lookup::next_parentless(
        state,
        row_timers::next_at_zero(state, mem, from),
    ) {
        count = root_turn(state, services, mem, clock, row, active, count)?;
        from = row + 1;
    }
    Ok(count)
}

// The turns, at the new clock; then the messages sent replace the active ones.
fn close(
    state: &[u64],
    services: &[f64],
    mem: &mut [u64],
    clock: f64,
    active: usize,
) -> Result<(), Refusal>
    requires { Scene state.now mem.old clock × (active ≡ end_of (table_in state.now)) × (active + 2816 ≤ length mem.old) }
    ensures closes { Closed result (table_in state.now) services.now clock mem.old mem.new }
    ensures long { length mem.new ≡ length mem.old }
{
    let count = root_turns(state, services, mem, clock, active)?;
    stamp(mem, count as u64, times::bits_of(clock));
    Ok(())
}

// A step without active messages: the least timer is the advance.
fn advance_step(
    state: &[u64],
    services: &[f64],
    mem: &mut [u64],
    clock: f64,
    active: usize,
) -> Result<(), Stopped>
    requires { Inside state.now × Sound (table_in state.now) mem.old × (clock ≡ clock_in mem.old) × (active ≡ end_of (table_in state.now)) × (word_at mem.old 0 ≡ 0) }
    ensures steps { Steps result services.now (table_in state.now) mem.old mem.new }
    ensures long { length mem.new ≡ length mem.old }
{
    let advance = row_timers::least_timer(state, mem);
    if advance == times::never() {
        return Err(Stopped::Untouched(Refusal::Idle));
    }
    let Some(next) = times::advance_clock(clock, advance) else {
        return Err(Stopped::Untouched(Refusal::ClockOverflow));
    };
    row_timers::pass(state, mem, advance);
    close(state, services, mem, next, active)?;
    Ok(())
}

// A step with active messages: they are taken, and the advance is 0.
fn message_step(
    state: &[u64],
    services: &[f64],
    mem: &mut [u64],
    clock: f64,
    active: usize,
) -> Result<(), Stopped>
    requires { Inside state.now × Sound (table_in state.now) mem.old × (clock ≡ clock_in mem.old) × (active ≡ end_of (table_in state.now)) × (0 < word_at mem.old 0) }
    ensures steps { Steps result services.now (table_in state.now) mem.old mem.new }
    ensures long { length mem.new ≡ length mem.old }
{
    let count = mem[0] as usize;
    taking::take_all(state, services, mem, clock, active, count)?;
    close(state, services, mem, clock, active)?;
    Ok(())
}

// The rules' step, done in the words, or refused as there: Untouched where nothing was written yet. The active messages stand from `active` on.
pub fn step(state: &[u64], services: &[f64], mem: &mut [u64], active: usize) -> Result<(), Stopped>
    requires { Inside state.now × Sound (table_in state.now) mem.old × (active ≡ end_of (table_in state.now)) }
    ensures steps { Steps result services.now (table_in state.now) mem.old mem.new }
    ensures long { length mem.new ≡ length mem.old }
{
    let clock = clock_at(mem);
    if mem[0] == 0 {
        return advance_step(state, services, mem, clock, active);
    }
    message_step(state, services, mem, clock, active)
}
