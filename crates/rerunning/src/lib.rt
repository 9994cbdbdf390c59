// One step of a run in place; a refused step is undone by running the completed ones again from the lent state.
#![tactic(auto)]

ghost use Rattle.std.specs.Prelude.{◌≡◌, ℕ, ◌+◌, ◌≤◌, length, T};
ghost use Rattle.times.specs.Time.{is_timer};
ghost use Rattle.rules.specs.Base.{done};
ghost use Rattle.memory.specs.Words.{word_at};
ghost use Rattle.lookup.specs.Inside.{table_in};
ghost use Rattle.views.specs.World.{end_of};
ghost use Rattle.stepping.specs.Simulating.{sim_in, Sound};
ghost use Rattle.rerunning.specs.Running.{Stored, sim_of, reached, Completed, Nexts};
ghost use Rattle.rerunning.specs.RunningLaws.{Looked};

use rules::Refusal;
use stepping::Stopped;

// The lent state's simulation into the words that a run works on.
pub fn load(state: &[u64], mem: &mut [u64], active: usize)
    requires { Stored state.now × (end_of (table_in state.now) + 2816 ≤ length mem.old) × (active ≡ end_of (table_in state.now)) }
    ensures loads { sim_in (table_in state.now) mem.new ≡ sim_of state.now }
    ensures sound { Sound (table_in state.now) mem.new }
    ensures long { length mem.new ≡ length mem.old }
{
    let tail = lookup::tail_at(state);
    let count = state[tail] as usize;
    copying::copy(mem, state, tail, active + count * 6);
}

// The lent state's simulation into words that are all 0, by the words that are held alone.
pub fn load_fresh(state: &[u64], mem: &mut [u64], active: usize)
    requires { Stored state.now × (end_of (table_in state.now) + 2816 ≤ length mem.old) × (active ≡ end_of (table_in state.now)) × ((p : ℕ) → word_at mem.old p ≡ 0) }
    ensures loads { sim_in (table_in state.now) mem.new ≡ sim_of state.now }
    ensures sound { Sound (table_in state.now) mem.new }
    ensures long { length mem.new ≡ length mem.old }
{
    let tail = lookup::tail_at(state);
    let rows = lookup::row_count(state);
    let count = state[tail] as usize;
    copying::copy_held(mem, &state[tail..], rows, active, count);
}

// So many steps again, from the lent state. They were completed before.
fn again(state: &[u64], services: &[f64], mem: &mut [u64], active: usize, steps: u64)
    requires { Stored state.now × (end_of (table_in state.now) + 2816 ≤ length mem.old) × (active ≡ end_of (table_in state.now)) × Completed (table_in state.now) services.now steps (sim_of state.now) }
    ensures again { reached (table_in state.now) services.now steps (sim_of state.now) ≡ done (sim_in (table_in state.now) mem.new) }
    ensures sound { Sound (table_in state.now) mem.new }
    ensures long { length mem.new ≡ length mem.old }
{
    load(state, mem, active);
    for _completed in 0..steps {
        if stepping::step(state, services, mem, active).is_err() {
            return;
        }
    }
}

// After a completed step: the look at the clock, and at the room left. Where there is none the step is undone.
fn look(
    state: &[u64],
    services: &[f64],
    mem: &mut [u64],
    active: usize,
    until: f64,
    steps: u64,
    room: usize,
) -> Result<Option<usize>, Refusal>
    requires { Stored state.now × Sound (table_in state.now) mem.old × (active ≡ end_of (table_in state.now)) × Completed (table_in state.now) services.now steps (sim_of state.now) }
    ensures looks { Looked result services.now until room steps state.now mem.old mem.new }
    ensures long { length mem.new ≡ length mem.old }
{
    let clock = stepping::clock_at(mem);
    if clock < until {
        let count = mem[0] as usize;
        if count <= room {
            return Ok(Some(count));
        }
        again(state, services, mem, active, steps);
        return Err(Refusal::NoOutRoom);
    }
    Ok(None)
}

// One step more than `steps`, and the look at the clock and at the room left: so many messages are to be collected, `None` where `until` is reached, or refused. After a refusal the words hold the simulation of the `steps` before it.
pub fn next_step(
    state: &[u64],
    services: &[f64],
    mem: &mut [u64],
    active: usize,
    until: f64,
    steps: u64,
    room: usize,
) -> Result<Option<usize>, Refusal>
    requires { Stored state.now × Sound (table_in state.now) mem.old × (active ≡ end_of (table_in state.now)) × T (is_timer until) × (reached (table_in state.now) services.now steps (sim_of state.now) ≡ done (sim_in (table_in state.now) mem.old)) }
    ensures nexts { Nexts result services.now until room (table_in state.now) mem.old mem.new }
    ensures long { length mem.new ≡ length mem.old }
{
    match stepping::step(state, services, mem, active) {
        Ok(()) => look(state, services, mem, active, until, steps, room),
        Err(Stopped::Untouched(refusal)) => Err(refusal),
        Err(Stopped::Halfway(refusal)) => {
            again(state, services, mem, active, steps);
            Err(refusal)
        }
    }
}
