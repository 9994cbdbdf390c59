// Internal events of models in place, Coupleds among them (01, "Coupled (001)").
#![tactic(auto)]

ghost use Rattle.std.specs.Prelude.{◌≡◌, false, ℕ, suc, ◌+◌, ◌*◌, ◌≤◌, ◌<◌, length};
ghost use Rattle.rules.specs.Base.{each};
ghost use Rattle.rules.specs.Table.{id_at, kind_at, is_coupled, coupled, components};
ghost use Rattle.rules.specs.Step as Step;
ghost use Rattle.rules.specs.Ends.{All};
ghost use Rattle.rules.specs.Depth.{Deep};
ghost use Rattle.lookup.specs.Inside.{table_in};
ghost use Rattle.views.specs.World.{end_of, Frame, Gives};
ghost use Rattle.views.specs.Messages.{Hands};
ghost use Rattle.model_events.specs.Events.{Event};

use rules::Refusal;
use table::Kind;

// An atom's internal event. What it puts out stands from `at` on.
fn atom_internal(
    state: &[u64],
    services: &[f64],
    mem: &mut [u64],
    clock: f64,
    row: usize,
    at: usize,
) -> Result<usize, Refusal>
    requires { Event state.now mem.old clock row × (is_coupled (kind_at (table_in state.now) row) ≡ false) × (end_of (table_in state.now) ≤ at) × (at + 256 ≤ length mem.old) }
    ensures gives { (depth : ℕ) → Gives result at (Step.internal (table_in state.now) services.now (suc depth) clock row) (table_in state.now) mem.old mem.new }
    ensures frame { Frame (table_in state.now) at (length mem.old) mem.old mem.new }
{
    match lookup::kind_of(state, row) {
        Kind::Processor(model) => { queue_rows::processor_internal(mem, services, row, model, at) }
        Kind::Batcher(model) => queue_rows::batcher_internal(mem, row, model, at),
        Kind::Stopwatch(model) => watch_rows::stopwatch_internal(mem, row, model, at),
        Kind::Coupled => Err(Refusal::BadState),
    }
}

// A model's timer has run out: the rules' internal event, done in the rows' words, or refused as there. So many levels are left below it.
// What it puts out stands from `at` on; what the models inside put out, after that, 256 words a level.
// kept: what an event is lent goes side by side, since `mem` alone is written; a struct with all of it would be lent as written whole, and its clauses say of each other field that it stays
#[cycle(coupled_internal_internal_turn_turns)]
pub fn internal(
    state: &[u64],
    services: &[f64],
    mem: &mut [u64],
    depth: usize,
    clock: f64,
    row: usize,
    at: usize,
) -> Result<usize, Refusal>
    requires { Event state.now mem.old clock row × Deep (table_in state.now) depth row × (end_of (table_in state.now) ≤ at) × (at + depth * 256 ≤ length mem.old) }
    ensures gives { Gives result at (Step.internal (table_in state.now) services.now depth clock row) (table_in state.now) mem.old mem.new }
    ensures frame { Frame (table_in state.now) at (length mem.old) mem.old mem.new }
{
    if depth == 0 {
        return Err(Refusal::BadState);
    }
    if lookup::is_coupled(state, row) {
        return coupled_internal(state, services, mem, depth - 1, clock, row, at);
    }
    atom_internal(state, services, mem, clock, row, at)
}

// A Coupled's: its parked messages are delivered, its list is emptied, and each component that is due has its turn.
#[cycle(coupled_internal_internal_turn_turns)]
fn coupled_internal(
    state: &[u64],
    services: &[f64],
    mem: &mut [u64],
    depth: usize,
    clock: f64,
    row: usize,
    at: usize,
) -> Result<usize, Refusal>
    requires { Event state.now mem.old clock row × (kind_at (table_in state.now) row ≡ coupled) × All (Deep (table_in state.now) depth) (components (table_in state.now) (id_at (table_in state.now) row)) × (end_of (table_in state.now) ≤ at) × (at + 256 + depth * 256 ≤ length mem.old) }
    ensures gives { Gives result at (Step.internal (table_in state.now) services.now (suc depth) clock row) (table_in state.now) mem.old mem.new }
    ensures frame { Frame (table_in state.now) at (length mem.old) mem.old mem.new }
{
    unparking::unpark(state, services, mem, depth, clock, row)?;
    parked_rows::empty(mem, row);
    turns(state, services, mem, depth, clock, row, at)
}

// Each component in order has its turn.
#[cycle(coupled_internal_internal_turn_turns)]
fn turns(
    state: &[u64],
    services: &[f64],
    mem: &mut [u64],
    depth: usize,
    clock: f64,
    row: usize,
    at: usize,
) -> Result<usize, Refusal>
    requires { Event state.now mem.old clock row × (kind_at (table_in state.now) row ≡ coupled) × All (Deep (table_in state.now) depth) (components (table_in state.now) (id_at (table_in state.now) row)) × (end_of (table_in state.now) ≤ at) × (at + 256 + depth * 256 ≤ length mem.old) }
    ensures hands { Hands result 0 at (λ x. each (Step.turn (table_in state.now) services.now depth (Step.internal (table_in state.now) services.now depth clock) row) (components (table_in state.now) (id_at (table_in state.now) row)) x) (table_in state.now) mem.old mem.new }
    ensures frame { Frame (table_in state.now) at (length mem.old) mem.old mem.new }
{
    let owner = lookup::id_of(state, row);
    let mut count = 0;
    let mut from = 0;
    while let Some(component) = lookup::next_component(state, from, owner) {
        count = turn(
            state, services, mem, depth, clock, row, component, at, count,
        )?;
        from = component + 1;
    }
    Ok(count)
}

// A component's turn: where it is due it has its event, and what it puts out is handed on. The Coupled has put out `count` so far.
#[cycle(coupled_internal_internal_turn_turns)]
fn turn(
    state: &[u64],
    services: &[f64],
    mem: &mut [u64],
    depth: usize,
    clock: f64,
    row: usize,
    component: usize,
    at: usize,
    count: usize,
) -> Result<usize, Refusal>
    requires { Event state.now mem.old clock row × (kind_at (table_in state.now) row ≡ coupled) × (component < length (table_in state.now).rows) × Deep (table_in state.now) depth component × (end_of (table_in state.now) ≤ at) × (at + 256 + depth * 256 ≤ length mem.old) × (count ≤ 256) }
    ensures hands { Hands result count at (Step.turn (table_in state.now) services.now depth (Step.internal (table_in state.now) services.now depth clock) row component) (table_in state.now) mem.old mem.new }
    ensures frame { Frame (table_in state.now) at (length mem.old) mem.old mem.new }
{
    if !model_events::is_due(state, mem, depth, component) {
        return Ok(count);
    }
    let messages = internal(state, services, mem, depth, clock, component, at + 256)?;
    handing::hand_all(state, mem, row, component, at + 256, messages, at, count)
}
