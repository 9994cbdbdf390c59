// Events of models in place, Coupleds among them, and whether a model is due (01, "Coupled (001)").
#![tactic(auto)]

ghost use Rattle.std.specs.Prelude.{◌≡◌, false, ℕ, suc, ◌<◌, length};
ghost use Rattle.rules.specs.Base.{some_of};
ghost use Rattle.rules.specs.Table.{id_at, kind_at, is_coupled, coupled, components};
ghost use Rattle.rules.specs.Step as Step;
ghost use Rattle.rules.specs.Ends.{All};
ghost use Rattle.rules.specs.Depth.{Deep};
ghost use Rattle.selection.specs.Selected.{leads_to};
ghost use Rattle.lookup.specs.Inside.{Inside, table_in, couplings_in};
ghost use Rattle.views.specs.World.{Ready, Frame, Does, states_in};
ghost use Rattle.model_events.specs.Events.{Scene, Event, to_target};

use rules::Refusal;
use table::Kind;

// Whether a model's timer is 0: an atom's own; a Coupled's while a message is parked in it, or where that of a component inside is.
#[cycle(has_due_is_due)]
pub fn is_due(state: &[u64], mem: &[u64], depth: usize, row: usize) -> bool
    requires { Inside state.now × Ready (table_in state.now) mem.now × (row < length (table_in state.now).rows) }
    ensures { result ≡ Step.due (table_in state.now) depth (states_in (table_in state.now) mem.now) row }
{
    if depth == 0 {
        return false;
    }
    if lookup::is_coupled(state, row) {
        if 0 < memory::held_at(mem, row) {
            return true;
        }
        return has_due(state, mem, depth - 1, row);
    }
    memory::timer_at(mem, row) == 0.0
}

// Whether a component of the row is due.
#[cycle(has_due_is_due)]
fn has_due(state: &[u64], mem: &[u64], depth: usize, row: usize) -> bool
    requires { Inside state.now × Ready (table_in state.now) mem.now × (row < length (table_in state.now).rows) }
    ensures { result ≡ some_of (Step.due (table_in state.now) depth (states_in (table_in state.now) mem.now)) (components (table_in state.now) (id_at (table_in state.now) row)) }
{
    let owner = lookup::id_of(state, row);
    let mut from = 0;
    while let Some(component) = lookup::next_component(state, from, owner) {
        if is_due(state, mem, depth, component) {
            return true;
        }
        from = component + 1;
    }
    false
}

// An atom's external event.
fn atom_external(
    state: &[u64],
    services: &[f64],
    mem: &mut [u64],
    clock: f64,
    row: usize,
    port: u16,
    content: u32,
) -> Result<(), Refusal>
    requires { Event state.now mem.old clock row × (is_coupled (kind_at (table_in state.now) row) ≡ false) }
    ensures does { (depth : ℕ) → Does result (Step.external (table_in state.now) services.now (suc depth) clock row port content) (table_in state.now) mem.old mem.new }
    ensures frame { Frame (table_in state.now) 0 0 mem.old mem.new }
{
    match lookup::kind_of(state, row) {
        Kind::Processor(model) => {
            queue_rows::processor_external(mem, services, row, model, port, content)
        }
        Kind::Batcher(model) => queue_rows::batcher_external(mem, row, model, content),
        Kind::Stopwatch(model) => {
            watch_rows::stopwatch_external(mem, row, model, clock, port, content)
        }
        Kind::Coupled => Err(Refusal::BadState),
    }
}

// A message comes to a model, `content` at `port`: the rules' external event, done in the rows' words, or refused as there. So many levels are left below it.
// kept: what an event is lent goes side by side, since `mem` alone is written; a struct with all of it would be lent as written whole, and its clauses say of each other field that it stays
#[cycle(external_to_components_to_target)]
pub fn external(
    state: &[u64],
    services: &[f64],
    mem: &mut [u64],
    depth: usize,
    clock: f64,
    row: usize,
    port: u16,
    content: u32,
) -> Result<(), Refusal>
    requires { Event state.now mem.old clock row × Deep (table_in state.now) depth row }
    ensures does { Does result (Step.external (table_in state.now) services.now depth clock row port content) (table_in state.now) mem.old mem.new }
    ensures frame { Frame (table_in state.now) 0 0 mem.old mem.new }
{
    if depth == 0 {
        return Err(Refusal::BadState);
    }
    if lookup::is_coupled(state, row) {
        return to_components(state, services, mem, depth - 1, clock, row, port, content);
    }
    atom_external(state, services, mem, clock, row, port, content)
}

// A message to a Coupled goes at once along every matching external input coupling.
#[cycle(external_to_components_to_target)]
fn to_components(
    state: &[u64],
    services: &[f64],
    mem: &mut [u64],
    depth: usize,
    clock: f64,
    row: usize,
    port: u16,
    content: u32,
) -> Result<(), Refusal>
    requires { Event state.now mem.old clock row × (kind_at (table_in state.now) row ≡ coupled) × All (Deep (table_in state.now) depth) (components (table_in state.now) (id_at (table_in state.now) row)) }
    ensures does { Does result (Step.external (table_in state.now) services.now (suc depth) clock row port content) (table_in state.now) mem.old mem.new }
    ensures frame { Frame (table_in state.now) 0 0 mem.old mem.new }
{
    let owner = lookup::id_of(state, row);
    let mut from = 0;
    while let Some(coupling) = lookup::next_input(state, from, owner, port as u64) {
        to_target(state, services, mem, depth, clock, owner, coupling, content)?;
        from = coupling + 1;
    }
    Ok(())
}

// Along one coupling, to the component that it names.
#[cycle(external_to_components_to_target)]
fn to_target(
    state: &[u64],
    services: &[f64],
    mem: &mut [u64],
    depth: usize,
    clock: f64,
    owner: u64,
    coupling: usize,
    content: u32,
) -> Result<(), Refusal>
    requires { Scene state.now mem.old clock × (coupling < length (table_in state.now).couplings) × All (Deep (table_in state.now) depth) (components (table_in state.now) owner) }
    ensures does { Does result (to_target (table_in state.now) services.now depth clock owner (leads_to (couplings_in state.now) coupling) content) (table_in state.now) mem.old mem.new }
    ensures frame { Frame (table_in state.now) 0 0 mem.old mem.new }
{
    let to = lookup::coupling_target(state, coupling);
    match lookup::component_of(state, owner, to.id) {
        None => Ok(()),
        Some(component) => external(
            state,
            services,
            mem,
            depth,
            clock,
            component,
            to.port as u16,
            content,
        ),
    }
}
