// A Coupled's parked messages go to their components: in component order, then parked order (01, "Coupled (001)").
#![tactic(auto)]

ghost use Rattle.std.specs.Prelude.{◌≡◌, ◌+◌, ◌-◌, ◌≤◌, ◌<◌, length};
ghost use Rattle.rules.specs.Table.{id_at, kind_at, coupled, components};
ghost use Rattle.rules.specs.Step as Step;
ghost use Rattle.rules.specs.Ends.{All};
ghost use Rattle.rules.specs.Depth.{Deep};
ghost use Rattle.words.specs.Search.{first_from};
ghost use Rattle.memory.specs.View.{parked_of, parked_in};
ghost use Rattle.lookup.specs.Inside.{table_in};
ghost use Rattle.views.specs.World.{begin_of, Frame, Does};
ghost use Rattle.model_events.specs.Events.{Event};
ghost use Rattle.unparking.specs.Unparking.{is_for, handed, takes};

use rules::Refusal;

// kept: `state` and `mem` stay two slices, since only `mem` is written, and `lookup` and `memory` would take a struct of both apart at each call

// Each component in order takes the messages parked for it. The list itself is left as it is.
pub fn unpark(
    state: &[u64],
    services: &[f64],
    mem: &mut [u64],
    depth: usize,
    clock: f64,
    row: usize,
) -> Result<(), Refusal>
    requires { Event state.now mem.old clock row × (kind_at (table_in state.now) row ≡ coupled) × All (Deep (table_in state.now) depth) (components (table_in state.now) (id_at (table_in state.now) row)) }
    ensures does { Does result (Step.unpark (table_in state.now) services.now (Step.external (table_in state.now) services.now depth clock) row (parked_in (begin_of (table_in state.now) row) mem.old row)) (table_in state.now) mem.old mem.new }
    ensures frame { Frame (table_in state.now) 0 0 mem.old mem.new }
{
    let owner = lookup::id_of(state, row);
    // kept: `from` is where the next search begins; an iterator would be a struct with ghost clauses for each kind of search
    let mut from = 0;
    while let Some(component) = lookup::next_component(state, from, owner) {
        deliver(state, services, mem, depth, clock, row, component)?;
        from = component + 1;
    }
    Ok(())
}

// One component takes the messages parked for it, in order.
fn deliver(
    state: &[u64],
    services: &[f64],
    mem: &mut [u64],
    depth: usize,
    clock: f64,
    row: usize,
    component: usize,
) -> Result<(), Refusal>
    requires { Event state.now mem.old clock row × (kind_at (table_in state.now) row ≡ coupled) × (component < length (table_in state.now).rows) × Deep (table_in state.now) depth component }
    ensures does { Does result (takes (table_in state.now) services.now depth clock (parked_in (begin_of (table_in state.now) row) mem.old row) component) (table_in state.now) mem.old mem.new }
    ensures frame { Frame (table_in state.now) 0 0 mem.old mem.new }
{
    let id = lookup::id_of(state, component);
    let begin = memory::begin_at(mem, row);
    let held = memory::held_at(mem, row) as usize;
    // kept: an iterator over the places for this id would borrow `mem`, which each event writes
    let mut from = 0;
    while let Some(place) = next_for(mem, begin, held, from, id) {
        let word = mem[begin + place];
        hand_over(state, services, mem, depth, clock, component, word)?;
        from = place + 1;
    }
    Ok(())
}

// The next place, of `held` from `begin` on, that holds a message for the component of this id.
fn next_for(mem: &[u64], begin: usize, held: usize, from: usize, id: u64) -> Option<usize>
    requires { begin + held ≤ length mem.now }
    ensures { result ≡ first_from (is_for id begin mem.now) from (held - from) }
{
    for place in from..held {
        if mem[begin + place] / 0x1_0000_0000_0000 == id {
            return Some(place);
        }
    }
    None
}

// One parked message, by its word, comes to its component.
fn hand_over(
    state: &[u64],
    services: &[f64],
    mem: &mut [u64],
    depth: usize,
    clock: f64,
    component: usize,
    word: u64,
) -> Result<(), Refusal>
    requires { Event state.now mem.old clock component × Deep (table_in state.now) depth component }
    ensures does { Does result (handed (table_in state.now) services.now depth clock component (parked_of word)) (table_in state.now) mem.old mem.new }
    ensures frame { Frame (table_in state.now) 0 0 mem.old mem.new }
{
    let port = word / 0x1_0000_0000 % 0x1_0000;
    let content = word % 0x1_0000_0000;
    model_events::external(
        state,
        services,
        mem,
        depth,
        clock,
        component,
        port as u16,
        content as u32,
    )
}
