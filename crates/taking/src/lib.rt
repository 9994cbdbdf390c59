// The active messages are taken: by each model without parent in row order, in list order (01, "The step (000)", 1).
#![tactic(auto)]

ghost use Rattle.std.specs.Prelude.{◌≡◌, ◌+◌, ◌-◌, ◌≤◌, ◌<◌, length};
ghost use Rattle.rules.specs.Step as Step;
ghost use Rattle.rules.specs.Ends.{All};
ghost use Rattle.rules.specs.Depth.{Deep};
ghost use Rattle.rules.proofs.Worlds.{MessageFits};
ghost use Rattle.lookup.specs.Inside.{Inside, table_in};
ghost use Rattle.views.specs.World.{end_of, Frame, Does};
ghost use Rattle.views.specs.Messages.{message_in, messages_in};
ghost use Rattle.model_events.specs.Events.{Scene, Event};
ghost use Rattle.sweeps.specs.Skips.{stop_from};
ghost use Rattle.taking.specs.Taking.{takes_one, takes_all, is_for, is_addressed, Active};

use rules::Refusal;

// kept: `state` and `mem` stay two slices, since only `mem` is written, and `lookup` and `memory` would take a struct of both apart at each call

// The first message from the k-th on that is for this id; past the last if there is none.
fn next_for(mem: &[u64], active: usize, k: usize, count: usize, id: u64) -> usize
    requires { (active + 1536 ≤ length mem.now) × (count ≤ 256) }
    ensures { result ≡ stop_from (is_for active mem.now id) k (count - k) }
{
    for next in k..count {
        let at = active + next * 6;
        if mem[at + 2] == id {
            return next;
        }
    }
    k.max(count)
}

// The first row from `from` on that an active message is for; past the last if there is none.
fn next_addressed(state: &[u64], mem: &[u64], from: usize, active: usize, count: usize) -> usize
    requires { Inside state.now × (active + 1536 ≤ length mem.now) × (count ≤ 256) }
    ensures { result ≡ stop_from (is_addressed (table_in state.now) active count mem.now) from (length (table_in state.now).rows - from) }
{
    let end = lookup::row_count(state);
    for row in from..end {
        if next_for(mem, active, 0, count, lookup::id_of(state, row)) < count {
            return row;
        }
    }
    from.max(end)
}

// Each model without parent, in row order, takes the active messages that are for it, in list order. These stand from `active` on, `count` of them.
pub fn take_all(
    state: &[u64],
    services: &[f64],
    mem: &mut [u64],
    clock: f64,
    active: usize,
    count: usize,
) -> Result<(), Refusal>
    requires { Scene state.now mem.old clock × (end_of (table_in state.now) ≤ active) × (active + 1536 ≤ length mem.old) × (count ≤ 256) × All MessageFits (messages_in active count mem.old) }
    ensures does { Does result (Step.taken (table_in state.now) services.now clock (messages_in active count mem.old)) (table_in state.now) mem.old mem.new }
    ensures frame { Frame (table_in state.now) 0 0 mem.old mem.new }
{
    // kept: an iterator over the models that are addressed would borrow `mem`, which each event writes
    let mut from = 0;
    while let Some(row) = lookup::next_parentless(
        state,
        next_addressed(state, mem, from, active, count),
    ) {
        take_for(state, services, mem, clock, row, active, count)?;
        from = row + 1;
    }
    Ok(())
}

// One model takes the messages that are for it, in list order.
fn take_for(
    state: &[u64],
    services: &[f64],
    mem: &mut [u64],
    clock: f64,
    row: usize,
    active: usize,
    count: usize,
) -> Result<(), Refusal>
    requires { Event state.now mem.old clock row × Deep (table_in state.now) Step.levels row × Active (table_in state.now) mem.old active count }
    ensures does { Does result (takes_all (table_in state.now) services.now clock (messages_in active count mem.old) row) (table_in state.now) mem.old mem.new }
    ensures frame { Frame (table_in state.now) 0 0 mem.old mem.new }
{
    let id = lookup::id_of(state, row);
    // kept: an iterator over the messages for this id would borrow `mem`, which each event writes
    let mut k = next_for(mem, active, 0, count, id);
    while k < count {
        take_one(state, services, mem, clock, row, active, k)?;
        k = next_for(mem, active, k + 1, count, id);
    }
    Ok(())
}

// One model takes one message, if it is for it.
fn take_one(
    state: &[u64],
    services: &[f64],
    mem: &mut [u64],
    clock: f64,
    row: usize,
    active: usize,
    k: usize,
) -> Result<(), Refusal>
    requires { Event state.now mem.old clock row × Deep (table_in state.now) Step.levels row × (k < 256) × (active + 1536 ≤ length mem.old) × MessageFits (message_in active mem.old k) }
    ensures does { Does result (takes_one (table_in state.now) services.now clock row (message_in active mem.old k)) (table_in state.now) mem.old mem.new }
    ensures frame { Frame (table_in state.now) 0 0 mem.old mem.new }
{
    let at = active + k * 6;
    if mem[at + 2] != lookup::id_of(state, row) {
        return Ok(());
    }
    let port = mem[at + 3] as u16;
    let content = mem[at + 5] as u32;
    model_events::external(state, services, mem, 5, clock, row, port, content)
}
