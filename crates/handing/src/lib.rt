// A message out of a component, in its Coupled: parked along internal couplings, then put out along external output couplings (01, "Coupled (001)").
#![tactic(auto)]

ghost use Rattle.std.specs.Prelude.{◌≡◌, List, ◌+◌, ◌≤◌, ◌<◌, length, Float};
ghost use Rattle.rules.specs.Base.{each};
ghost use Rattle.rules.specs.Table.{kind_at, coupled};
ghost use Rattle.rules.specs.Step.{out_at, hand};
ghost use Rattle.memory.specs.View.{outs_in};
ghost use Rattle.lookup.specs.Inside.{Inside, table_in};
ghost use Rattle.views.specs.World.{Ready, Frame, Does, end_of};
ghost use Rattle.views.specs.Messages.{Hands};
ghost use Rattle.handing.specs.Handing.{park_from, outs_from, Fills, Beside};

use rules::Refusal;

// kept: `state` and `mem` stay two slices, since only `mem` is written, and `lookup` and `memory` would take a struct of both apart at each call

// Parked for each component to which an internal coupling leads from this port of `source`, in order.
fn park_all(
    state: &[u64],
    mem: &mut [u64],
    row: usize,
    source: u64,
    port: u64,
    content: u32,
) -> Result<(), Refusal>
    requires { Inside state.now × Ready (table_in state.now) mem.old × (row < length (table_in state.now).rows) × (kind_at (table_in state.now) row ≡ coupled) }
    ensures parks { Does result (park_from (table_in state.now) row source port content) (table_in state.now) mem.old mem.new }
    ensures frame { Frame (table_in state.now) 0 0 mem.old mem.new }
{
    let owner = lookup::id_of(state, row);
    // kept: `from` is where the next search begins; an iterator would be a struct with ghost clauses for each kind of search
    let mut from = 0;
    while let Some(coupling) = lookup::next_internal(state, from, owner, source, port) {
        let to = lookup::coupling_target(state, coupling);
        parked_rows::park(mem, row, to.id, to.port, content)?;
        from = coupling + 1;
    }
    Ok(())
}

// Put out along each external output coupling of `owner` that matches, in order.
fn put_all(
    state: &[u64],
    mem: &mut [u64],
    owner: u64,
    source: u64,
    port: u64,
    content: u32,
    at: usize,
    count: usize,
) -> Result<usize, Refusal>
    requires { Inside state.now × (at + 256 ≤ length mem.old) × (count ≤ 256) }
    ensures puts { Fills result at count (outs_from (table_in state.now) owner source port content) mem.old mem.new }
    ensures beside { Beside at mem.old mem.new }
{
    let mut held = count;
    // kept: `from` is where the next search begins; an iterator would be a struct with ghost clauses for each kind of search
    let mut from = 0;
    while let Some(coupling) = lookup::next_output(state, from, owner, source, port) {
        if held == 256 {
            return Err(Refusal::NoMessageRoom);
        }
        let to = lookup::coupling_target(state, coupling);
        let word = to.port * 0x1_0000_0000 + content as u64;
        mem[at + held] = word;
        held += 1;
        from = coupling + 1;
    }
    Ok(held)
}

// One message: "first parked along internal couplings, then put out along external output couplings".
fn hand_one(
    state: &[u64],
    mem: &mut [u64],
    row: usize,
    component: usize,
    port: u64,
    content: u32,
    at: usize,
    count: usize,
) -> Result<usize, Refusal>
    requires { Inside state.now × Ready (table_in state.now) mem.old × (row < length (table_in state.now).rows) × (kind_at (table_in state.now) row ≡ coupled) × (end_of (table_in state.now) ≤ at) × (at + 256 ≤ length mem.old) × (count ≤ 256) }
    ensures hands { (services : List Float) → Hands result count at (hand (table_in state.now) services row component (out_at port content)) (table_in state.now) mem.old mem.new }
    ensures frame { Frame (table_in state.now) at (at + 256) mem.old mem.new }
{
    let owner = lookup::id_of(state, row);
    let source = lookup::id_of(state, component);
    park_all(state, mem, row, source, port, content)?;
    put_all(state, mem, owner, source, port, content, at, count)
}

// Each of the `messages` that the row `component` has put out, which stand from `from` on, in order: parked along internal couplings, then put out along external output couplings; 8 where there is no room.
// Those that its Coupled, `row`, puts out stand from `at` on, `count` of them so far.
pub fn hand_all(
    state: &[u64],
    mem: &mut [u64],
    row: usize,
    component: usize,
    from: usize,
    messages: usize,
    at: usize,
    count: usize,
) -> Result<usize, Refusal>
    requires { Inside state.now × Ready (table_in state.now) mem.old × (row < length (table_in state.now).rows) × (kind_at (table_in state.now) row ≡ coupled) × (end_of (table_in state.now) ≤ at) × (at + 256 ≤ from) × (from + 256 ≤ length mem.old) × (messages ≤ 256) × (count ≤ 256) }
    ensures hands { (services : List Float) → Hands result count at (λ x. each (hand (table_in state.now) services row component) (outs_in from messages mem.old) x) (table_in state.now) mem.old mem.new }
    ensures frame { Frame (table_in state.now) at (at + 256) mem.old mem.new }
{
    let mut held = count;
    for next in 0..messages {
        let word = mem[from + next];
        let port = word / 0x1_0000_0000;
        let content = (word % 0x1_0000_0000) as u32;
        held = hand_one(state, mem, row, component, port, content, at, held)?;
    }
    Ok(held)
}
