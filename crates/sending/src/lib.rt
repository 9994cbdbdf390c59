// Messages put out by a model without parent go along every connector that matches (01, "The step (000)", 4).
#![tactic(auto)]

ghost use Rattle.std.specs.Prelude.{◌≡◌, ◌+◌, ◌≤◌, ◌<◌, [], ◌∷◌, length, T};
ghost use Rattle.times.specs.Time.{is_time};
ghost use Rattle.rules.specs.Base.{each};
ghost use Rattle.rules.specs.Step.{send, out_at};
ghost use Rattle.memory.specs.Words.{replaced};
ghost use Rattle.memory.specs.View.{outs_in};
ghost use Rattle.lookup.specs.Inside.{Inside, table_in};
ghost use Rattle.memory.specs.Words.{Only};
ghost use Rattle.views.specs.World.{end_of};
ghost use Rattle.views.specs.Messages.{messages_in, Sent};

use rules::Refusal;
use selection::Target;

// kept: `state` and `mem` stay two slices, since only `mem` is written, and `lookup` and `memory` would take a struct of both apart at each call

// A message's six words. The time goes by its bits.
fn write_message(
    mem: &mut [u64],
    at: usize,
    source: u64,
    port: u64,
    target: Target,
    time: u64,
    content: u64,
)
    requires { at + 6 ≤ length mem.old }
    ensures { mem.new ≡ replaced at 6 (source ∷ port ∷ target.id ∷ target.port ∷ time ∷ content ∷ []) mem.old }
{
    let words = [source, port, target.id, target.port, time, content];
    mem[at..at + 6].copy_from_slice(&words);
}

// One message along every connector that matches; the 257th active is 8. Each connector is looked at once at most.
fn send_one(
    state: &[u64],
    mem: &mut [u64],
    row: usize,
    clock: f64,
    port: u64,
    content: u64,
    active: usize,
    count: usize,
) -> Result<usize, Refusal>
    requires { Inside state.now × T (is_time clock) × (end_of (table_in state.now) ≤ active) × (active + 1536 ≤ length mem.old) × (count ≤ 256) }
    ensures sends { Sent result active (send (table_in state.now) clock row (out_at port content) (messages_in active count mem.old)) mem.new }
    ensures only { Only active (active + 1536) mem.old mem.new }
{
    let id = lookup::id_of(state, row);
    let time = times::bits_of(clock);
    let mut sent = count;
    let mut looked = 0;
    while let Some(link) = lookup::next_connector(state, &mut looked, id, port) {
        if sent == 256 {
            return Err(Refusal::NoMessageRoom);
        }
        write_message(mem, active + sent * 6, id, port, link.target, time, content);
        sent += 1;
    }
    Ok(sent)
}

// Each of the `messages` that the row has put out, which stand from `from` on, in order, along every connector that matches, stamped with the clock; 8 for the 257th.
// Those sent stand from `active` on, `count` of them so far.
pub fn send_all(
    state: &[u64],
    mem: &mut [u64],
    row: usize,
    clock: f64,
    from: usize,
    messages: usize,
    active: usize,
    count: usize,
) -> Result<usize, Refusal>
    requires { Inside state.now × (row < length (table_in state.now).rows) × T (is_time clock) × (end_of (table_in state.now) ≤ active) × (active + 1536 ≤ from) × (from + 256 ≤ length mem.old) × (messages ≤ 256) × (count ≤ 256) }
    ensures sends { Sent result active (each (send (table_in state.now) clock row) (outs_in from messages mem.old) (messages_in active count mem.old)) mem.new }
    ensures only { Only active (active + 1536) mem.old mem.new }
{
    let mut sent = count;
    for next in 0..messages {
        let word = mem[from + next];
        let port = word / 0x1_0000_0000;
        let content = word % 0x1_0000_0000;
        sent = send_one(state, mem, row, clock, port, content, active, sent)?;
    }
    Ok(sent)
}
