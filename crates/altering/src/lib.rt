// A few words of a lent state changed in place: the messages and the clock cleared, a message injected. The caller has checked the state.
#![tactic(auto)]

ghost use Rattle.std.specs.Prelude.{◌≡◌, ◌+◌, ◌<◌, length, T};
ghost use Rattle.rules.specs.Calls.{without_messages, at_clock_zero};
ghost use Rattle.rules.specs.Layout.{written};
ghost use Rattle.lookup.specs.Inside.{tail_at, table_in};
ghost use Rattle.views.specs.World.{end_of};
ghost use Rattle.rerunning.specs.Running.{sim_of};
ghost use Rattle.storing.specs.State.{kept, is_stored};
ghost use Rattle.altering.specs.Altered.{with_message};

use rules::Message;

// No message is active any more.
pub fn reset_messages(state: &mut [u64])
    requires { T (is_stored state.old) }
    ensures { state.new ≡ kept state.old (without_messages (sim_of state.old)) }
{
    let tail = lookup::tail_at(state);
    state[tail] = 0;
}

// The clock is 0.
pub fn reset_global_time(state: &mut [u64])
    requires { T (is_stored state.old) }
    ensures { state.new ≡ kept state.old (at_clock_zero (sim_of state.old)) }
{
    let clock = lookup::tail_at(state) + 1;
    state[clock] = 0;
}

// No message is active any more, and the clock is 0.
pub fn reset(state: &mut [u64])
    requires { T (is_stored state.old) }
    ensures { state.new ≡ kept state.old (at_clock_zero (without_messages (sim_of state.old))) }
{
    let tail = lookup::tail_at(state);
    state[tail] = 0;
    state[tail + 1] = 0;
}

// How many messages are active.
pub fn active_count(state: &[u64]) -> usize
    requires { T (is_stored state.now) }
    ensures { result ≡ length (sim_of state.now).active }
{
    let tail = lookup::tail_at(state);
    state[tail] as usize
}

// Where the active messages stand in the buffer.
fn messages_at(state: &[u64]) -> usize
    requires { T (is_stored state.now) }
    ensures { result ≡ tail_at state.now + end_of (table_in state.now) }
{
    let tail = lookup::tail_at(state);
    tail + copying::end_of(state, &state[tail..])
}

// A message as its six words.
fn words_of(message: Message) -> [u64; 6]
    ensures { result ≡ written message }
{
    [
        message.source_id as u64,
        message.source_port as u64,
        message.target_id as u64,
        message.target_port as u64,
        times::bits_of(message.time),
        message.content as u64,
    ]
}

// One more message behind the active ones.
pub fn inject_input(state: &mut [u64], message: Message)
    requires { T (is_stored state.old) × (length (sim_of state.old).active < 256) }
    ensures { state.new ≡ kept state.old (with_message message (sim_of state.old)) }
{
    let tail = lookup::tail_at(state);
    let count = active_count(state);
    let end = messages_at(state) + count * 6;
    let words = words_of(message);
    copying::copy(&mut state[end..], &words, 0, 6);
    state[tail] = (count + 1) as u64;
}
