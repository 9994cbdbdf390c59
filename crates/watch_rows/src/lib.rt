// The stopwatch's events in place: the row's state is read from its words, and written there. Layout: docs/LAYOUT.md.
#![tactic(auto)]

ghost use Rattle.std.specs.Prelude.{◌≡◌, List, ◌+◌, ◌≤◌, ◌<◌, length, set, T, Float};
ghost use Rattle.std.specs.Float.{binary64};
ghost use Rattle.std.specs.Float.Ieee.{of_bits};
ghost use Rattle.times.specs.Time.{is_time, is_timer};
ghost use Rattle.rules.specs.Table as Table;
ghost use Rattle.memory.specs.Words.{head_at, timer_in, begin_in, place_in, Own, replaced};
ghost use Rattle.memory.specs.View.{Row, state_in};
ghost use Rattle.memory.specs.Atoms.{atom_external, atom_internal, Took, Gave};
ghost use Rattle.memory.specs.Answers.{out_word};
ghost use Rattle.watch_rows.specs.Places.{loaded, stored, external_at, internal_at};

use events::{Handed, Taken};
use rules::{Refusal, Stopwatch, StopwatchPhase};
use stopwatch::StopwatchState;

fn load_stopwatch(mem: &[u64], row: usize) -> StopwatchState
    requires { (head_at row + 4 ≤ length mem.now) × T (is_timer (of_bits binary64 (timer_in mem.now row))) }
    ensures { result ≡ loaded mem.now row }
{
    let timer = memory::timer_at(mem, row);
    let held = memory::held_at(mem, row);
    if memory::phase_at(mem, row) == 1 {
        return StopwatchState {
            phase: StopwatchPhase::JobFetch,
            timer,
            held,
        };
    }
    StopwatchState {
        phase: StopwatchPhase::Passive,
        timer,
        held,
    }
}

fn store_stopwatch(mem: &mut [u64], row: usize, state: StopwatchState)
    requires { head_at row + 4 ≤ length mem.old }
    ensures { mem.new ≡ stored row state mem.old }
{
    let timer = times::bits_of(state.timer);
    let held = state.held;
    let phase = state.phase;
    match phase {
        StopwatchPhase::Passive => memory::set_head(mem, row, 0, timer, held),
        StopwatchPhase::JobFetch => memory::set_head(mem, row, 1, timer, held),
    }
}

// The rule on the row's state and own words; the state is not written yet.
fn take_in_place(
    mem: &mut [u64],
    row: usize,
    model: Stopwatch,
    clock: f64,
    port: u16,
    content: u32,
) -> Handed<StopwatchState, Taken>
    requires { Row (Table.stopwatch model) (begin_in mem.old row) mem.old row }
    ensures answers { result ≡ (external_at model clock port content mem.old row).0 }
    ensures lays { mem.new ≡ replaced (begin_in mem.old row) 192 (external_at model clock port content mem.old row).1 mem.old }
{
    let begin = memory::begin_at(mem, row);
    let state = load_stopwatch(mem, row);
    let end = begin + 192;
    state.external_rule(model, clock, port, content, &mut mem[begin..end])
}

// The rule on the row's state and own words.
fn go_in_place(mem: &[u64], row: usize, model: Stopwatch) -> Handed<StopwatchState, Option<u64>>
    requires { Row (Table.stopwatch model) (begin_in mem.now row) mem.now row }
    ensures { result ≡ internal_at model mem.now row }
{
    let begin = memory::begin_at(mem, row);
    let state = load_stopwatch(mem, row);
    let end = begin + 192;
    state.internal_rule(model, &mem[begin..end])
}

// A message put out, in one word.
fn put_out(mem: &mut [u64], at: usize, port: u16, content: u64)
    requires { (at < length mem.old) × (content < 4294967296) }
    ensures { mem.new ≡ set mem.old at (out_word port content) }
{
    mem[at] = port as u64 * 4294967296 + content;
}

// A message comes: the stopwatch's rule, done in the row's words.
pub fn stopwatch_external(
    mem: &mut [u64],
    row: usize,
    model: Stopwatch,
    clock: f64,
    port: u16,
    content: u32,
) -> Result<(), Refusal>
    requires { Row (Table.stopwatch model) (begin_in mem.old row) mem.old row × T (is_time clock) }
    ensures takes { (services : List Float) → Took result (Table.stopwatch model) (begin_in mem.old row) row mem.new (atom_external (Table.stopwatch model) services clock port content (state_in (Table.stopwatch model) (begin_in mem.old row) mem.old row) (place_in mem.old)) }
    ensures owns { Own row (begin_in mem.old row) 192 0 0 mem.old mem.new }
{
    let taken = take_in_place(mem, row, model, clock, port, content);
    let told = taken.answer;
    let answer = memory::answer_of(told);
    match answer {
        Err(refusal) => Err(refusal),
        Ok(()) => {
            store_stopwatch(mem, row, taken.next);
            Ok(())
        }
    }
}

// Its timer has run out: the stopwatch's rule, done in the row's words. What it puts out stands at `at`.
pub fn stopwatch_internal(
    mem: &mut [u64],
    row: usize,
    model: Stopwatch,
    at: usize,
) -> Result<usize, Refusal>
    requires { Row (Table.stopwatch model) (begin_in mem.old row) mem.old row × (begin_in mem.old row + 192 ≤ at) × (at + 64 ≤ length mem.old) }
    ensures gives { (services : List Float) → Gave result at (Table.stopwatch model) (begin_in mem.old row) row mem.new (atom_internal (Table.stopwatch model) services (state_in (Table.stopwatch model) (begin_in mem.old row) mem.old row) (place_in mem.old)) }
    ensures owns { Own row (begin_in mem.old row) 192 at (at + 64) mem.old mem.new }
{
    let gone = go_in_place(mem, row, model);
    let answer = gone.answer;
    match answer {
        Ok(Some(name)) => {
            put_out(mem, at, model.output, name);
            store_stopwatch(mem, row, gone.next);
            Ok(1)
        }
        Ok(None) => {
            store_stopwatch(mem, row, gone.next);
            Ok(0)
        }
        Err(refusal) => Err(refusal),
    }
}
