// The timers of all rows: the least of them, and what an advance leaves of them (01, "The step (000)", 2 and 3).
#![tactic(auto)]

ghost use Rattle.std.specs.Prelude.{◌≡◌, ◌-◌, ◌<◌, length, T};
ghost use Rattle.times.specs.Time.{is_time, is_timer};
ghost use Rattle.rules.specs.Table.{kind_at};
ghost use Rattle.rules.specs.Step.{least_timer};
ghost use Rattle.rules.proofs.Least.{own_timer, Below};
ghost use Rattle.memory.specs.Words.{held_in};
ghost use Rattle.lookup.specs.Inside.{Inside, table_in};
ghost use Rattle.views.proofs.Parked as Parked;
ghost use Rattle.views.specs.World.{state_of, states_in, Laid, Ready, Frame};
ghost use Rattle.sweeps.specs.Skips.{stop_from};
ghost use Rattle.row_timers.specs.Passing.{at_zero, Passed};
ghost use Rattle.row_timers.specs.Aging.{Aged};

// The least timer of the models without parent, which is the least of all rows' own. A Coupled's own is 0 while a message is parked in it, else infinite. Few are below the least so far, so whether a row's timer counts is asked last.
pub fn least_timer(state: &[u64], mem: &[u64]) -> f64
    requires { Inside state.now × Ready (table_in state.now) mem.now }
    ensures { result ≡ least_timer (table_in state.now) (states_in (table_in state.now) mem.now) }
{
    let end = lookup::row_count(state);
    let mut least = times::never();
    for row in 0..end {
        let timer = memory::timer_at(mem, row);
        if timer < least && counts(state, mem, row) {
            least = timer;
        }
    }
    least
}

// Whether the row's own timer is the one that its words say: a Coupled's word is 0, and counts while a message is parked in it.
fn counts(state: &[u64], mem: &[u64], row: usize) -> bool
    requires { Inside state.now × Ready (table_in state.now) mem.now × (row < length (table_in state.now).rows) }
    ensures { result ≡ Parked.counts (kind_at (table_in state.now) row) (held_in mem.now row) }
{
    if lookup::is_coupled(state, row) {
        return 0 < memory::held_at(mem, row);
    }
    true
}

// The first row from `from` on whose timer's word is that of 0, as a Coupled's is; the row after the last if there is none.
pub fn next_at_zero(state: &[u64], mem: &[u64], from: usize) -> usize
    requires { Inside state.now × Ready (table_in state.now) mem.now }
    ensures { result ≡ stop_from (at_zero mem.now) from (length (table_in state.now).rows - from) }
{
    let end = lookup::row_count(state);
    for row in from..end {
        if memory::timer_at(mem, row) == 0.0 {
            return row;
        }
    }
    from.max(end)
}

// Every timer less the advance, rounded once. An advance of 0 leaves them as they are.
pub fn pass(state: &[u64], mem: &mut [u64], advance: f64)
    requires { Inside state.now × Ready (table_in state.now) mem.old × T (is_time advance) × Below advance (states_in (table_in state.now) mem.old) }
    ensures passes { Passed (table_in state.now) advance mem.old mem.new }
    ensures frame { Frame (table_in state.now) 0 0 mem.old mem.new }
{
    if advance == 0.0 {
        return;
    }
    let end = lookup::row_count(state);
    for row in 0..end {
        pass_row(state, mem, row, advance);
    }
}

// One row's timer less the advance: one that never runs out stays, and a Coupled keeps none.
fn pass_row(state: &[u64], mem: &mut [u64], row: usize, advance: f64)
    requires { Inside state.now × Laid (table_in state.now) mem.old × (row < length (table_in state.now).rows) × T (is_timer (own_timer (state_of (table_in state.now) mem.old row))) × T (is_time advance) }
    ensures { Aged (table_in state.now) advance row mem.old mem.new }
{
    let timer = memory::timer_at(mem, row);
    if timer == times::never() {
        return;
    }
    if lookup::is_coupled(state, row) {
        return;
    }
    let bits = times::bits_of(times::after(timer, advance));
    memory::set_timer(mem, row, bits);
}
