// A run on a lent state: in words of its own, as many as the rows in use need, and written back when the run has its result. The caller has checked the state.
#![tactic(auto)]

ghost use Rattle.std.specs.Prelude.{◌≡◌, ◌+◌, ◌≤◌, length, replicate, T};
ghost use Rattle.times.specs.Time.{is_timer};
ghost use Rattle.rules.specs.Layout.{room_in};
ghost use Rattle.rules.specs.Calls as Calls;
ghost use Rattle.lookup.specs.Inside.{table_in};
ghost use Rattle.views.specs.World.{end_of};
ghost use Rattle.stepping.specs.Simulating.{sim_in, Sound};
ghost use Rattle.rerunning.specs.Running.{sim_of};
ghost use Rattle.engine.specs.Telling.{end_is};
ghost use Rattle.engine.specs.RunLaws.{done_for};
ghost use Rattle.storing.specs.State.{kept, is_stored};
ghost use Rattle.lent_runs.specs.Reported.{ordered, Fits, refused_report, Reported};

use engine::{End, Report};
use rules::Refusal;

// What to run: so many steps; until the clock is no longer below a time, in at most so many steps; the same with a time that may be infinite.
#[derive(Clone, Copy)]
pub enum Order {
    Steps(u64),
    Until(f64, u32),
    Bounded(f64, u64),
}

// Where the active messages stand in the changing part.
fn active_at(state: &[u64]) -> usize
    requires { T (is_stored state.now) }
    ensures { result ≡ end_of (table_in state.now) }
{
    let tail = lookup::tail_at(state);
    copying::end_of(state, &state[tail..])
}

// The simulation in the words, back into the lent state: what neither holds is 0 in both.
fn write_back(state: &mut [u64], mem: &[u64])
    requires { T (is_stored state.old) × Sound (table_in state.old) mem.now }
    ensures { state.new ≡ kept state.old (sim_in (table_in state.old) mem.now) }
{
    let tail = lookup::tail_at(state);
    let end = active_at(state);
    let rows = lookup::row_count(state);
    let count = mem[0] as usize;
    copying::copy_held(&mut state[tail..], mem, rows, end, count);
}

// One run, in words that are lent for it, all 0.
fn run_in(
    state: &mut [u64],
    services: &[f64],
    mem: &mut [u64],
    until: f64,
    bound: u64,
    rows: &mut [u64],
) -> Report
    requires { T (is_stored state.old) × (end_of (table_in state.old) + 2816 ≤ length mem.old) × (mem.old ≡ replicate (length mem.old) 0) × T (is_timer until) }
    ensures reports { Reported result (Calls.steps_until services.now until (room_in rows.old) bound (sim_of state.old)) rows.old rows.new }
    ensures leaves { state.new ≡ kept state.old (Calls.steps_until services.now until (room_in rows.old) bound (sim_of state.old)).sim }
{
    let report = engine::run(state, services, mem, until, bound, rows);
    write_back(state, mem);
    report
}

// Words for 8 stopwatches or some 23 other rows, and 2,816 for messages.
fn run_small(
    state: &mut [u64],
    services: &[f64],
    until: f64,
    bound: u64,
    rows: &mut [u64],
) -> Report
    requires { T (is_stored state.old) × (end_of (table_in state.old) ≤ 1571) × T (is_timer until) }
    ensures reports { Reported result (Calls.steps_until services.now until (room_in rows.old) bound (sim_of state.old)) rows.old rows.new }
    ensures leaves { state.new ≡ kept state.old (Calls.steps_until services.now until (room_in rows.old) bound (sim_of state.old)).sim }
{
    let mut mem = [0u64; 4387];
    run_in(state, services, &mut mem, until, bound, rows)
}

// Words for 24 stopwatches, or any number of other rows.
fn run_medium(
    state: &mut [u64],
    services: &[f64],
    until: f64,
    bound: u64,
    rows: &mut [u64],
) -> Report
    requires { T (is_stored state.old) × (end_of (table_in state.old) ≤ 4707) × T (is_timer until) }
    ensures reports { Reported result (Calls.steps_until services.now until (room_in rows.old) bound (sim_of state.old)) rows.old rows.new }
    ensures leaves { state.new ≡ kept state.old (Calls.steps_until services.now until (room_in rows.old) bound (sim_of state.old)).sim }
{
    let mut mem = [0u64; 7523];
    run_in(state, services, &mut mem, until, bound, rows)
}

// Words for any table.
fn run_large(
    state: &mut [u64],
    services: &[f64],
    until: f64,
    bound: u64,
    rows: &mut [u64],
) -> Report
    requires { T (is_stored state.old) × T (is_timer until) }
    ensures reports { Reported result (Calls.steps_until services.now until (room_in rows.old) bound (sim_of state.old)) rows.old rows.new }
    ensures leaves { state.new ≡ kept state.old (Calls.steps_until services.now until (room_in rows.old) bound (sim_of state.old)).sim }
{
    let mut mem = [0u64; 15363];
    run_in(state, services, &mut mem, until, bound, rows)
}

// The report of a run that was refused before its first step.
pub fn refused(refusal: Refusal) -> Report
    ensures { result ≡ refused_report refusal }
{
    Report {
        steps: 0,
        written: 0,
        end: End::Refused(refusal),
    }
}

// For `step_n` a run is done when its steps are.
fn done_for(end: End) -> End
    ensures { end_is result ≡ done_for (end_is end) }
{
    match end {
        End::Done => End::Done,
        End::Reached => End::Reached,
        End::Spent => End::Done,
        End::Refused(refusal) => End::Refused(refusal),
    }
}

// The run of an order, on a lent state: the report, the rows, the state after it. `step_n` is a run that no clock ends. It calls itself, so that the compiler keeps the words of each size in a frame of their own.
pub fn run(state: &mut [u64], services: &[f64], order: Order, rows: &mut [u64]) -> Report
    requires { T (is_stored state.old) × Fits order }
    ensures reports { Reported result (ordered order services.now (room_in rows.old) (sim_of state.old)) rows.old rows.new }
    ensures leaves { state.new ≡ kept state.old (ordered order services.now (room_in rows.old) (sim_of state.old)).sim }
{
    match order {
        Order::Steps(count) => {
            let report = run(state, services, Order::Bounded(times::never(), count), rows);
            let end = report.end;
            Report {
                steps: report.steps,
                written: report.written,
                end: done_for(end),
            }
        }
        Order::Until(until, allowance) => {
            if !times::is_time(until) {
                return refused(Refusal::BadTime);
            }
            run(
                state,
                services,
                Order::Bounded(until, allowance as u64),
                rows,
            )
        }
        Order::Bounded(until, bound) => {
            let end = active_at(state);
            if end <= 1571 {
                return run_small(state, services, until, bound, rows);
            }
            if end <= 4707 {
                return run_medium(state, services, until, bound, rows);
            }
            run_large(state, services, until, bound, rows)
        }
    }
}
