// The calls on a simulation that the caller lends as words, and by value (value.rt). 20 first, in every call.
#![tactic(auto)]

ghost use Rattle.std.specs.Prelude.{◌≡◌};
ghost use Rattle.rules.specs.Layout.{room_in};
ghost use Rattle.rules.specs.Calls as Calls;
ghost use Rattle.storing.specs.Lent.{call_in, answered, left, listed, post_in, put_in, left_anew, run_in, left_by_run};
ghost use Rattle.lent_runs.specs.Reported.{Reported};
ghost use Rattle.asking.specs.Told.{status_answered};
ghost use Rattle.simulation.specs.Answers.{count_told, time_told};

use asking::Status;
use engine::Report;
use lent_runs::Order;
use rules::{Message, Refusal};

mod value;

pub use value::{Changed, Ran, Simulation};

// A new simulation of a table: 20, 1, 2, 3, or done. Of the state buffer it asks only the length.
pub fn post(
    models: &[u64],
    connectors: &[u64],
    couplings: &[u64],
    state: &mut [u64],
) -> Result<(), Refusal>
    ensures answers { result ≡ answered (post_in models.now connectors.now couplings.now state.old) }
    ensures leaves { state.new ≡ left_anew models.now connectors.now couplings.now state.old (post_in models.now connectors.now couplings.now state.old) }
{
    posting::post(models, connectors, couplings, state)
}

// Fresh default models of another table; messages, clock and place stay: 20, 1, 2, 3, or done.
pub fn put(
    state: &mut [u64],
    models: &[u64],
    connectors: &[u64],
    couplings: &[u64],
) -> Result<(), Refusal>
    ensures answers { result ≡ answered (put_in models.now connectors.now couplings.now state.old) }
    ensures leaves { state.new ≡ left_anew models.now connectors.now couplings.now state.old (put_in models.now connectors.now couplings.now state.old) }
{
    if !holding::is_state(state) {
        return Err(Refusal::BadState);
    }
    if state.len() < storing::state_words(models.len(), connectors.len(), couplings.len()) {
        return Err(Refusal::BadState);
    }
    posting::judged(models, connectors, couplings)?;
    posting::replace(state, models, connectors, couplings);
    Ok(())
}

// One more active message: 20, 10, 8, or done.
pub fn inject_input(state: &mut [u64], message: Message) -> Result<(), Refusal>
    ensures answers { result ≡ answered (call_in (Calls.inject_input message) state.old) }
    ensures leaves { state.new ≡ left state.old (call_in (Calls.inject_input message) state.old) }
{
    if !holding::is_state(state) {
        return Err(Refusal::BadState);
    }
    let time = message.time;
    if !times::is_time(time) {
        return Err(Refusal::BadTime);
    }
    if 256 <= altering::active_count(state) {
        return Err(Refusal::NoMessageRoom);
    }
    altering::inject_input(state, message);
    Ok(())
}

// One step: its end, and its messages as rows.
pub fn step(state: &mut [u64], services: &[f64], rows: &mut [u64]) -> Report
    ensures reports { Reported result (run_in (Calls.step services.now (room_in rows.old)) state.old) rows.old rows.new }
    ensures leaves { state.new ≡ left_by_run state.old (run_in (Calls.step services.now (room_in rows.old)) state.old) }
{
    step_n(state, services, 1, rows)
}

// So many steps: how they ended, how many were completed, the messages of all of them as rows.
pub fn step_n(state: &mut [u64], services: &[f64], count: u64, rows: &mut [u64]) -> Report
    ensures reports { Reported result (run_in (Calls.step_n services.now (room_in rows.old) count) state.old) rows.old rows.new }
    ensures leaves { state.new ≡ left_by_run state.old (run_in (Calls.step_n services.now (room_in rows.old) count) state.old) }
{
    if !holding::is_state(state) {
        return lent_runs::refused(Refusal::BadState);
    }
    lent_runs::run(state, services, Order::Steps(count), rows)
}

// Steps until the clock is no longer below `until`, at most as many as the allowance: the end, the steps, the rows of those that ended below `until`.
pub fn step_until(
    state: &mut [u64],
    services: &[f64],
    until: f64,
    allowance: u32,
    rows: &mut [u64],
) -> Report
    ensures reports { Reported result (run_in (Calls.step_until services.now until (room_in rows.old) allowance) state.old) rows.old rows.new }
    ensures leaves { state.new ≡ left_by_run state.old (run_in (Calls.step_until services.now until (room_in rows.old) allowance) state.old) }
{
    if !holding::is_state(state) {
        return lent_runs::refused(Refusal::BadState);
    }
    lent_runs::run(state, services, Order::Until(until, allowance), rows)
}

// Messages and clock cleared, and nothing else: 20 or done.
pub fn reset(state: &mut [u64]) -> Result<(), Refusal>
    ensures answers { result ≡ answered (call_in Calls.reset state.old) }
    ensures leaves { state.new ≡ left state.old (call_in Calls.reset state.old) }
{
    if !holding::is_state(state) {
        return Err(Refusal::BadState);
    }
    altering::reset(state);
    Ok(())
}

// The messages cleared, and nothing else: 20 or done.
pub fn reset_messages(state: &mut [u64]) -> Result<(), Refusal>
    ensures answers { result ≡ answered (call_in Calls.reset_messages state.old) }
    ensures leaves { state.new ≡ left state.old (call_in Calls.reset_messages state.old) }
{
    if !holding::is_state(state) {
        return Err(Refusal::BadState);
    }
    altering::reset_messages(state);
    Ok(())
}

// The clock set to 0, and nothing else: 20 or done.
pub fn reset_global_time(state: &mut [u64]) -> Result<(), Refusal>
    ensures answers { result ≡ answered (call_in Calls.reset_global_time state.old) }
    ensures leaves { state.new ≡ left state.old (call_in Calls.reset_global_time state.old) }
{
    if !holding::is_state(state) {
        return Err(Refusal::BadState);
    }
    altering::reset_global_time(state);
    Ok(())
}

// The status of a model without parent: 20, 4, or the status.
pub fn get_status(state: &[u64], id: u16) -> Result<Status, Refusal>
    ensures { result ≡ status_answered (call_in (Calls.get_status id) state.now) }
{
    if !holding::is_state(state) {
        return Err(Refusal::BadState);
    }
    asking::get_status(state, id)
}

// The active messages as rows: 20, 13, or how many.
pub fn get_messages(state: &[u64], rows: &mut [u64]) -> Result<usize, Refusal>
    ensures answers { result ≡ count_told (call_in (Calls.get_messages (room_in rows.old)) state.now) }
    ensures lays { rows.new ≡ listed rows.old (call_in (Calls.get_messages (room_in rows.old)) state.now) }
{
    if !holding::is_state(state) {
        return Err(Refusal::BadState);
    }
    if rows.len() / 6 < altering::active_count(state) {
        return Err(Refusal::NoOutRoom);
    }
    Ok(asking::get_messages(state, rows))
}

// The clock, or 20.
pub fn get_global_time(state: &[u64]) -> Result<f64, Refusal>
    ensures { result ≡ time_told (call_in Calls.get_global_time state.now) }
{
    if !holding::is_state(state) {
        return Err(Refusal::BadState);
    }
    Ok(asking::get_global_time(state))
}
