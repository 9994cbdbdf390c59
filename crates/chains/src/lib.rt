// The calls for C, each with the contract that the theorems in specs/ speak of: a call leaves and returns what the chain's definitions say. They only pass on, and are here so that the definitions stay tied to the calls.
#![tactic(auto)]

ghost use Rattle.std.specs.Prelude.{◌≡◌};
ghost use Rattle.rules.specs.Layout.{room_in};
ghost use Rattle.rules.specs.Calls.{InjectInput, Step, StepN, StepUntil, Reset, ResetMessages, ResetGlobalTime};
ghost use Rattle.chains.specs.Chain.{after, returned, after_post, returned_by_post, after_put, returned_by_put};

pub fn step(state: &mut [u64], services: &[f64], rows: &mut [u64], report: &mut [u64; 3]) -> u32
    ensures answers { result ≡ returned (Step services.now (room_in rows.old)) state.old }
    ensures leaves { state.new ≡ after (Step services.now (room_in rows.old)) state.old }
{
    host::jt_step(state, services, rows, report)
}

pub fn step_n(
    state: &mut [u64],
    services: &[f64],
    count: u64,
    rows: &mut [u64],
    report: &mut [u64; 3],
) -> u32
    ensures answers { result ≡ returned (StepN services.now (room_in rows.old) count) state.old }
    ensures leaves { state.new ≡ after (StepN services.now (room_in rows.old) count) state.old }
{
    host::jt_step_n(state, services, count, rows, report)
}

pub fn step_until(
    state: &mut [u64],
    services: &[f64],
    until: f64,
    allowance: u32,
    rows: &mut [u64],
    report: &mut [u64; 3],
) -> u32
    ensures answers { result ≡ returned (StepUntil services.now until (room_in rows.old) allowance) state.old }
    ensures leaves { state.new ≡ after (StepUntil services.now until (room_in rows.old) allowance) state.old }
{
    host::jt_step_until(state, services, until, allowance, rows, report)
}

pub fn inject_input(
    state: &mut [u64],
    source_id: u16,
    source_port: u16,
    target_id: u16,
    target_port: u16,
    time: f64,
    content: u32,
) -> u32
    ensures answers { result ≡ returned (InjectInput (record { source_id = source_id; source_port = source_port; target_id = target_id; target_port = target_port; time = time; content = content })) state.old }
    ensures leaves { state.new ≡ after (InjectInput (record { source_id = source_id; source_port = source_port; target_id = target_id; target_port = target_port; time = time; content = content })) state.old }
{
    host::jt_inject_input(
        state,
        source_id,
        source_port,
        target_id,
        target_port,
        time,
        content,
    )
}

pub fn reset(state: &mut [u64]) -> u32
    ensures answers { result ≡ returned Reset state.old }
    ensures leaves { state.new ≡ after Reset state.old }
{
    host::jt_reset(state)
}

pub fn reset_messages(state: &mut [u64]) -> u32
    ensures answers { result ≡ returned ResetMessages state.old }
    ensures leaves { state.new ≡ after ResetMessages state.old }
{
    host::jt_reset_messages(state)
}

pub fn reset_global_time(state: &mut [u64]) -> u32
    ensures answers { result ≡ returned ResetGlobalTime state.old }
    ensures leaves { state.new ≡ after ResetGlobalTime state.old }
{
    host::jt_reset_global_time(state)
}

pub fn post(models: &[u64], connectors: &[u64], couplings: &[u64], state: &mut [u64]) -> u32
    ensures answers { result ≡ returned_by_post models.now connectors.now couplings.now state.old }
    ensures leaves { state.new ≡ after_post models.now connectors.now couplings.now state.old }
{
    host::jt_post(models, connectors, couplings, state)
}

pub fn put(state: &mut [u64], models: &[u64], connectors: &[u64], couplings: &[u64]) -> u32
    ensures answers { result ≡ returned_by_put models.now connectors.now couplings.now state.old }
    ensures leaves { state.new ≡ after_put models.now connectors.now couplings.now state.old }
{
    host::jt_put(state, models, connectors, couplings)
}
