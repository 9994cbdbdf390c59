// The bench's own run, on lent words and by value: what each step answers, and every word of the state that is not 0. The words that document 01's rules ask for stand in `stdout`.
#![tactic(auto)]

mod say;

use rules::Message;
use simulation::Simulation;
use std::io;

// Id 1 a batcher (m = 2, batch time 10), id 2 a processor (capacity 8), ports in 1 and out 2.
const MODELS: [u64; 20] = [
    1,
    2,
    0,
    0,
    1,
    0,
    0,
    2,
    2,
    0x4024_0000_0000_0000,
    2,
    1,
    2,
    0,
    1,
    0,
    0,
    2,
    8,
    0,
];

// One connector, 1:2 to 2:1.
const CONNECTORS: [u64; 4] = [1, 2, 2, 1];

const SERVICES: [f64; 3] = [4.0, 5.0, 6.0];

fn job(content: u32) -> Message {
    Message {
        source_id: 0,
        source_port: 0,
        target_id: 1,
        target_port: 1,
        time: 0.0,
        content,
    }
}

fn post(rt: &impl Print, state: &mut [u64]) -> io::Result<()> {
    say::answer(rt, simulation::post(&MODELS, &CONNECTORS, &[], state))
}

// A job injected at 1:1.
fn inject(rt: &impl Print, state: &mut [u64], content: u32) -> io::Result<()> {
    say::answer(rt, simulation::inject_input(state, job(content)))
}

fn one_step(rt: &impl Print, state: &mut [u64], number: u64) -> io::Result<()> {
    let mut rows = [0u64; 12];
    print!(rt; "step {number}: ")?;
    say::report(rt, simulation::step(state, &SERVICES, &mut rows))?;
    say::words(rt, "  rows", &rows)?;
    say::words(rt, "  state", state)
}

// Ten steps, and the one that is refused.
fn run_steps(rt: &impl Print, state: &mut [u64]) -> io::Result<()> {
    for number in 1..12 {
        one_step(rt, state, number)?;
    }
    Ok(())
}

fn run_until(rt: &impl Print, state: &mut [u64]) -> io::Result<()> {
    let mut rows = [0u64; 18];
    rt.print("until 10: ")?;
    say::report(
        rt,
        simulation::step_until(state, &SERVICES, 10.0, 1000, &mut rows),
    )?;
    say::words(rt, "  rows", &rows)?;
    say::words(rt, "  state", state)
}

fn show(rt: &impl Print, simulation: Simulation) -> io::Result<()> {
    say::words(rt, "  state", &simulation.words)
}

// The same by value, in one run.
fn run_value(rt: &impl Print) -> io::Result<()> {
    let mut rows = [0u64; 18];
    let posted = Simulation::post(&MODELS, &CONNECTORS, &[]);
    let first = posted.simulation.inject_input(job(11));
    let second = first.simulation.inject_input(job(12));
    let third = second.simulation.inject_input(job(13));
    let ran = third
        .simulation
        .step_until(&SERVICES, 10.0, 1000, &mut rows);
    rt.print("by value until 10: ")?;
    say::report(rt, ran.report)?;
    say::words(rt, "  rows", &rows)?;
    show(rt, ran.simulation)
}

// A refused post hands back the simulation of the empty table.
fn refused_value(rt: &impl Print) -> io::Result<()> {
    let posted = Simulation::post(&[0; 10], &[], &[]);
    rt.print("by value, a bad row: ")?;
    say::answer(rt, posted.answer)?;
    show(rt, posted.simulation)
}

fn main(rt: HostRuntime) -> io::Result<()> {
    let mut state = [0u64; 1958];
    post(&rt, &mut state)?;
    inject(&rt, &mut state, 11)?;
    inject(&rt, &mut state, 12)?;
    inject(&rt, &mut state, 13)?;
    say::words(&rt, "  state", &state)?;
    run_steps(&rt, &mut state)?;
    post(&rt, &mut state)?;
    inject(&rt, &mut state, 11)?;
    inject(&rt, &mut state, 12)?;
    inject(&rt, &mut state, 13)?;
    run_until(&rt, &mut state)?;
    run_value(&rt)?;
    refused_value(&rt)
}
