// The processor's and the batcher's events in place: the row's state is read from its words, and written there. Layout: docs/LAYOUT.md.
#![tactic(auto)]

ghost use Rattle.std.specs.Prelude.{◌≡◌, List, ℕ, ◌+◌, ◌≤◌, length, take, drop, T, Float, Ok};
ghost use Rattle.std.specs.Float.{binary64};
ghost use Rattle.std.specs.Float.Ieee.{of_bits};
ghost use Rattle.times.specs.Time.{is_timer};
ghost use Rattle.rules.specs.Base.{every};
ghost use Rattle.rules.specs.Sizes.{is_content};
ghost use Rattle.rules.specs.Table as Table;
ghost use Rattle.words.specs.Queue.{moved_up};
ghost use Rattle.events.specs.Meaning.{queue_after, count_of};
ghost use Rattle.memory.specs.Words.{head_at, timer_in, begin_in, place_in, own_in, replaced, Own};
ghost use Rattle.memory.specs.View.{Row, state_in};
ghost use Rattle.memory.specs.Atoms.{atom_external, atom_internal, Took, Gave};
ghost use Rattle.memory.specs.Answers.{answer_of};
ghost use Rattle.queue_rows.specs.Rows.{processor_at, batcher_at, processor_head, batcher_head, with_head, joins, own_after, put_words, put_of, jobs_at, Queued, Written, Wrote};

use batcher::BatcherState;
use events::Taken;
use processor::ProcessorState;
use rules::{Batcher, BatcherPhase, Processor, ProcessorPhase, Refusal};

// What of a row's state stands in its head, and the place in the service list.
#[derive(Clone, Copy)]
struct Head {
    phase: u64,
    timer: f64,
    held: u64,
    place: u64,
}

fn load_processor(mem: &[u64], row: usize) -> ProcessorState
    requires { (head_at row + 4 ≤ length mem.now) × T (is_timer (of_bits binary64 (timer_in mem.now row))) }
    ensures { result ≡ processor_at mem.now row }
{
    let timer = memory::timer_at(mem, row);
    let held = memory::held_at(mem, row);
    if memory::phase_at(mem, row) == 1 {
        return ProcessorState {
            phase: ProcessorPhase::Active,
            timer,
            held,
        };
    }
    ProcessorState {
        phase: ProcessorPhase::Passive,
        timer,
        held,
    }
}

fn load_batcher(mem: &[u64], row: usize) -> BatcherState
    requires { (head_at row + 4 ≤ length mem.now) × T (is_timer (of_bits binary64 (timer_in mem.now row))) }
    ensures { result ≡ batcher_at mem.now row }
{
    let timer = memory::timer_at(mem, row);
    let held = memory::held_at(mem, row);
    let phase = memory::phase_at(mem, row);
    if phase == 1 {
        return BatcherState {
            phase: BatcherPhase::Batching,
            timer,
            held,
        };
    }
    if phase == 2 {
        return BatcherState {
            phase: BatcherPhase::Release,
            timer,
            held,
        };
    }
    BatcherState {
        phase: BatcherPhase::Passive,
        timer,
        held,
    }
}

fn processor_head(state: ProcessorState, place: u64) -> Head
    ensures { result ≡ processor_head state place }
{
    let timer = state.timer;
    let held = state.held;
    let phase = state.phase;
    match phase {
        ProcessorPhase::Passive => Head {
            phase: 0,
            timer,
            held,
            place,
        },
        ProcessorPhase::Active => Head {
            phase: 1,
            timer,
            held,
            place,
        },
    }
}

fn batcher_head(state: BatcherState, place: u64) -> Head
    ensures { result ≡ batcher_head state place }
{
    let timer = state.timer;
    let held = state.held;
    let phase = state.phase;
    match phase {
        BatcherPhase::Passive => Head {
            phase: 0,
            timer,
            held,
            place,
        },
        BatcherPhase::Batching => Head {
            phase: 1,
            timer,
            held,
            place,
        },
        BatcherPhase::Release => Head {
            phase: 2,
            timer,
            held,
            place,
        },
    }
}

// Writes the head, and the place.
fn store(mem: &mut [u64], row: usize, next: Head)
    requires { head_at row + 4 ≤ length mem.old }
    ensures { mem.new ≡ with_head row next mem.old }
{
    let bits = times::bits_of(next.timer);
    memory::set_head(mem, row, next.phase, bits, next.held);
    mem[2] = next.place;
}

// Whether what came now stands in the queue.
fn is_joined(taken: Result<Taken, Refusal>) -> bool
    ensures { result ≡ joins taken }
{
    matches!(taken, Ok(Taken::Started | Taken::Kept))
}

// The job stands behind the others, where it is kept.
fn keep(mem: &mut [u64], begin: usize, held: u64, taken: Result<Taken, Refusal>, content: u32)
    requires { begin + 64 ≤ length mem.old }
    ensures { mem.new ≡ replaced begin 64 (own_after taken held content (own_in begin 64 mem.old)) mem.old }
{
    if !is_joined(taken) {
        return;
    }
    words::push(&mut mem[begin..begin + 64], held as usize, content as u64);
}

// The first jobs go, and the others move up. Where none goes there is nothing to do.
fn let_go(mem: &mut [u64], begin: usize, held: u64, gone: u64)
    requires { begin + 64 ≤ length mem.old }
    ensures { mem.new ≡ replaced begin 64 (moved_up gone held (own_in begin 64 mem.old)) mem.old }
{
    if gone == 0 {
        return;
    }
    words::move_up(&mut mem[begin..begin + 64], held as usize, gone as usize);
}

// Copies the first `gone` jobs to the words from `at` on, each with its port.
fn put_out(mem: &mut [u64], begin: usize, gone: u64, port: u16, at: usize)
    requires { (gone ≤ 64) × (begin + 64 ≤ at) × (at + 64 ≤ length mem.old) × T (every is_content (take gone (drop begin mem.old))) }
    ensures { mem.new ≡ put_words begin at port mem.old gone }
{
    for done in 0..gone as usize {
        mem[at + done] = port as u64 * 4294967296 + mem[begin + done];
    }
}

// What came of an external event is written, and nothing where it is refused.
fn write_taken(
    mem: &mut [u64],
    row: usize,
    next: Head,
    taken: Result<Taken, Refusal>,
    content: u32,
) -> Result<(), Refusal>
    requires { Queued (begin_in mem.old row) mem.old row × (length (queue_after taken (jobs_at (begin_in mem.old row) mem.old row) content) ≡ next.held) × (next.held ≤ 64) }
    ensures answers { result ≡ answer_of taken }
    ensures writes { answer_of taken ≡ Ok tt → Written (begin_in mem.old row) row next (queue_after taken (jobs_at (begin_in mem.old row) mem.old row) content) mem.new }
    ensures owns { Own row (begin_in mem.old row) 64 0 0 mem.old mem.new }
{
    match memory::answer_of(taken) {
        Err(refusal) => Err(refusal),
        Ok(()) => {
            let begin = memory::begin_at(mem, row);
            let held = memory::held_at(mem, row);
            keep(mem, begin, held, taken, content);
            store(mem, row, next);
            Ok(())
        }
    }
}

// What came of an internal event is written, and nothing where it is refused.
fn write_gone(
    mem: &mut [u64],
    row: usize,
    next: Head,
    gone: Result<u64, Refusal>,
    port: u16,
    at: usize,
) -> Result<usize, Refusal>
    requires { Queued (begin_in mem.old row) mem.old row × (begin_in mem.old row + 64 ≤ at) × (at + 64 ≤ length mem.old) × (count_of gone ≤ length (jobs_at (begin_in mem.old row) mem.old row)) × (length (drop (count_of gone) (jobs_at (begin_in mem.old row) mem.old row)) ≡ next.held) }
    ensures answers { result ≡ put_of gone }
    ensures writes { (n : ℕ) → gone ≡ Ok n → Wrote n at port row (begin_in mem.old row) next (jobs_at (begin_in mem.old row) mem.old row) mem.new }
    ensures owns { Own row (begin_in mem.old row) 64 at (at + 64) mem.old mem.new }
{
    match gone {
        Err(refusal) => Err(refusal),
        Ok(count) => {
            let begin = memory::begin_at(mem, row);
            let held = memory::held_at(mem, row);
            put_out(mem, begin, count, port, at);
            let_go(mem, begin, held, count);
            store(mem, row, next);
            Ok(count as usize)
        }
    }
}

// A job comes: the processor's rule, done in the row's words. Only these and the place are written.
pub fn processor_external(
    mem: &mut [u64],
    services: &[f64],
    row: usize,
    model: Processor,
    port: u16,
    content: u32,
) -> Result<(), Refusal>
    requires { Row (Table.processor model) (begin_in mem.old row) mem.old row }
    ensures takes { (clock : Float) → Took result (Table.processor model) (begin_in mem.old row) row mem.new (atom_external (Table.processor model) services.now clock port content (state_in (Table.processor model) (begin_in mem.old row) mem.old row) (place_in mem.old)) }
    ensures owns { Own row (begin_in mem.old row) 64 0 0 mem.old mem.new }
{
    let state = load_processor(mem, row);
    let taken = state.external_rule(model, services, mem[2], port);
    let next = taken.next;
    let answer = taken.answer;
    let head = processor_head(next, taken.place);
    write_taken(mem, row, head, answer, content)
}

// Its timer has run out: the processor's rule, done in the row's words. What it puts out stands from `at` on.
pub fn processor_internal(
    mem: &mut [u64],
    services: &[f64],
    row: usize,
    model: Processor,
    at: usize,
) -> Result<usize, Refusal>
    requires { Row (Table.processor model) (begin_in mem.old row) mem.old row × (begin_in mem.old row + 64 ≤ at) × (at + 64 ≤ length mem.old) }
    ensures gives { Gave result at (Table.processor model) (begin_in mem.old row) row mem.new (atom_internal (Table.processor model) services.now (state_in (Table.processor model) (begin_in mem.old row) mem.old row) (place_in mem.old)) }
    ensures owns { Own row (begin_in mem.old row) 64 at (at + 64) mem.old mem.new }
{
    let state = load_processor(mem, row);
    let gone = state.internal_rule(services, mem[2]);
    let left = gone.next;
    let answer = gone.answer;
    let head = processor_head(left, gone.place);
    write_gone(mem, row, head, answer, model.output, at)
}

// A job comes: the batcher's rule, done in the row's words. The port isn't looked at.
pub fn batcher_external(
    mem: &mut [u64],
    row: usize,
    model: Batcher,
    content: u32,
) -> Result<(), Refusal>
    requires { Row (Table.batcher model) (begin_in mem.old row) mem.old row }
    ensures takes { (services : List Float) (clock : Float) (port : ℕ) → Took result (Table.batcher model) (begin_in mem.old row) row mem.new (atom_external (Table.batcher model) services clock port content (state_in (Table.batcher model) (begin_in mem.old row) mem.old row) (place_in mem.old)) }
    ensures owns { Own row (begin_in mem.old row) 64 0 0 mem.old mem.new }
{
    let state = load_batcher(mem, row);
    let taken = state.external_rule(model);
    let next = taken.next;
    let answer = taken.answer;
    let head = batcher_head(next, mem[2]);
    write_taken(mem, row, head, answer, content)
}

// Its timer has run out: the batcher's rule, done in the row's words. What it puts out stands from `at` on.
pub fn batcher_internal(
    mem: &mut [u64],
    row: usize,
    model: Batcher,
    at: usize,
) -> Result<usize, Refusal>
    requires { Row (Table.batcher model) (begin_in mem.old row) mem.old row × (begin_in mem.old row + 64 ≤ at) × (at + 64 ≤ length mem.old) }
    ensures gives { (services : List Float) → Gave result at (Table.batcher model) (begin_in mem.old row) row mem.new (atom_internal (Table.batcher model) services (state_in (Table.batcher model) (begin_in mem.old row) mem.old row) (place_in mem.old)) }
    ensures owns { Own row (begin_in mem.old row) 64 at (at + 64) mem.old mem.new }
{
    let state = load_batcher(mem, row);
    let gone = state.internal_rule(model);
    let left = gone.next;
    let answer = gone.answer;
    let head = batcher_head(left, mem[2]);
    write_gone(mem, row, head, answer, model.output, at)
}
