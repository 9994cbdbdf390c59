// Refusal 20 of a lent state: whether the buffer holds a simulation. Layout: docs/LAYOUT.md.
#![tactic(auto)]

ghost use Rattle.std.specs.Prelude.{◌≡◌, ◌+◌, ◌*◌, ◌≤◌, ◌<◌, length, eqb};
ghost use Rattle.std.specs.Float.{binary64};
ghost use Rattle.std.specs.Float.Ieee.{of_bits};
ghost use Rattle.times.specs.Time.{is_time, is_timer};
ghost use Rattle.rules.specs.Base.{every, hold};
ghost use Rattle.rules.specs.Sizes.{is_content};
ghost use Rattle.rules.specs.Table as Table;
ghost use Rattle.rules.specs.Table.{kind_at};
ghost use Rattle.rules.specs.declared.Processor.{Processor};
ghost use Rattle.rules.specs.declared.Batcher.{Batcher};
ghost use Rattle.rules.specs.declared.Stopwatch.{Stopwatch};
ghost use Rattle.rules.specs.Valid.{kind_number, message_rules};
ghost use Rattle.words.specs.Queue.{unused_clear};
ghost use Rattle.marks.specs.MarkingLaws.{unused_in};
ghost use Rattle.memory.specs.Words.{head_at};
ghost use Rattle.views.specs.Messages.{message_in, messages_in};
ghost use Rattle.lookup.specs.Inside.{Inside, table_in};
ghost use Rattle.storing.specs.State.{is_stored};
ghost use Rattle.holding.specs.Fitting.{queue_fits, row_fits, next_if, row_end, rows_end, tail_fits, table_fits};

// Whether the bits are a time's.
fn is_time(bits: u64) -> bool
    ensures { result ≡ is_time (of_bits binary64 bits) }
{
    bits <= 0x43B0_0000_0000_0000
}

// Whether the bits are a timer's: a time's, or those of +infinity.
fn is_timer(bits: u64) -> bool
    ensures { result ≡ is_timer (of_bits binary64 bits) }
{
    if is_time(bits) {
        return true;
    }
    bits == 0x7FF0_0000_0000_0000
}

// Whether each place holds 0. It never ends early, so that the compiler may join several words at once.
fn is_clear(places: &[u64]) -> bool
    ensures { result ≡ every (λ w. eqb w 0) places.now }
{
    let mut joined: u64 = 0;
    for place in places {
        joined |= *place;
    }
    joined == 0
}

// The places after those held. As a rule few are: the last 56 are then joined by themselves, a number fixed for the compiler.
fn rest_clear(own: &[u64], held: usize) -> bool
    requires { (held ≤ 64) × (length own.now ≡ 64) }
    ensures { result ≡ unused_clear held own.now }
{
    if 8 < held {
        return is_clear(&own[held..64]);
    }
    if !is_clear(&own[8..64]) {
        return false;
    }
    is_clear(&own[held..8])
}

// Whether each job is a content.
fn are_contents(jobs: &[u64]) -> bool
    ensures { result ≡ every is_content jobs.now }
{
    for job in jobs {
        if 0xFFFF_FFFF < *job {
            return false;
        }
    }
    true
}

// A queue of jobs, and the places after them.
fn queue_fits(own: &[u64], held: u64) -> bool
    requires { length own.now ≡ 64 }
    ensures { result ≡ queue_fits held own.now }
{
    if 64 < held {
        return false;
    }
    let end = held as usize;
    if !are_contents(&own[0..end]) {
        return false;
    }
    rest_clear(own, end)
}

// Passive is phase 0 and Active 1, so an Active one without jobs holds fewer than its phase.
fn processor_fits(capacity: u64, phase: u64, timer: u64, held: u64, own: &[u64]) -> bool
    requires { length own.now ≡ 64 }
    ensures { (model : Processor) → capacity ≡ model.queue_capacity → result ≡ row_fits (Table.processor model) phase timer held own.now }
{
    if 1 < phase {
        return false;
    }
    if !is_timer(timer) {
        return false;
    }
    if capacity < held {
        return false;
    }
    if held < phase {
        return false;
    }
    queue_fits(own, held)
}

// Whether a batcher's head and own words are what 20 asks.
fn batcher_fits(phase: u64, timer: u64, held: u64, own: &[u64]) -> bool
    requires { length own.now ≡ 64 }
    ensures { (model : Batcher) → result ≡ row_fits (Table.batcher model) phase timer held own.now }
{
    if 2 < phase {
        return false;
    }
    if !is_timer(timer) {
        return false;
    }
    queue_fits(own, held)
}

// The places of each of a stopwatch's columns after its jobs.
fn columns_clear(own: &[u64], held: usize) -> bool
    requires { (held ≤ 64) × (length own.now ≡ 192) }
    ensures { result ≡ unused_in held own.now }
{
    if !is_clear(&own[held..64]) {
        return false;
    }
    if !is_clear(&own[64 + held..128]) {
        return false;
    }
    is_clear(&own[128 + held..192])
}

fn stopwatch_fits(phase: u64, timer: u64, held: u64, own: &[u64]) -> bool
    requires { length own.now ≡ 192 }
    ensures { (model : Stopwatch) → result ≡ row_fits (Table.stopwatch model) phase timer held own.now }
{
    if 1 < phase {
        return false;
    }
    if !is_timer(timer) {
        return false;
    }
    if !marks::fit(own, held) {
        return false;
    }
    columns_clear(own, held as usize)
}

// Every word is a parked message, so only the places after them are looked at.
fn coupled_fits(phase: u64, timer: u64, held: u64, own: &[u64]) -> bool
    requires { length own.now ≡ 64 }
    ensures { result ≡ row_fits Table.coupled phase timer held own.now }
{
    if phase != 0 {
        return false;
    }
    if timer != 0 {
        return false;
    }
    if 64 < held {
        return false;
    }
    rest_clear(own, held as usize)
}

fn next_if(fits: bool, end: usize) -> Option<usize>
    ensures { result ≡ next_if fits end }
{
    if fits {
        return Some(end);
    }
    None
}

// Intake has judged each row, so its kind's number says the kind, and no other word of it need be looked at again.
fn kind_number(state: &[u64], row: usize) -> u64
    requires { Inside state.now × (row < length (table_in state.now).rows) }
    ensures { result ≡ kind_number (kind_at (table_in state.now) row) }
{
    let start = row * 10 + 3;
    state[start + 1]
}

// A processor's capacity, as `table` reads it.
fn capacity_of(state: &[u64], row: usize) -> u64
    requires { Inside state.now × (row < length (table_in state.now).rows) }
    ensures { (model : Processor) → kind_at (table_in state.now) row ≡ Table.processor model → result ≡ model.queue_capacity }
{
    let start = row * 10 + 3;
    if state[start + 2] / 2 % 2 == 1 {
        return state[start + 8];
    }
    rules::OMITTED_CAPACITY
}

// A row whose own words are to begin at `begin`: where they end, if it fits.
fn row_end(state: &[u64], mem: &[u64], row: usize, begin: usize) -> Option<usize>
    requires { Inside state.now × (row < length (table_in state.now).rows) × (head_at row + 4 ≤ length mem.now) × (begin + 192 ≤ length mem.now) }
    ensures { result ≡ row_end (kind_at (table_in state.now) row) begin mem.now row }
{
    let said = memory::begin_at(mem, row);
    if said != begin {
        return None;
    }
    let phase = memory::phase_at(mem, row);
    let head = row * 4 + 3;
    let timer = mem[head + 1];
    let held = memory::held_at(mem, row);
    let end = begin + 64;
    let kind = kind_number(state, row);
    if kind == 1 {
        let capacity = capacity_of(state, row);
        return next_if(
            processor_fits(capacity, phase, timer, held, &mem[begin..end]),
            end,
        );
    }
    if kind == 2 {
        return next_if(batcher_fits(phase, timer, held, &mem[begin..end]), end);
    }
    if kind == 3 {
        let last = begin + 192;
        return next_if(stopwatch_fits(phase, timer, held, &mem[begin..last]), last);
    }
    next_if(coupled_fits(phase, timer, held, &mem[begin..end]), end)
}

// The rows in order, each beginning where the one before it ends.
fn rows_end(state: &[u64], mem: &[u64]) -> Option<usize>
    requires { Inside state.now × (head_at (length (table_in state.now).rows) + length (table_in state.now).rows * 192 ≤ length mem.now) }
    ensures { result ≡ rows_end (table_in state.now) mem.now }
{
    let rows = lookup::row_count(state);
    let mut begin = rows * 4 + 3;
    for row in 0..rows {
        begin = row_end(state, mem, row, begin)?;
    }
    Some(begin)
}

// The message k of those from `at` on.
fn message_fits(mem: &[u64], at: usize, k: usize) -> bool
    requires { at + k * 6 + 6 ≤ length mem.now }
    ensures { result ≡ hold (message_rules (message_in at mem.now k)) }
{
    let start = at + k * 6;
    if 0xFFFF < mem[start] {
        return false;
    }
    if 0xFFFF < mem[start + 1] {
        return false;
    }
    if 0xFFFF < mem[start + 2] {
        return false;
    }
    if 0xFFFF < mem[start + 3] {
        return false;
    }
    if !is_time(mem[start + 4]) {
        return false;
    }
    mem[start + 5] <= 0xFFFF_FFFF
}

fn messages_fit(mem: &[u64], at: usize, count: usize) -> bool
    requires { at + count * 6 ≤ length mem.now }
    ensures { result ≡ every (λ m. hold (message_rules m)) (messages_in at count mem.now) }
{
    for k in 0..count {
        if !message_fits(mem, at, k) {
            return false;
        }
    }
    true
}

// The changing part. Its place in the service list is any word.
fn tail_fits(state: &[u64], mem: &[u64]) -> bool
    requires { Inside state.now × (head_at (length (table_in state.now).rows) + length (table_in state.now).rows * 192 + 1536 ≤ length mem.now) }
    ensures { result ≡ tail_fits (table_in state.now) mem.now }
{
    if 256 < mem[0] {
        return false;
    }
    if !is_time(mem[1]) {
        return false;
    }
    match rows_end(state, mem) {
        Some(end) => messages_fit(mem, end, mem[0] as usize),
        None => false,
    }
}

// The table: no more rows than there may be, the buffer's length, and intake. The counts come first, so that nothing is too large to multiply.
// A state without rows needs 1542 words; beyond the table a row needs at most 196, its head among them.
fn table_fits(state: &[u64]) -> bool
    ensures { result ≡ table_fits state.now }
{
    if state.len() < 1542 {
        return false;
    }
    if 64 < state[0] {
        return false;
    }
    if 256 < state[1] {
        return false;
    }
    if 256 < state[2] {
        return false;
    }
    let connectors = state[0] as usize * 10 + 3;
    let couplings = connectors + state[1] as usize * 4;
    let tail = couplings + state[2] as usize * 6;
    if state.len() < tail + state[0] as usize * 196 + 1539 {
        return false;
    }
    table::intake(
        &state[3..connectors],
        &state[connectors..couplings],
        &state[couplings..tail],
    )
    .is_ok()
}

// Whether the buffer holds a simulation: what 20 asks of a lent state.
pub fn is_state(state: &[u64]) -> bool
    ensures { result ≡ is_stored state.now }
{
    if !table_fits(state) {
        return false;
    }
    let tail = lookup::tail_at(state);
    tail_fits(state, &state[tail..state.len()])
}
