// The calls for C, which `host_c` exports: include/jambthrush.h says how to use them. Each answers 0 or the number of the refusal.
#![tactic(auto)]

ghost use Rattle.std.specs.Prelude.{◌≡◌, ◌/◌, length};
ghost use Rattle.rules.specs.Intake.{intake, taken_in};
ghost use Rattle.rules.specs.Layout.{lent, omitted_in, room_in, laid_down};
ghost use Rattle.rules.specs.Calls as Calls;
ghost use Rattle.memory.specs.View.{working_number, batching_number};
ghost use Rattle.engine.specs.Telling.{end_is};
ghost use Rattle.storing.specs.State.{words_for};
ghost use Rattle.capacities.specs.Migration.{written_out};
ghost use Rattle.storing.specs.Lent.{call_in, left, listed, post_in, put_in, left_anew, run_in, left_by_run};
ghost use Rattle.trace_blocks.specs.Blocks.{six};
ghost use Rattle.trace_files.specs.Files.{trace_bytes, write_trace, file_after, read_trace, reading_number, rows_after};
ghost use Rattle.host.specs.Numbers.{answer_number, number_of, end_number, end_word, reported, report_after, said, status_after, count_after, time_after, intake_said, written_after, read_said};

use asking::Status;
use engine::{End, Report};
use rules::{BatcherPhase, Message, ProcessorPhase, Refusal};
use table::BadTable;
use trace_files::ReadError;

// 0, or the refusal's number.
fn answer_number(answer: Result<(), Refusal>) -> u32
    ensures { result ≡ answer_number answer }
{
    match answer {
        Ok(()) => 0,
        Err(refusal) => rules::number(refusal),
    }
}

// Three words of a report, and a number.
fn place(report: &mut [u64; 3], part: u64, row: usize, omitted: usize, number: u32) -> u32
    ensures answers { result ≡ number }
    ensures tells { report.new ≡ reported part row omitted report.old }
{
    report[0] = part;
    report[1] = row as u64;
    report[2] = omitted as u64;
    number
}

// Table intake: 0, 1, 2 or 3, with the first bad row, or how many rows omit `queue_capacity`.
pub fn jt_intake(
    models: &[u64],
    connectors: &[u64],
    couplings: &[u64],
    report: &mut [u64; 3],
) -> u32
    ensures answers { result ≡ number_of (taken_in (intake (lent models.now connectors.now couplings.now))) }
    ensures tells { report.new ≡ intake_said (omitted_in models.now) (intake (lent models.now connectors.now couplings.now)) report.old }
{
    match table::intake(models, connectors, couplings) {
        Ok(()) => place(report, 0, 0, capacities::omitted(models), 0),
        Err(BadTable::TooLarge) => place(report, 0, 0, 0, 1),
        Err(BadTable::Row(row)) => place(report, 1, row, 0, 2),
        Err(BadTable::Connector(row)) => place(report, 2, row, 0, 3),
        Err(BadTable::Coupling(row)) => place(report, 3, row, 0, 3),
    }
}

// The migration of a table that omits `queue_capacity` and means 2^64 - 1: 0, and how many rows it wrote.
pub fn jt_write_out_capacity(models: &mut [u64], count: &mut u64) -> u32
    ensures answers { result ≡ 0 }
    ensures writes { models.new ≡ written_out models.old }
    ensures tells { count.new ≡ omitted_in models.old }
{
    *count = capacities::write_out(models) as u64;
    0
}

// `post`: 0, 20, 1, 2 or 3, and the state buffer after it.
pub fn jt_post(models: &[u64], connectors: &[u64], couplings: &[u64], state: &mut [u64]) -> u32
    ensures answers { result ≡ number_of (post_in models.now connectors.now couplings.now state.old) }
    ensures leaves { state.new ≡ left_anew models.now connectors.now couplings.now state.old (post_in models.now connectors.now couplings.now state.old) }
{
    answer_number(simulation::post(models, connectors, couplings, state))
}

// `put`: 0, 20, 1, 2 or 3, and the state buffer after it.
pub fn jt_put(state: &mut [u64], models: &[u64], connectors: &[u64], couplings: &[u64]) -> u32
    ensures answers { result ≡ number_of (put_in models.now connectors.now couplings.now state.old) }
    ensures leaves { state.new ≡ left_anew models.now connectors.now couplings.now state.old (put_in models.now connectors.now couplings.now state.old) }
{
    answer_number(simulation::put(state, models, connectors, couplings))
}

// `inject_input`: 0, 20, 10 or 8, and the state buffer after it.
pub fn jt_inject_input(
    state: &mut [u64],
    source_id: u16,
    source_port: u16,
    target_id: u16,
    target_port: u16,
    time: f64,
    content: u32,
) -> u32
    ensures answers { result ≡ number_of (call_in (Calls.inject_input (record { source_id = source_id; source_port = source_port; target_id = target_id; target_port = target_port; time = time; content = content })) state.old) }
    ensures leaves { state.new ≡ left state.old (call_in (Calls.inject_input (record { source_id = source_id; source_port = source_port; target_id = target_id; target_port = target_port; time = time; content = content })) state.old) }
{
    let message = Message {
        source_id,
        source_port,
        target_id,
        target_port,
        time,
        content,
    };
    answer_number(simulation::inject_input(state, message))
}

// 0, or the number of the refusal that ended a run.
fn end_number(end: End) -> u32
    ensures { result ≡ end_number (end_is end) }
{
    match end {
        End::Done => 0,
        End::Reached => 0,
        End::Spent => 0,
        End::Refused(refusal) => rules::number(refusal),
    }
}

// How a run ended, as a word.
fn end_word(end: End) -> u64
    ensures { result ≡ end_word (end_is end) }
{
    match end {
        End::Done => 0,
        End::Reached => 1,
        End::Spent => 2,
        End::Refused(_) => 3,
    }
}

// What a run reports, and its number.
fn tell(told: Report, report: &mut [u64; 3]) -> u32
    ensures answers { result ≡ end_number (end_is told.end) }
    ensures tells { report.new ≡ reported told.steps told.written (end_word (end_is told.end)) report.old }
{
    let end = told.end;
    report[0] = told.steps;
    report[1] = told.written as u64;
    report[2] = end_word(end);
    end_number(end)
}

// `step`: 0 or the number of the refusal; report, state buffer and rows after it.
pub fn jt_step(state: &mut [u64], services: &[f64], rows: &mut [u64], report: &mut [u64; 3]) -> u32
    ensures answers { result ≡ end_number (run_in (Calls.step services.now (room_in rows.old)) state.old).end }
    ensures tells { report.new ≡ report_after report.old (run_in (Calls.step services.now (room_in rows.old)) state.old) }
    ensures leaves { state.new ≡ left_by_run state.old (run_in (Calls.step services.now (room_in rows.old)) state.old) }
    ensures lays { rows.new ≡ laid_down (run_in (Calls.step services.now (room_in rows.old)) state.old).rows rows.old }
{
    let told = simulation::step(state, services, rows);
    tell(told, report)
}

// `step_n`: 0 or the number of the refusal; report, state buffer and rows after it.
pub fn jt_step_n(
    state: &mut [u64],
    services: &[f64],
    count: u64,
    rows: &mut [u64],
    report: &mut [u64; 3],
) -> u32
    ensures answers { result ≡ end_number (run_in (Calls.step_n services.now (room_in rows.old) count) state.old).end }
    ensures tells { report.new ≡ report_after report.old (run_in (Calls.step_n services.now (room_in rows.old) count) state.old) }
    ensures leaves { state.new ≡ left_by_run state.old (run_in (Calls.step_n services.now (room_in rows.old) count) state.old) }
    ensures lays { rows.new ≡ laid_down (run_in (Calls.step_n services.now (room_in rows.old) count) state.old).rows rows.old }
{
    let told = simulation::step_n(state, services, count, rows);
    tell(told, report)
}

// `step_until`: 0 or the number of the refusal; report, state buffer and rows after it.
pub fn jt_step_until(
    state: &mut [u64],
    services: &[f64],
    until: f64,
    allowance: u32,
    rows: &mut [u64],
    report: &mut [u64; 3],
) -> u32
    ensures answers { result ≡ end_number (run_in (Calls.step_until services.now until (room_in rows.old) allowance) state.old).end }
    ensures tells { report.new ≡ report_after report.old (run_in (Calls.step_until services.now until (room_in rows.old) allowance) state.old) }
    ensures leaves { state.new ≡ left_by_run state.old (run_in (Calls.step_until services.now until (room_in rows.old) allowance) state.old) }
    ensures lays { rows.new ≡ laid_down (run_in (Calls.step_until services.now until (room_in rows.old) allowance) state.old).rows rows.old }
{
    let told = simulation::step_until(state, services, until, allowance, rows);
    tell(told, report)
}

// `reset`: 0 or 20, and the state buffer after it.
pub fn jt_reset(state: &mut [u64]) -> u32
    ensures answers { result ≡ number_of (call_in Calls.reset state.old) }
    ensures leaves { state.new ≡ left state.old (call_in Calls.reset state.old) }
{
    answer_number(simulation::reset(state))
}

// `reset_messages`: 0 or 20, and the state buffer after it.
pub fn jt_reset_messages(state: &mut [u64]) -> u32
    ensures answers { result ≡ number_of (call_in Calls.reset_messages state.old) }
    ensures leaves { state.new ≡ left state.old (call_in Calls.reset_messages state.old) }
{
    answer_number(simulation::reset_messages(state))
}

// `reset_global_time`: 0 or 20, and the state buffer after it.
pub fn jt_reset_global_time(state: &mut [u64]) -> u32
    ensures answers { result ≡ number_of (call_in Calls.reset_global_time state.old) }
    ensures leaves { state.new ≡ left state.old (call_in Calls.reset_global_time state.old) }
{
    answer_number(simulation::reset_global_time(state))
}

fn processor_number(phase: ProcessorPhase) -> u64
    ensures { result ≡ working_number phase }
{
    phase as u64
}

fn batcher_number(phase: BatcherPhase) -> u64
    ensures { result ≡ batching_number phase }
{
    phase as u64
}

// What a status is, and its value.
fn say(report: &mut [u64; 2], what: u64, value: u64) -> u32
    ensures answers { result ≡ 0 }
    ensures says { report.new ≡ said what value report.old }
{
    report[0] = what;
    report[1] = value;
    0
}

// `get_status`: 0, 20 or 4, and the report after it.
pub fn jt_get_status(state: &[u64], id: u16, report: &mut [u64; 2]) -> u32
    ensures answers { result ≡ number_of (call_in (Calls.get_status id) state.now) }
    ensures tells { report.new ≡ status_after report.old (call_in (Calls.get_status id) state.now) }
{
    match simulation::get_status(state, id) {
        Ok(Status::Processor(phase)) => say(report, 0, processor_number(phase)),
        Ok(Status::Batcher(phase)) => say(report, 1, batcher_number(phase)),
        Ok(Status::Mean(Some(mean))) => say(report, 2, times::bits_of(mean)),
        Ok(Status::Mean(None)) => say(report, 3, 0),
        Ok(Status::Parked(count)) => say(report, 4, count),
        Err(refusal) => rules::number(refusal),
    }
}

// `get_messages`: 0, 20 or 13; rows and count after it.
pub fn jt_get_messages(state: &[u64], rows: &mut [u64], count: &mut u64) -> u32
    ensures answers { result ≡ number_of (call_in (Calls.get_messages (room_in rows.old)) state.now) }
    ensures lays { rows.new ≡ listed rows.old (call_in (Calls.get_messages (room_in rows.old)) state.now) }
    ensures tells { count.new ≡ count_after count.old (call_in (Calls.get_messages (room_in rows.old)) state.now) }
{
    match simulation::get_messages(state, rows) {
        Ok(n) => {
            *count = n as u64;
            0
        }
        Err(refusal) => rules::number(refusal),
    }
}

// `get_global_time`: 0 or 20, and the time after it.
pub fn jt_get_global_time(state: &[u64], time: &mut f64) -> u32
    ensures answers { result ≡ number_of (call_in Calls.get_global_time state.now) }
    ensures tells { time.new ≡ time_after time.old (call_in Calls.get_global_time state.now) }
{
    match simulation::get_global_time(state) {
        Ok(clock) => {
            *time = clock;
            0
        }
        Err(refusal) => rules::number(refusal),
    }
}

// How long a state buffer must be for any state of a table of these lengths; 0 where the table is too large.
pub fn jt_state_words(models_len: usize, connectors_len: usize, couplings_len: usize) -> usize
    ensures { result ≡ words_for models_len connectors_len couplings_len }
{
    storing::state_words(models_len, connectors_len, couplings_len)
}

// How many bytes the blocks have of so many words of rows; 0 where there is no whole row, or there are more than 2^32.
pub fn jt_trace_bytes(rows_len: usize) -> usize
    ensures { result ≡ trace_bytes six rows_len }
{
    trace_files::trace_bytes(rows_len)
}

// A trace's blocks, numbered from `start` on: 0 or 13; the file and its bytes after it.
pub fn jt_write_trace(rows: &[u64], start: u64, file: &mut [u8], written: &mut u64) -> u32
    ensures answers { result ≡ number_of (write_trace six rows.now start (length file.old)) }
    ensures leaves { file.new ≡ file_after file.old (write_trace six rows.now start (length file.old)) }
    ensures tells { written.new ≡ written_after written.old (write_trace six rows.now start (length file.old)) }
{
    match trace_files::write_trace(rows, start, file) {
        Ok(bytes) => {
            *written = bytes as u64;
            0
        }
        Err(refusal) => rules::number(refusal),
    }
}

// The rows of a trace from block `start` on: 0, 14 or 13; rows and report after it.
pub fn jt_read_trace(file: &[u8], start: u64, rows: &mut [u64], report: &mut [u64; 3]) -> u32
    ensures answers { result ≡ reading_number (read_trace six file.now start (length rows.old / 6)) }
    ensures lays { rows.new ≡ rows_after rows.old (read_trace six file.now start (length rows.old / 6)) }
    ensures tells { report.new ≡ read_said (read_trace six file.now start (length rows.old / 6)) report.old }
{
    match trace_files::read_trace(file, start, rows) {
        Ok(count) => place(report, count as u64, 0, 0, 0),
        Err(ReadError::BadBlock(block)) => place(report, 0, block as usize, 0, 14),
        Err(ReadError::NoRoom) => place(report, 0, 0, 0, 13),
    }
}
