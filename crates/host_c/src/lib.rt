// The C library: each export is the function of `host` that has its name, and promises what that one does. include/jambthrush.h says how to
// use them.
#![tactic(auto)]

ghost use Rattle.std.specs.Prelude.{◌≡◌, ◌/◌, length};
ghost use Rattle.rules.specs.Intake.{intake, taken_in};
ghost use Rattle.rules.specs.Layout.{lent, omitted_in, room_in, laid_down};
ghost use Rattle.rules.specs.Calls as Calls;
ghost use Rattle.storing.specs.State.{words_for};
ghost use Rattle.capacities.specs.Migration.{written_out};
ghost use Rattle.storing.specs.Lent.{call_in, left, listed, post_in, put_in, left_anew, run_in, left_by_run};
ghost use Rattle.trace_blocks.specs.Blocks.{six};
ghost use Rattle.trace_files.specs.Files.{trace_bytes, write_trace, file_after, read_trace, reading_number, rows_after};
ghost use Rattle.host.specs.Numbers.{number_of, end_number, report_after, status_after, count_after, time_after, intake_said, written_after, read_said};

// Table intake: 0, 1, 2 or 3, with the first bad row, or how many rows omit `queue_capacity`.
#[unsafe(no_mangle)]
pub extern "C" fn jt_intake(
    models: &[u64],
    connectors: &[u64],
    couplings: &[u64],
    report: &mut [u64; 3],
) -> u32
    ensures answers { result ≡ number_of (taken_in (intake (lent models.now connectors.now couplings.now))) }
    ensures tells { report.new ≡ intake_said (omitted_in models.now) (intake (lent models.now connectors.now couplings.now)) report.old }
{
    host::jt_intake(models, connectors, couplings, report)
}

// The migration of a table that omits `queue_capacity` and means 2^64 - 1: 0, and how many rows it wrote.
#[unsafe(no_mangle)]
pub extern "C" fn jt_write_out_capacity(models: &mut [u64], count: &mut u64) -> u32
    ensures answers { result ≡ 0 }
    ensures writes { models.new ≡ written_out models.old }
    ensures tells { count.new ≡ omitted_in models.old }
{
    host::jt_write_out_capacity(models, count)
}

// `post`: 0, 20, 1, 2 or 3, and the state buffer after it.
#[unsafe(no_mangle)]
pub extern "C" fn jt_post(
    models: &[u64],
    connectors: &[u64],
    couplings: &[u64],
    state: &mut [u64],
) -> u32
    ensures answers { result ≡ number_of (post_in models.now connectors.now couplings.now state.old) }
    ensures leaves { state.new ≡ left_anew models.now connectors.now couplings.now state.old (post_in models.now connectors.now couplings.now state.old) }
{
    host::jt_post(models, connectors, couplings, state)
}

// `put`: 0, 20, 1, 2 or 3, and the state buffer after it.
#[unsafe(no_mangle)]
pub extern "C" fn jt_put(
    state: &mut [u64],
    models: &[u64],
    connectors: &[u64],
    couplings: &[u64],
) -> u32
    ensures answers { result ≡ number_of (put_in models.now connectors.now couplings.now state.old) }
    ensures leaves { state.new ≡ left_anew models.now connectors.now couplings.now state.old (put_in models.now connectors.now couplings.now state.old) }
{
    host::jt_put(state, models, connectors, couplings)
}

// `inject_input`: 0, 20, 10 or 8, and the state buffer after it.
#[unsafe(no_mangle)]
pub extern "C" fn jt_inject_input(
    state: &mut [u64],
    source_id: u16,
    source_port: u16,
    target_id: u16,
    target_port: u16,
    time: f64,
    content: u32,
) -> u32
    ensures answers { result ≡ number_of (call_in (Calls.inject_input (record { source_id = source_id; source_port = source_port; target_id = target_id; target_port = target_port; time = time; content = content })) state.old) }
    ensures leaves { state.new ≡ left state.old (call_in (Calls.inject_input (record { source_id = source_id; source_port = source_port; target_id = target_id; target_port = target_port; time = time; content = content })) state.old) }
{
    host::jt_inject_input(
        state,
        source_id,
        source_port,
        target_id,
        target_port,
        time,
        content,
    )
}

// `step`: 0 or the number of the refusal; report, state buffer and rows after it.
#[unsafe(no_mangle)]
pub extern "C" fn jt_step(
    state: &mut [u64],
    services: &[f64],
    rows: &mut [u64],
    report: &mut [u64; 3],
) -> u32
    ensures answers { result ≡ end_number (run_in (Calls.step services.now (room_in rows.old)) state.old).end }
    ensures tells { report.new ≡ report_after report.old (run_in (Calls.step services.now (room_in rows.old)) state.old) }
    ensures leaves { state.new ≡ left_by_run state.old (run_in (Calls.step services.now (room_in rows.old)) state.old) }
    ensures lays { rows.new ≡ laid_down (run_in (Calls.step services.now (room_in rows.old)) state.old).rows rows.old }
{
    host::jt_step(state, services, rows, report)
}

// `step_n`: 0 or the number of the refusal; report, state buffer and rows after it.
#[unsafe(no_mangle)]
pub extern "C" fn jt_step_n(
    state: &mut [u64],
    services: &[f64],
    count: u64,
    rows: &mut [u64],
    report: &mut [u64; 3],
) -> u32
    ensures answers { result ≡ end_number (run_in (Calls.step_n services.now (room_in rows.old) count) state.old).end }
    ensures tells { report.new ≡ report_after report.old (run_in (Calls.step_n services.now (room_in rows.old) count) state.old) }
    ensures leaves { state.new ≡ left_by_run state.old (run_in (Calls.step_n services.now (room_in rows.old) count) state.old) }
    ensures lays { rows.new ≡ laid_down (run_in (Calls.step_n services.now (room_in rows.old) count) state.old).rows rows.old }
{
    host::jt_step_n(state, services, count, rows, report)
}

// `step_until`: 0 or the number of the refusal; report, state buffer and rows after it.
#[unsafe(no_mangle)]
pub extern "C" fn jt_step_until(
    state: &mut [u64],
    services: &[f64],
    until: f64,
    allowance: u32,
    rows: &mut [u64],
    report: &mut [u64; 3],
) -> u32
    ensures answers { result ≡ end_number (run_in (Calls.step_until services.now until (room_in rows.old) allowance) state.old).end }
    ensures tells { report.new ≡ report_after report.old (run_in (Calls.step_until services.now until (room_in rows.old) allowance) state.old) }
    ensures leaves { state.new ≡ left_by_run state.old (run_in (Calls.step_until services.now until (room_in rows.old) allowance) state.old) }
    ensures lays { rows.new ≡ laid_down (run_in (Calls.step_until services.now until (room_in rows.old) allowance) state.old).rows rows.old }
{
    host::jt_step_until(state, services, until, allowance, rows, report)
}

// `reset`: 0 or 20, and the state buffer after it.
#[unsafe(no_mangle)]
pub extern "C" fn jt_reset(state: &mut [u64]) -> u32
    ensures answers { result ≡ number_of (call_in Calls.reset state.old) }
    ensures leaves { state.new ≡ left state.old (call_in Calls.reset state.old) }
{
    host::jt_reset(state)
}

// `reset_messages`: 0 or 20, and the state buffer after it.
#[unsafe(no_mangle)]
pub extern "C" fn jt_reset_messages(state: &mut [u64]) -> u32
    ensures answers { result ≡ number_of (call_in Calls.reset_messages state.old) }
    ensures leaves { state.new ≡ left state.old (call_in Calls.reset_messages state.old) }
{
    host::jt_reset_messages(state)
}

// `reset_global_time`: 0 or 20, and the state buffer after it.
#[unsafe(no_mangle)]
pub extern "C" fn jt_reset_global_time(state: &mut [u64]) -> u32
    ensures answers { result ≡ number_of (call_in Calls.reset_global_time state.old) }
    ensures leaves { state.new ≡ left state.old (call_in Calls.reset_global_time state.old) }
{
    host::jt_reset_global_time(state)
}

// `get_status`: 0, 20 or 4, and the report after it.
#[unsafe(no_mangle)]
pub extern "C" fn jt_get_status(state: &[u64], id: u16, report: &mut [u64; 2]) -> u32
    ensures answers { result ≡ number_of (call_in (Calls.get_status id) state.now) }
    ensures tells { report.new ≡ status_after report.old (call_in (Calls.get_status id) state.now) }
{
    host::jt_get_status(state, id, report)
}

// `get_messages`: 0, 20 or 13; rows and count after it.
#[unsafe(no_mangle)]
pub extern "C" fn jt_get_messages(state: &[u64], rows: &mut [u64], count: &mut u64) -> u32
    ensures answers { result ≡ number_of (call_in (Calls.get_messages (room_in rows.old)) state.now) }
    ensures lays { rows.new ≡ listed rows.old (call_in (Calls.get_messages (room_in rows.old)) state.now) }
    ensures tells { count.new ≡ count_after count.old (call_in (Calls.get_messages (room_in rows.old)) state.now) }
{
    host::jt_get_messages(state, rows, count)
}

// `get_global_time`: 0 or 20, and the time after it.
#[unsafe(no_mangle)]
pub extern "C" fn jt_get_global_time(state: &[u64], time: &mut f64) -> u32
    ensures answers { result ≡ number_of (call_in Calls.get_global_time state.now) }
    ensures tells { time.new ≡ time_after time.old (call_in Calls.get_global_time state.now) }
{
    host::jt_get_global_time(state, time)
}

// How long a state buffer must be for any state of a table of these lengths; 0 where the table is too large.
#[unsafe(no_mangle)]
pub extern "C" fn jt_state_words(
    models_len: usize,
    connectors_len: usize,
    couplings_len: usize,
) -> usize
    ensures { result ≡ words_for models_len connectors_len couplings_len }
{
    host::jt_state_words(models_len, connectors_len, couplings_len)
}

// How many bytes the blocks have of so many words of rows; 0 where there is no whole row, or there are more than 2^32.
#[unsafe(no_mangle)]
pub extern "C" fn jt_trace_bytes(rows_len: usize) -> usize
    ensures { result ≡ trace_bytes six rows_len }
{
    host::jt_trace_bytes(rows_len)
}

// A trace's blocks, numbered from `start` on: 0 or 13; the file and its bytes after it.
#[unsafe(no_mangle)]
pub extern "C" fn jt_write_trace(
    rows: &[u64],
    start: u64,
    file: &mut [u8],
    written: &mut u64,
) -> u32
    ensures answers { result ≡ number_of (write_trace six rows.now start (length file.old)) }
    ensures leaves { file.new ≡ file_after file.old (write_trace six rows.now start (length file.old)) }
    ensures tells { written.new ≡ written_after written.old (write_trace six rows.now start (length file.old)) }
{
    host::jt_write_trace(rows, start, file, written)
}

// The rows of a trace from block `start` on: 0, 14 or 13; rows and report after it.
#[unsafe(no_mangle)]
pub extern "C" fn jt_read_trace(
    file: &[u8],
    start: u64,
    rows: &mut [u64],
    report: &mut [u64; 3],
) -> u32
    ensures answers { result ≡ reading_number (read_trace six file.now start (length rows.old / 6)) }
    ensures lays { rows.new ≡ rows_after rows.old (read_trace six file.now start (length rows.old / 6)) }
    ensures tells { report.new ≡ read_said (read_trace six file.now start (length rows.old / 6)) report.old }
{
    host::jt_read_trace(file, start, rows, report)
}
