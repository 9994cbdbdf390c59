// The calls, each on lent words, through the functions that C calls. `asked` is a line of the list: which call it is, in the order of include/jambthrush.h (1 is post, 12 get_global_time), and its arguments. A call lays its answer into the words lent for it, its numbers and then its rows, and says how many words that are; none where there is no such call.
ghost use Rattle.std.specs.Prelude.{◌≤◌, length, IfSome};

use crate::sheets;

// What stands for the number of a call that there is not.
const NO_CALL: u32 = 99;

// The time that has these bits.
pub(crate) fn time_of(bits: u64) -> f64 {
    match times::time_of_bits(bits) {
        Some(time) => time,
        None => times::never(),
    }
}

// An id or a port.
fn short(word: u64) -> u16 {
    u16::try_from(word).unwrap_or(0)
}

// A content or an allowance.
fn small(word: u64) -> u32 {
    u32::try_from(word).unwrap_or(0)
}

// How many words so many rows have; none, if they are more than any table or answer has.
fn words_of(rows: u64, width: usize) -> usize {
    if 1000 < rows {
        return 0;
    }
    (rows as usize).saturating_mul(width)
}

// A table as a state begins with it: three counts, and the rows.
#[derive(Clone, Copy)]
struct Table<'a> {
    models: &'a [u64],
    connectors: &'a [u64],
    couplings: &'a [u64],
}

fn table_of(asked: &[u64]) -> Option<Table<'_>> {
    let rest = asked.get(4..)?;
    let (models, rest) = rest.split_at_checked(words_of(words::word_at(asked, 1), 10))?;
    let (connectors, rest) = rest.split_at_checked(words_of(words::word_at(asked, 2), 4))?;
    let couplings = rest.get(..words_of(words::word_at(asked, 3), 6))?;
    Some(Table {
        models,
        connectors,
        couplings,
    })
}

// Each of C's functions by itself: what it promises need not be carried on.

fn post(asked: &[u64], state: &mut [u64]) -> u32 {
    match table_of(asked) {
        Some(table) => host::jt_post(table.models, table.connectors, table.couplings, state),
        None => NO_CALL,
    }
}

fn put(asked: &[u64], state: &mut [u64]) -> u32 {
    match table_of(asked) {
        Some(table) => host::jt_put(state, table.models, table.connectors, table.couplings),
        None => NO_CALL,
    }
}

fn inject_input(asked: &[u64], state: &mut [u64]) -> u32 {
    host::jt_inject_input(
        state,
        short(words::word_at(asked, 1)),
        short(words::word_at(asked, 2)),
        short(words::word_at(asked, 3)),
        short(words::word_at(asked, 4)),
        time_of(words::word_at(asked, 5)),
        small(words::word_at(asked, 6)),
    )
}

fn reset(state: &mut [u64]) -> u32 {
    host::jt_reset(state)
}

fn reset_messages(state: &mut [u64]) -> u32 {
    host::jt_reset_messages(state)
}

fn reset_global_time(state: &mut [u64]) -> u32 {
    host::jt_reset_global_time(state)
}

// A run, on words that are lent for its rows and its report.
fn step(state: &mut [u64], services: &[f64], rows: &mut [u64], report: &mut [u64; 3]) -> u32 {
    host::jt_step(state, services, rows, report)
}

fn step_n(
    state: &mut [u64],
    services: &[f64],
    asked: &[u64],
    rows: &mut [u64],
    report: &mut [u64; 3],
) -> u32 {
    host::jt_step_n(state, services, words::word_at(asked, 2), rows, report)
}

fn step_until(
    state: &mut [u64],
    services: &[f64],
    asked: &[u64],
    rows: &mut [u64],
    report: &mut [u64; 3],
) -> u32 {
    let until = time_of(words::word_at(asked, 2));
    let allowance = small(words::word_at(asked, 3));
    host::jt_step_until(state, services, until, allowance, rows, report)
}

fn status(state: &[u64], id: u16, report: &mut [u64; 2]) -> u32 {
    host::jt_get_status(state, id, report)
}

fn messages(state: &[u64], rows: &mut [u64], count: &mut u64) -> u32 {
    host::jt_get_messages(state, rows, count)
}

// Where the words end that are lent for rows, behind the first `from` of an answer; None where it has no room for them.
fn room_end(answer: &[u64], from: usize, room: u64) -> Option<usize>
    ensures { IfSome result (λ end. (from ≤ end) × (end ≤ length answer.now)) }
{
    let end = from.checked_add(room as usize)?;
    if answer.len() < end {
        return None;
    }
    Some(end)
}

// The first numbers of an answer.
fn head(answer: &mut [u64], numbers: &[u64]) -> usize {
    sheets::lay(answer, numbers);
    numbers.len()
}

// A run: its number, steps, rows, how it ended; the rows.
fn run<F: FnOnce(&mut [u64], &mut [u64; 3]) -> u32>(
    asked: &[u64],
    answer: &mut [u64],
    steps: F,
) -> usize
    requires { F.IsAlwaysCallable steps }
{
    let Some(end) = room_end(answer, 4, words::word_at(asked, 1)) else {
        return 0;
    };
    let mut report = [0u64; 3];
    let number = steps(&mut answer[4..end], &mut report);
    let [steps, rows, ended] = report;
    head(answer, &[number as u64, steps, rows, ended]).saturating_add(words_of(rows, 6))
}

// The active messages: the number, how many they are; the rows.
fn get_messages(asked: &[u64], state: &[u64], answer: &mut [u64]) -> usize {
    let Some(end) = room_end(answer, 2, words::word_at(asked, 1)) else {
        return 0;
    };
    let mut count = 0u64;
    let number = messages(state, &mut answer[2..end], &mut count);
    head(answer, &[number as u64, count]).saturating_add(words_of(count, 6))
}

fn get_global_time(state: &[u64], answer: &mut [u64]) -> usize {
    let mut time = 0.0;
    let number = host::jt_get_global_time(state, &mut time);
    head(answer, &[number as u64, times::bits_of(time)])
}

// The bits of f64s, as numbers in the same order.
fn in_order(bits: u64) -> u64 {
    if bits < 0x8000_0000_0000_0000 {
        return bits + 0x8000_0000_0000_0000;
    }
    0xFFFF_FFFF_FFFF_FFFF - bits
}

// The oracle tells a mean with three digits, so it stands in the list as the two ends that it lies between: each end, where it does.
fn mean_end(mean: u64, said: &[u64], end: usize) -> u64 {
    if in_order(mean) < in_order(words::word_at(said, 2)) {
        return mean;
    }
    if in_order(words::word_at(said, 3)) < in_order(mean) {
        return mean;
    }
    words::word_at(said, end)
}

// The number, and where it is 0 what the status is, and its value.
fn get_status(asked: &[u64], said: &[u64], state: &[u64], answer: &mut [u64]) -> usize {
    let mut report = [0u64; 2];
    let number = status(state, short(words::word_at(asked, 1)), &mut report);
    let [what, value] = report;
    if number != 0 {
        return head(answer, &[number as u64]);
    }
    if what != 2 {
        return head(answer, &[0, what, value]);
    }
    let least = mean_end(value, said, 2);
    let most = mean_end(value, said, 3);
    head(answer, &[0, what, least, most])
}

// A call that answers its number alone.
fn alone(answer: &mut [u64], number: u32) -> usize {
    head(answer, &[number as u64])
}

// Makes a call; `said` is what the oracle answered.
pub(crate) fn make(
    asked: &[u64],
    said: &[u64],
    state: &mut [u64],
    services: &[f64],
    answer: &mut [u64],
) -> usize {
    match words::word_at(asked, 0) {
        1 => alone(answer, post(asked, state)),
        2 => alone(answer, put(asked, state)),
        3 => alone(answer, inject_input(asked, state)),
        4 => run(asked, answer, |rows, report| {
            step(state, services, rows, report)
        }),
        5 => run(asked, answer, |rows, report| {
            step_n(state, services, asked, rows, report)
        }),
        6 => run(asked, answer, |rows, report| {
            step_until(state, services, asked, rows, report)
        }),
        7 => alone(answer, reset(state)),
        8 => alone(answer, reset_messages(state)),
        9 => alone(answer, reset_global_time(state)),
        10 => get_status(asked, said, state, answer),
        11 => get_messages(asked, state, answer),
        12 => get_global_time(state, answer),
        _ => alone(answer, NO_CALL),
    }
}
