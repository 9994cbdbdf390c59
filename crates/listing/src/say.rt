// What standard error says: what is wrong with the file, why something was refused, and what is left out.
use crate::course::{Bench, Course};
use crate::out::{Decimal, Refused};
use crate::steps;
use bench_file::{Expected, Page, Value, Wanted, Word};
use std::fmt::Display;
use std::io;
use std::io::Stderr;

// How many bytes of a word are shown.
const SHOWN: usize = 40;

pub(crate) fn print(err: Stderr, text: impl Display + Drop) {
    let _ = err.print(text);
}

// Bytes that need not be text.
pub(crate) fn bytes(err: Stderr, bytes: &[u8]) {
    let _ = err.write_all(bytes);
}

// `WHAT: ` and the system's words for an error.
pub(crate) fn fail(rt: HostRuntime, what: &[u8], error: io::Error) {
    let err = rt.stderr();
    bytes(err, what);
    match format!(in rt.alloc(); "{error}") {
        Ok(words) => {
            let words = unnumbered(words.as_str());
            print(err, format_args!(": {words}\n"));
        }
        Err(_) => print(err, format_args!(": {error}\n")),
    }
}

// The words for an error without its number, which the library puts behind them.
fn unnumbered(words: &str) -> &str {
    match words.split_once(" (os error ") {
        Some((before, _)) => before,
        None => words,
    }
}

pub(crate) fn too_long(err: Stderr, path: &[u8]) {
    bytes(err, path);
    print(err, ": the file is longer than 4194303 bytes\n");
}

// `FILE:LINE: ` of a row of the bench file.
pub(crate) fn place(err: Stderr, bench: Bench, page: Page, row: usize) {
    let line = bench_file::line_of(bench.text, page, row);
    bytes(err, bench.path);
    print(err, format_args!(":{line}: "));
}

// A text without the dots that fill it up.
fn padded(err: Stderr, filled: [u8; 32]) {
    let length = bench_file::text_length(filled);
    if let Some(text) = filled.get(..length) {
        bytes(err, text);
    }
}

// The optional word that may stand there too.
fn or_word(err: Stderr, word: Word) {
    if let Word::Nothing = word {
        return;
    }
    padded(err, bench_file::word_text(word));
    print(err, " or ");
}

// What may stand there, where its name does not say it.
fn explained(wanted: Wanted) -> &'static str {
    match wanted {
        Wanted::AnItem => {
            " (an item is processor, batcher, stopwatch, coupled, connector, input, output, internal, service, inject_input, step_n, step_until, step_until_idle or rows)"
        }
        Wanted::NoMore => {
            " (at most 128 models, 512 connectors, 512 couplings, 65536 service times, 16384 actions)"
        }
        Wanted::AValue(Value::ATime) => {
            " (a time is a whole number up to 9007199254740992, digits with a point among them, 15 at most, or 0x and 16 hex digits)"
        }
        Wanted::AValue(_) | Wanted::TheWord(_) => "",
    }
}

// A byte of a word: what cannot be printed is shown as \xNN.
fn byte(err: Stderr, byte: u8) {
    match byte {
        b'\\' => print(err, format_args!("\\x{byte:02x}")),
        b' '..=b'~' => bytes(err, &[byte]),
        _ => print(err, format_args!("\\x{byte:02x}")),
    }
}

// A word, cut where it is long.
fn quoted(err: Stderr, word: &[u8]) {
    print(err, "'");
    for b in word.iter().take(SHOWN) {
        byte(err, *b);
    }
    print(err, if SHOWN < word.len() { "'.." } else { "'" });
}

// A line of a file, lines counted from 1; empty where the file has fewer.
fn line_in(file: &[u8], line: u64) -> &[u8] {
    file.get(bench_file::mark_length(file)..)
        .unwrap_or(&[])
        .split(|byte| *byte == b'\n')
        .nth(line.saturating_sub(1) as usize)
        .unwrap_or(&[])
}

// The word that stands at a place of a line, or the line's end.
fn found(err: Stderr, line: &[u8], at: usize) {
    let span = bench_words::next_word(line, at);
    match line.get(span.start..span.end) {
        None | Some([]) => print(err, "the end of the line"),
        Some(word) => quoted(err, word),
    }
}

// A line that is not what the format asks for. Nothing is run.
pub(crate) fn wrong_line(
    err: Stderr,
    path: &[u8],
    file: &[u8],
    line: u64,
    column: usize,
    expected: Expected,
) {
    let Expected { or, what } = expected;
    let why = explained(what);
    bytes(err, path);
    print(err, format_args!(":{line}:{column}: expected "));
    or_word(err, or);
    padded(err, bench_file::wanted_text(what));
    print(err, ", found ");
    if let Some(at) = column.checked_sub(1) {
        found(err, line_in(file, line), at);
    }
    print(err, format_args!("{why}\n"));
}

// How many processor lines omit `queue_capacity`, and what it is in them. Where none does, nothing is said.
pub(crate) fn omitted(err: Stderr, lines: usize) {
    let each = rules::OMITTED_CAPACITY;
    if lines != 0 {
        print(
            err,
            format_args!("note: processor lines without queue_capacity: {lines} ({each} each)\n"),
        );
    }
}

// An action that was refused, and where the run stood. An injection is made before the step.
pub(crate) fn refused(err: Stderr, refused: Refused, course: &Course, injection: bool) {
    let place = if injection { "before" } else { "in" };
    let number = course.number;
    let clock = steps::clock(course.state);
    let bits = times::bits_of(clock);
    let decimal = Decimal(clock);
    print(
        err,
        format_args!("{refused} {place} step {number}, clock {bits:016x} ({decimal})\n"),
    );
}
