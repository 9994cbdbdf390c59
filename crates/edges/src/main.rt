// Runs the edge cases of `atoms`, `marks`, `words` and `table`: `stdin` has a line for each, whose first lines say how they are written. What comes out is printed behind the case's name; the answers of document 01 and of docs/LAYOUT.md stand in `stdout`.
#![tactic(auto)]

mod batchers;
mod processors;
mod queue;
mod readers;
mod say;
mod services;
mod sheet;
mod tables;
mod values;
mod watch;

use number_lines::Line;
use sheet::Sheet;
use std::io;
use std::io::Read;
use watch::Use;

// What happens to an atom: as the engine calls it, or by the rule's words.
#[derive(Clone, Copy)]
pub(crate) enum Event {
    External,
    Internal,
    ExternalRule,
    InternalRule,
}

// A case, by the number of what is called.
fn call(rt: &impl Print, what: u64, asked: &[u64], sheet: &mut Sheet) -> io::Result<()> {
    match what {
        1 => services::run(rt, asked),
        2 => processors::run(rt, Event::External, asked),
        3 => processors::run(rt, Event::Internal, asked),
        4 => processors::run(rt, Event::ExternalRule, asked),
        5 => processors::run(rt, Event::InternalRule, asked),
        6 => batchers::run(rt, Event::External, asked),
        7 => batchers::run(rt, Event::Internal, asked),
        8 => batchers::run(rt, Event::ExternalRule, asked),
        9 => batchers::run(rt, Event::InternalRule, asked),
        10 => watch::run(rt, Use::Event(Event::External), asked, sheet),
        11 => watch::run(rt, Use::Event(Event::Internal), asked, sheet),
        12 => watch::run(rt, Use::Event(Event::ExternalRule), asked, sheet),
        13 => watch::run(rt, Use::Event(Event::InternalRule), asked, sheet),
        14 => watch::changes(rt, asked, sheet),
        15 => watch::run(rt, Use::CountSet, asked, sheet),
        16 => watch::run(rt, Use::Mean, asked, sheet),
        17 => watch::run(rt, Use::ReadJob, asked, sheet),
        18 => watch::run(rt, Use::ReadWord, asked, sheet),
        19 => queue::push(rt, asked),
        20 => queue::move_up(rt, asked),
        21 => queue::next_row(rt, asked),
        22 => queue::word(rt, asked),
        23 => tables::intake(rt, sheet, asked),
        24 => readers::of_sheet(rt, sheet, asked),
        _ => readers::of_line(rt, asked),
    }
}

// A case's name, which stands behind `# ` in its line.
fn heading(rt: &impl Print, rest: &[u8]) -> io::Result<()> {
    match rest.get(2..) {
        Some(name) => rt.write_all(name),
        None => Ok(()),
    }
}

// A line: words that are laid down, or a case and its name.
fn one(rt: &impl Print, line: &[u8], sheet: &mut Sheet) -> io::Result<()> {
    let mut room = [0u64; 512];
    let Line { numbers, rest } = number_lines::read(line, &mut room);
    match numbers {
        [] => Ok(()),
        [0, ..] => {
            sheet::lay(sheet, numbers);
            Ok(())
        }
        [26, ..] => {
            sheet::fill(sheet, numbers);
            Ok(())
        }
        [what, ..] => {
            heading(rt, rest)?;
            call(rt, *what, numbers, sheet)?;
            rt.print("\n")
        }
    }
}

// The lines that end with a newline.
fn all(rt: &impl Print, text: &[u8]) -> io::Result<()> {
    let mut sheet = [0u64; 4096];
    for line in text.split_inclusive(|byte| *byte == b'\n') {
        if let Some(line) = line.strip_suffix(b"\n") {
            one(rt, line, &mut sheet)?;
        }
    }
    Ok(())
}

// No more than these bytes are read.
const MOST: u64 = 65536;

fn main(rt: HostRuntime) -> io::Result<()> {
    let mut text = Vec::new(rt.alloc());
    rt.reader().take(MOST).read_to_end(&mut text)?;
    all(&rt, text.as_slice())
}
