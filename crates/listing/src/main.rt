// Reads a bench file, from the file that its first argument names or from standard input, runs what it says and prints the listing. The
// format: docs/BENCH-FILE.md. The second argument has the letter d for clocks in decimal, q for no warnings, t for a trace of the rows in
// the file that the third argument names. With the letter r it is a trace that is read, and its rows are printed, from the block on whose
// number is the third argument.
#![tactic(auto)]

mod course;
mod input;
mod out;
mod room;
mod rows;
mod run;
mod say;
mod steps;
mod trace;
mod warn;
mod why;

use course::Status;

fn main(rt: HostRuntime) {
    let mut room: room::Page = room::filled(0);
    course::tell(rt, asked(rt, input::name(rt, &mut room)));
}

// How it ended.
fn asked(rt: HostRuntime, path: &[u8]) -> Status {
    if input::has(rt, b'r') {
        return rows::print(rt, path);
    }
    file(rt, path)
}

fn file(rt: HostRuntime, path: &[u8]) -> Status {
    let mut room: room::Text = room::filled(0);
    match input::read(rt, path, &mut room) {
        Some(text) => run::file(rt, path, text),
        None => Status::Wrong,
    }
}
