// What standard error warns of. The listing and the status do not change by it.
use crate::course::Bench;
use crate::run::Action;
use crate::{run, say};
use bench_file::Page;
use hints::{BadEnd, Side};
use std::io::Stderr;
use table::Kind;

// How many warnings on the table and the injections are said.
const MOST: usize = 20;

// The warnings on the ends of rows, and how many there are so far.
#[derive(Drop)]
struct EndWarnings<'a> {
    err: Stderr,
    bench: Bench<'a>,
    count: usize,
}

fn begin(err: Stderr, bench: Bench, page: Page, row: usize) {
    say::place(err, bench, page, row);
    say::print(err, "warning: ");
}

impl EndWarnings<'_> {
    // The warning on an end of a row.
    fn end(&mut self, page: Page, row: usize, id: u64, port: u64, known: Result<(), BadEnd>) {
        let Err(bad) = known else {
            return;
        };
        if self.count < MOST {
            begin(self.err, self.bench, page, row);
            unknown(self.err, id, port, bad);
        }
        self.count = self.count.saturating_add(1);
    }

    // An end in the root.
    fn root(&mut self, page: Page, row: usize, id: u64, port: u64, side: Side) {
        let bench = self.bench;
        let known = hints::root_end(bench.models, bench.couplings, id, port, side);
        self.end(page, row, id, port, known);
    }

    // An end at a component of an owner.
    fn component(&mut self, row: usize, owner: u64, id: u64, port: u64, side: Side) {
        let bench = self.bench;
        let known = hints::component_end(bench.models, bench.couplings, owner, id, port, side);
        self.end(Page::Couplings, row, id, port, known);
    }

    fn connectors(&mut self) {
        let (rows, _) = self.bench.connectors.as_chunks::<4>();
        for (row, cells) in rows.iter().enumerate() {
            let [source, from, target, to] = *cells;
            self.root(Page::Connectors, row, source, from, Side::Out);
            self.root(Page::Connectors, row, target, to, Side::In);
        }
    }

    // The ends of a coupling that are components: an external input's target, an external output's source, both of an internal one.
    fn couplings(&mut self) {
        let (rows, _) = self.bench.couplings.as_chunks::<6>();
        for (row, cells) in rows.iter().enumerate() {
            let [owner, kind, source, from, target, to] = *cells;
            if kind != 1 {
                self.component(row, owner, source, from, Side::Out);
            }
            if kind != 2 {
                self.component(row, owner, target, to, Side::In);
            }
        }
    }

    // An injection's target: its source need not be a model.
    fn injections(&mut self) {
        let (rows, _) = self.bench.actions.as_chunks::<7>();
        for (row, cells) in rows.iter().enumerate() {
            if let Action::Inject = run::action_of(cells) {
                let [_, _, _, target, to, _, _] = *cells;
                self.root(Page::Actions, row, target, to, Side::In);
            }
        }
    }
}

fn unknown(err: Stderr, id: u64, port: u64, bad: BadEnd) {
    match bad {
        BadEnd::NoModel => say::print(
            err,
            format_args!("there is no model {id} to be found there\n"),
        ),
        BadEnd::NoPort => say::print(
            err,
            format_args!("model {id} has no port {port} for this\n"),
        ),
    }
}

// Connectors, couplings and injections that name nobody, or a port that there is not.
pub(crate) fn ends(err: Stderr, bench: Bench) {
    let mut ends = EndWarnings {
        err,
        bench,
        count: 0,
    };
    ends.connectors();
    ends.couplings();
    ends.injections();
    if MOST < ends.count {
        let more = ends.count - MOST;
        say::bytes(err, bench.path);
        say::print(err, format_args!(": warning: {more} more of these\n"));
    }
}

// Service times that no processor has read. The changing part of the state has their number at its word 2.
pub(crate) fn services(err: Stderr, bench: Bench, changing: &[u64]) {
    let given = bench.services.len();
    let read = words::word_at(changing, 2) as usize;
    if read < given {
        let left = given - read;
        begin(err, bench, Page::Services, read);
        say::print(
            err,
            format_args!("{left} service times are left over, from this one on\n"),
        );
    }
}

fn is_mark(words: &[u64], place: usize) -> bool {
    words::word_at(words, place) != times::bits_of(times::never())
}

// How many of a stopwatch's jobs lack a start or a stop. The marks of a job stand 64 and 128 words behind its name.
fn incomplete(names: &[u64], held: u64) -> usize {
    (0..held.min(64) as usize)
        .filter(|at| !(is_mark(names, 64 + *at) && is_mark(names, 128 + *at)))
        .count()
}

// What a model still has where nothing is left to do.
fn still(err: Stderr, bench: Bench, action: usize, id: u64, count: usize, what: &str) {
    if count != 0 {
        begin(err, bench, Page::Actions, action);
        say::print(err, format_args!("model {id} still has {count} {what}\n"));
    }
}

// The head of a row: word 2 is how many it holds, word 3 where its own words begin.
fn held_by(err: Stderr, bench: Bench, action: usize, row: usize, head: [u64; 4], changing: &[u64]) {
    let id = table::id_at(bench.models, row);
    let [_, _, held, from] = head;
    let (count, what) = match table::kind_at(bench.models, row) {
        Some(Kind::Processor(_) | Kind::Batcher(_)) => (held as usize, "jobs"),
        Some(Kind::Coupled) => (held as usize, "parked messages"),
        Some(Kind::Stopwatch(_)) => {
            let names = changing.get(from as usize..).unwrap_or(&[]);
            (incomplete(names, held), "jobs without a start or a stop")
        }
        None => return,
    };
    still(err, bench, action, id, count, what);
}

// What models still hold where a `step_until_idle` ended idle. The heads, of 4 words, stand from word 3 of the changing part on.
pub(crate) fn held(err: Stderr, bench: Bench, action: usize, changing: &[u64]) {
    let (heads, _) = changing.get(3..).unwrap_or(&[]).as_chunks::<4>();
    for (row, head) in heads.iter().enumerate().take(bench.models.len() / 10) {
        held_by(err, bench, action, row, *head, changing);
    }
}
