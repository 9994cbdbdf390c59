// Reads a bench file into words: rows of the tables, service times and actions; or says which line is wrong, at which column, and what was
// expected there.
// The format: docs/BENCH-FILE.md. The rows of the tables: docs/LAYOUT.md.
#![tactic(auto)]

ghost use Rattle.std.specs.Prelude.{◌≡◌, true, ◌&&◌, ◌/◌, ◌≤◌, ◌<◌, length, ltb, eqb};
ghost use Rattle.bench_file.specs.Filing.{page_of, put_row, count_of, placed, pages_at, filing, file_in, file_said, next_line, no_rows, ending, mark_span, read_file, is_on, left_after, line_of};

pub use bench_lines::{Expected, Value, Wanted, Word, wanted_text, word_text};
use bench_lines::{Item, Line};
pub use bench_words::text_length;

// How many rows of each kind there are, and whether `rows` stands in the file.
#[derive(Clone, Copy)]
pub struct Counts {
    pub models: usize,
    pub connectors: usize,
    pub couplings: usize,
    pub services: usize,
    pub actions: usize,
    pub rows: bool,
}

// Which line of a file is wrong, and what was expected there. Lines count from 1, and so do the bytes of a line.
#[derive(Clone, Copy)]
pub struct Misread {
    pub line: u64,
    pub column: usize,
    pub expected: Expected,
}

// Where an item's row goes; `rows` is a flag, and no row.
#[derive(Clone, Copy, PartialEq, Eq)]
pub enum Page {
    Models,
    Connectors,
    Couplings,
    Services,
    Actions,
    Flag,
}

fn page_of(item: Item) -> Page
    ensures { result ≡ page_of item }
{
    match item {
        Item::Processor | Item::Batcher | Item::Stopwatch | Item::Coupled => Page::Models,
        Item::Connector => Page::Connectors,
        Item::Input | Item::Output | Item::Internal => Page::Couplings,
        Item::Service => Page::Services,
        Item::InjectInput | Item::StepN | Item::StepUntil | Item::StepUntilIdle => Page::Actions,
        Item::Rows => Page::Flag,
    }
}

// Puts a row of `width` words after `row` others, if there is room for it.
fn put_row(words: &mut [u64], width: usize, row: usize, cells: [u64; 10]) -> bool
    requires { (0 < width) × (width ≤ 10) }
    ensures room { result ≡ ltb row (length words.old / width) }
    ensures put { words.new ≡ put_row width row cells words.old }
{
    if words.len() / width <= row {
        return false;
    }
    let start = row * width;
    words[start..start + width].copy_from_slice(&cells[..width]);
    true
}

// Counts a row that had room; one that had none was not expected.
fn counted(counts: Counts, page: Page, room: bool) -> Result<Counts, Expected>
    requires { room ≡ true → count_of page counts < 18446744073709551615 }
    ensures { result ≡ placed room page counts }
{
    if !room {
        return Err(bench_lines::only(Wanted::NoMore));
    }
    let mut more = counts;
    match page {
        Page::Models => more.models += 1,
        Page::Connectors => more.connectors += 1,
        Page::Couplings => more.couplings += 1,
        Page::Services => more.services += 1,
        Page::Actions => more.actions += 1,
        Page::Flag => more.rows = true,
    }
    Ok(more)
}

// Puts a row on its page, and counts it.
fn put_item(
    models: &mut [u64],
    connectors: &mut [u64],
    couplings: &mut [u64],
    services: &mut [u64],
    actions: &mut [u64],
    counts: Counts,
    page: Page,
    cells: [u64; 10],
) -> Result<Counts, Expected>
    ensures { filing counts result (pages_at models.new connectors.new couplings.new services.new actions.new) ≡ file_in page cells counts (pages_at models.old connectors.old couplings.old services.old actions.old) }
{
    // kept: five slices and no struct of them, since its contract would have to say too that each field stays the reference that it was
    let room = match page {
        Page::Models => put_row(models, 10, counts.models, cells),
        Page::Connectors => put_row(connectors, 4, counts.connectors, cells),
        Page::Couplings => put_row(couplings, 6, counts.couplings, cells),
        Page::Services => put_row(services, 1, counts.services, cells),
        Page::Actions => put_row(actions, 7, counts.actions, cells),
        Page::Flag => true,
    };
    counted(counts, page, room)
}

// Files what a line says.
fn put_line(
    models: &mut [u64],
    connectors: &mut [u64],
    couplings: &mut [u64],
    services: &mut [u64],
    actions: &mut [u64],
    counts: Counts,
    line: Line,
) -> Result<Counts, Expected>
    ensures { filing counts result (pages_at models.new connectors.new couplings.new services.new actions.new) ≡ file_said line.said line.cells counts (pages_at models.old connectors.old couplings.old services.old actions.old) }
{
    let cells = line.cells;
    match line.said? {
        None => Ok(counts),
        Some(item) => put_item(
            models,
            connectors,
            couplings,
            services,
            actions,
            counts,
            page_of(item),
            cells,
        ),
    }
}

// Where the line after one that ends at `end` starts.
fn next_line(text: &[u8], end: usize) -> usize
    ensures { result ≡ next_line (length text.now) end }
{
    if end < text.len() { end + 1 } else { end }
}

fn no_counts() -> Counts
    ensures { result ≡ no_rows }
{
    Counts {
        models: 0,
        connectors: 0,
        couplings: 0,
        services: 0,
        actions: 0,
        rows: false,
    }
}

// How many bytes the byte order mark takes that may stand at a file's start.
pub fn mark_length(text: &[u8]) -> usize
    ensures { result ≡ mark_span text.now }
{
    if text.starts_with(b"\xEF\xBB\xBF") {
        3
    } else {
        0
    }
}

// Reads a bench file: how many rows of each kind, or the wrong line, its column and what was expected there. Each slice is lent for the
// rows of one kind: models of 10 words, connectors of 4, couplings of 6, service times of 1, actions of 7. Rows go from its start on, and
// what is beyond them stays as it was. Where a line is wrong, the rows of the lines before it are written.
pub fn read(
    text: &[u8],
    models: &mut [u64],
    connectors: &mut [u64],
    couplings: &mut [u64],
    services: &mut [u64],
    actions: &mut [u64],
) -> Result<Counts, Misread>
    ensures { ending result (pages_at models.new connectors.new couplings.new services.new actions.new) ≡ read_file text.now (pages_at models.old connectors.old couplings.old services.old actions.old) }
{
    let mut counts = no_counts();
    let mut lines: u64 = 0;
    let mut at = mark_length(text);
    // kept: `split` at newlines gives an empty line behind the last one, which `lines_of` does not have
    while at < text.len() {
        let end = bench_words::line_end(text, at);
        let line = bench_lines::read_line(&text[at..end]);
        let column = line.column;
        lines += 1;
        match put_line(
            models, connectors, couplings, services, actions, counts, line,
        ) {
            Ok(more) => counts = more,
            // kept: `map_err(..)?` with a closure over the line and its column did not prove
            Err(expected) => {
                return Err(Misread {
                    line: lines,
                    column,
                    expected,
                });
            }
        }
        at = next_line(text, end);
    }
    Ok(counts)
}

// Whether a line's row goes to the page.
fn is_on(page: Page, said: Result<Option<Item>, Expected>) -> bool
    ensures { result ≡ is_on page said }
{
    match said {
        Ok(Some(item)) => page == page_of(item),
        _ => false,
    }
}

// Whether a row is the one that is looked for, with so many before it.
fn is_it(on: bool, left: usize) -> bool
    ensures { result ≡ on && eqb left 0 }
{
    on && left == 0
}

// How many rows are before it still.
fn left_after(on: bool, left: usize) -> usize
    ensures { result ≡ left_after on left }
{
    if on { left.saturating_sub(1) } else { left }
}

// The number of the line that a row of a page was read from, rows counted from 0 and lines from 1; 0 where there is no such row.
pub fn line_of(text: &[u8], page: Page, row: usize) -> u64
    ensures { result ≡ line_of page row text.now }
{
    let mut left = row;
    let mut number: u64 = 0;
    let mut at = mark_length(text);
    // kept: `split` at newlines gives an empty line behind the last one, which `lines_of` does not have
    while at < text.len() {
        let end = bench_words::line_end(text, at);
        let line = bench_lines::read_line(&text[at..end]);
        number += 1;
        let on = is_on(page, line.said);
        if is_it(on, left) {
            return number;
        }
        left = left_after(on, left);
        at = next_line(text, end);
    }
    // kept: the theorem `row-stands` says of this number that the row stands there, and who asks has such a row: with an Option each would write `unwrap_or(0)`.
    0
}
