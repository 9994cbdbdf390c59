// One line of a bench file: its item and the cells of its row, or what was expected and where. The format: docs/BENCH-FILE.md.
#![tactic(auto)]

ghost use Rattle.std.specs.Prelude.{◌≡◌, ◌<◌, ◌≤◌, length};
ghost use Rattle.bench_lines.specs.Names.{item_text, word_text, value_text, wanted_text};
ghost use Rattle.bench_lines.specs.Forms.{start_of, form_of, word_coded, value_coded, fields_in, field_coded, item_named, items};
ghost use Rattle.bench_lines.specs.Reading.{has_word, is_end, metric_of, value_of, kept, wants, stops_at, column_at, course_of, place_of, read_value, left_out, read_field, read_fields, wrong_at, line_of, read_line};
ghost use Rattle.bench_lines.specs.Reading.{only as Reading·only};
ghost use Rattle.bench_lines.specs.declared.Word.TheVariants as Words;

use bench_words::Span;

// What a line can say.
#[derive(Clone, Copy)]
pub enum Item {
    Processor,
    Batcher,
    Stopwatch,
    Coupled,
    Connector,
    Input,
    Output,
    Internal,
    Service,
    InjectInput,
    StepN,
    StepUntil,
    StepUntilIdle,
    Rows,
}

// The words that stand between values; a field may have none.
// kept: `word_text` takes `Nothing` too, and a `Word` without it, in an Option, would ask more of its callers.
#[derive(Clone, Copy)]
pub enum Word {
    Nothing,
    Parent,
    In,
    Out,
    QueueCapacity,
    MaxBatchSize,
    MaxBatchTime,
    Start,
    Stop,
    Ask,
    Metric,
    Colon,
    To,
    Time,
    Content,
    Allowance,
}

// What may stand for a field: nothing more (`wanted_text` has a text for it), a number below 2^16, 2^32 or 2^64, a time, a metric.
#[derive(Clone, Copy)]
pub enum Value {
    TheEnd,
    AnId,
    ASmall,
    AWhole,
    ATime,
    AMetric,
}

// What must stand where a line is wrong.
#[derive(Clone, Copy)]
pub enum Wanted {
    AnItem,
    TheWord(Word),
    AValue(Value),
    NoMore,
}

// What was expected: what must stand there, or the optional word that may stand before it (Nothing: none may).
#[derive(Clone, Copy)]
pub struct Expected {
    pub or: Word,
    pub what: Wanted,
}

// A field: its word, its flag in the row's word 2 if it may be left out (0: it may not), what its value is, and the cell for it.
#[derive(Clone, Copy)]
struct Field {
    word: Word,
    flag: u64,
    value: Value,
    cell: usize,
}

// What a line says: an item, nothing, or that it is wrong; and the column where that stands. Columns count bytes from 1.
#[derive(Clone, Copy)]
pub struct Line {
    pub said: Result<Option<Item>, Expected>,
    pub column: usize,
    pub cells: [u64; 10],
}

// How far a line is read, and the optional word that was left out just there.
#[derive(Clone, Copy)]
struct Progress {
    cells: [u64; 10],
    at: usize,
    or: Word,
}

// Where a line is wrong, and what was expected there.
#[derive(Clone, Copy)]
struct Mistake {
    at: usize,
    expected: Expected,
}

const ITEMS: [Item; 14] = [
    Item::Processor,
    Item::Batcher,
    Item::Stopwatch,
    Item::Coupled,
    Item::Connector,
    Item::Input,
    Item::Output,
    Item::Internal,
    Item::Service,
    Item::InjectInput,
    Item::StepN,
    Item::StepUntil,
    Item::StepUntilIdle,
    Item::Rows,
];

const WORDS: [Word; 16] = [
    Word::Nothing,
    Word::Parent,
    Word::In,
    Word::Out,
    Word::QueueCapacity,
    Word::MaxBatchSize,
    Word::MaxBatchTime,
    Word::Start,
    Word::Stop,
    Word::Ask,
    Word::Metric,
    Word::Colon,
    Word::To,
    Word::Time,
    Word::Content,
    Word::Allowance,
];

const VALUES: [Value; 6] = [
    Value::TheEnd,
    Value::AnId,
    Value::ASmall,
    Value::AWhole,
    Value::ATime,
    Value::AMetric,
];

// The fields of each item, four hex digits each: word and value by their places in WORDS and VALUES, flag, cell; in the order word,
// flag, value, cell. Zeros after them ask for the line's end.
fn form_of(item: Item) -> [u8; 32]
    ensures { result ≡ form_of item }
{
    // kept: the theorems `decoded` and `one-at-a-time` speak of forms in these digits.
    match item {
        Item::Processor => *b"00101113201430174238000000000000",
        Item::Batcher => *b"00101113201430175038604900000000",
        Item::Stopwatch => *b"001011137014801590163017a4580000",
        Item::Coupled => *b"00101113000000000000000000000000",
        Item::Connector => *b"0010b011c012b0130000000000000000",
        Item::Input => *b"0010b013c014b0150000000000000000",
        Item::Output => *b"0012b013c010b0150000000000000000",
        Item::Internal => *b"00100012b013c014b015000000000000",
        Item::Service => *b"00400000000000000000000000000000",
        Item::InjectInput => *b"0011b012c013b014d045e02600000000",
        Item::StepN => *b"00310000000000000000000000000000",
        Item::StepUntil => *b"0041f022000000000000000000000000",
        Item::StepUntilIdle => *b"f0310000000000000000000000000000",
        Item::Rows => *b"00000000000000000000000000000000",
    }
}

// The cells of an item before its fields are read: its kind stands in one of them.
fn start_of(item: Item) -> [u64; 10]
    ensures { result ≡ start_of item }
{
    match item {
        Item::Processor => [0, 1, 0, 0, 0, 0, 0, 0, 0, 0],
        Item::Batcher => [0, 2, 0, 0, 0, 0, 0, 0, 0, 0],
        Item::Stopwatch => [0, 3, 0, 0, 0, 0, 0, 0, 0, 0],
        Item::Coupled => [0, 4, 0, 0, 0, 0, 0, 0, 0, 0],
        Item::Connector => [0, 0, 0, 0, 0, 0, 0, 0, 0, 0],
        Item::Input => [0, 1, 0, 0, 0, 0, 0, 0, 0, 0],
        Item::Output => [0, 2, 0, 0, 0, 0, 0, 0, 0, 0],
        Item::Internal => [0, 3, 0, 0, 0, 0, 0, 0, 0, 0],
        Item::Service => [0, 0, 0, 0, 0, 0, 0, 0, 0, 0],
        Item::InjectInput => [1, 0, 0, 0, 0, 0, 0, 0, 0, 0],
        Item::StepN => [2, 0, 0, 0, 0, 0, 0, 0, 0, 0],
        Item::StepUntil => [3, 0, 0, 0, 0, 0, 0, 0, 0, 0],
        Item::StepUntilIdle => [4, 0, 0, 0, 0, 0, 0, 0, 0, 0],
        Item::Rows => [0, 0, 0, 0, 0, 0, 0, 0, 0, 0],
    }
}

// Texts are 32 bytes long, filled up with dots.
fn item_text(item: Item) -> [u8; 32]
    ensures { result ≡ item_text item }
{
    // kept: `word_text` and `wanted_text` promise all 32 bytes, so that a slice of the text alone would promise less.
    match item {
        Item::Processor => *b"processor.......................",
        Item::Batcher => *b"batcher.........................",
        Item::Stopwatch => *b"stopwatch.......................",
        Item::Coupled => *b"coupled.........................",
        Item::Connector => *b"connector.......................",
        Item::Input => *b"input...........................",
        Item::Output => *b"output..........................",
        Item::Internal => *b"internal........................",
        Item::Service => *b"service.........................",
        Item::InjectInput => *b"inject_input....................",
        Item::StepN => *b"step_n..........................",
        Item::StepUntil => *b"step_until......................",
        Item::StepUntilIdle => *b"step_until_idle.................",
        Item::Rows => *b"rows............................",
    }
}

pub fn word_text(word: Word) -> [u8; 32]
    ensures { result ≡ word_text word }
{
    match word {
        Word::Nothing => *b"nothing.........................",
        Word::Parent => *b"parent..........................",
        Word::In => *b"in..............................",
        Word::Out => *b"out.............................",
        Word::QueueCapacity => *b"queue_capacity..................",
        Word::MaxBatchSize => *b"max_batch_size..................",
        Word::MaxBatchTime => *b"max_batch_time..................",
        Word::Start => *b"start...........................",
        Word::Stop => *b"stop............................",
        Word::Ask => *b"ask.............................",
        Word::Metric => *b"metric..........................",
        Word::Colon => *b":...............................",
        Word::To => *b"to..............................",
        Word::Time => *b"time............................",
        Word::Content => *b"content.........................",
        Word::Allowance => *b"allowance.......................",
    }
}

fn value_text(value: Value) -> [u8; 32]
    ensures { result ≡ value_text value }
{
    match value {
        Value::TheEnd => *b"the end of the line.............",
        Value::AnId => *b"a number below 65536............",
        Value::ASmall => *b"a number below 2^32.............",
        Value::AWhole => *b"a number below 2^64.............",
        Value::ATime => *b"a time..........................",
        Value::AMetric => *b"minimum or maximum..............",
    }
}

// What a program can print after "expected ", filled up with dots to 32 bytes.
pub fn wanted_text(wanted: Wanted) -> [u8; 32]
    ensures { result ≡ wanted_text wanted }
{
    match wanted {
        Wanted::AnItem => *b"a kind of item..................",
        Wanted::TheWord(word) => word_text(word),
        Wanted::AValue(value) => value_text(value),
        Wanted::NoMore => *b"no more lines of this kind......",
    }
}

// Just this, and no optional word.
pub fn only(wanted: Wanted) -> Expected
    ensures { result ≡ Reading·only wanted }
{
    Expected {
        or: Word::Nothing,
        what: wanted,
    }
}

fn word_coded(code: u64) -> Word
    ensures { result ≡ word_coded code }
{
    *WORDS.get(code as usize).unwrap_or(&Word::Nothing)
}

fn value_coded(code: u64) -> Value
    ensures { result ≡ value_coded code }
{
    *VALUES.get(code as usize).unwrap_or(&Value::TheEnd)
}

// The k-th field of a form.
fn field_in(form: [u8; 32], k: usize) -> Field
    requires { k < 8 }
    ensures { result ≡ field_coded form k }
{
    let start = k * 4;
    let word = word_coded(bench_words::digit(form[start]));
    let flag = bench_words::digit(form[start + 1]);
    let value = value_coded(bench_words::digit(form[start + 2]));
    let cell = bench_words::digit(form[start + 3]) as usize;
    Field {
        word,
        flag,
        value,
        cell,
    }
}

fn has_word(word: Word) -> bool
    ensures { result ≡ has_word word }
{
    !matches!(word, Word::Nothing)
}

fn is_end(value: Value) -> bool
    ensures { result ≡ is_end value }
{
    matches!(value, Value::TheEnd)
}

// The item that has this name.
fn item_of(name: &[u8]) -> Option<Item>
    ensures { result ≡ item_named name.now items }
{
    for item in ITEMS {
        if bench_words::is_text(name, item_text(item)) {
            return Some(item);
        }
    }
    None
}

fn metric_of(word: &[u8]) -> Option<u64>
    ensures { result ≡ metric_of word.now }
{
    if bench_words::is_text(word, *b"minimum.........................") {
        return Some(0);
    }
    if bench_words::is_text(word, *b"maximum.........................") {
        return Some(1);
    }
    None
}

// What a word stands for where this value is expected.
fn value_of(word: &[u8], value: Value) -> Option<u64>
    ensures { result ≡ value_of value word.now }
{
    match value {
        Value::TheEnd => None,
        Value::AnId => bench_words::number_of(word, 0xFFFF),
        Value::ASmall => bench_words::number_of(word, 0xFFFF_FFFF),
        Value::AWhole => bench_words::number_of(word, 0xFFFF_FFFF_FFFF_FFFF),
        Value::ATime => bench_words::time_of(word),
        Value::AMetric => metric_of(word),
    }
}

// The cells with a field's value, and its flag in word 2.
#[inline(always)]
fn keep(cells: [u64; 10], field: Field, value: u64) -> [u64; 10]
    ensures { result ≡ kept field value cells }
{
    let mut row = cells;
    row[2] |= field.flag;
    if field.cell < 10 {
        row[field.cell] = value;
    }
    row
}

// What was expected where a field is wrong.
#[inline(always)]
fn wrong(progress: Progress, what: Wanted) -> Mistake
    ensures { result ≡ stops_at progress.at (wants progress.or what) }
{
    Mistake {
        at: progress.at,
        expected: Expected {
            or: progress.or,
            what,
        },
    }
}

// The value of a field, from where the line is read on.
#[inline(always)]
fn read_value(line: &[u8], progress: Progress, field: Field) -> Result<Progress, Mistake>
    requires { progress.at ≤ length line.now }
    ensures { (place_of result ≤ length line.now) × (course_of result ≡ read_value line.now field progress.or progress.at progress.cells) }
{
    let Span { start, end } = bench_words::next_word(line, progress.at);
    if end <= start {
        if is_end(field.value) {
            return Ok(Progress {
                or: Word::Nothing,
                ..progress
            });
        }
        return Err(wrong(progress, Wanted::AValue(field.value)));
    }
    let Some(n) = value_of(&line[start..end], field.value) else {
        return Err(wrong(progress, Wanted::AValue(field.value)));
    };
    Ok(Progress {
        cells: keep(progress.cells, field, n),
        at: end,
        or: Word::Nothing,
    })
}

// A field whose word is not there.
#[inline(always)]
fn left_out(progress: Progress, field: Field) -> Result<Progress, Mistake>
    ensures { (place_of result ≡ progress.at) × (course_of result ≡ left_out field progress.or progress.at progress.cells) }
{
    if field.flag == 0 {
        return Err(wrong(progress, Wanted::TheWord(field.word)));
    }
    Ok(Progress {
        or: field.word,
        ..progress
    })
}

// A field, from where the line is read on: its word, if it has one, and then its value.
#[inline(always)]
fn read_field(line: &[u8], progress: Progress, field: Field) -> Result<Progress, Mistake>
    requires { progress.at ≤ length line.now }
    ensures { (place_of result ≤ length line.now) × (course_of result ≡ read_field line.now field progress.or progress.at progress.cells) }
{
    if !has_word(field.word) {
        return read_value(line, progress, field);
    }
    let Span { start, end } = bench_words::next_word(line, progress.at);
    if end <= start {
        return left_out(progress, field);
    }
    if bench_words::is_text(&line[start..end], word_text(field.word)) {
        let behind = Progress {
            at: end,
            or: Word::Nothing,
            ..progress
        };
        return read_value(line, behind, field);
    }
    left_out(progress, field)
}

// The fields of an item, from `from` on.
fn read_form(line: &[u8], from: usize, item: Item) -> Result<Progress, Mistake>
    requires { from ≤ length line.now }
    ensures { (place_of result ≤ length line.now) × (course_of result ≡ read_fields line.now (fields_in (form_of item)) Words.Nothing from (start_of item)) }
{
    let form = form_of(item);
    let mut progress = Progress {
        cells: start_of(item),
        at: from,
        or: Word::Nothing,
    };
    for k in 0..8 {
        progress = read_field(line, progress, field_in(form, k))?;
    }
    Ok(progress)
}

// The column of the next word from a place on, or of the line's end.
fn column_at(line: &[u8], at: usize) -> usize
    requires { at ≤ length line.now }
    ensures { result ≡ column_at line.now at }
{
    bench_words::next_word(line, at).start + 1
}

fn wrong_at(line: &[u8], expected: Expected, at: usize) -> Line
    requires { at ≤ length line.now }
    ensures { result ≡ wrong_at line.now expected at }
{
    Line {
        said: Err(expected),
        column: column_at(line, at),
        cells: [0; 10],
    }
}

// What a line says whose item is read so far.
fn ended(line: &[u8], item: Item, course: Result<Progress, Mistake>) -> Line
    requires { place_of course ≤ length line.now }
    ensures { result ≡ line_of line.now item (course_of course) }
{
    match course {
        Ok(progress) => {
            let cells = progress.cells;
            Line {
                said: Ok(Some(item)),
                column: column_at(line, 0),
                cells,
            }
        }
        Err(Mistake { at, expected }) => wrong_at(line, expected, at),
    }
}

// What a line says: its item with the cells of its row, or what was expected and where.
pub fn read_line(line: &[u8]) -> Line
    ensures { result ≡ read_line line.now }
{
    let Span { start, end } = bench_words::next_word(line, 0);
    if end <= start {
        return Line {
            said: Ok(None),
            column: column_at(line, 0),
            cells: [0; 10],
        };
    }
    match item_of(&line[start..end]) {
        Some(item) => ended(line, item, read_form(line, end, item)),
        None => wrong_at(line, only(Wanted::AnItem), 0),
    }
}
