// The lent table: readers of its rows, and intake (refusals 1, 2 and 3, with the row). Layout: docs/LAYOUT.md.
#![tactic(auto)]

ghost use Rattle.std.specs.Prelude.{◌≡◌, true, not, ◌/◌, ◌≤◌, ◌<◌, length, take, drop, eqb, Some};
ghost use Rattle.rules.specs.Layout as Layout;
ghost use Rattle.rules.specs.Intake as Intake;
ghost use Rattle.words.specs.Search.{next_row};
ghost use Rattle.table.specs.Searched.{id_and};
ghost use Rattle.table.specs.Readers.{id_in, kind_of, parent_of, depth_in, row_of};
ghost use Rattle.table.specs.Verdicts.{verdict_of, refusal_of};
ghost use Rattle.table.specs.Judging as Judging;
ghost use Rattle.table.specs.Rising.{AtMost};

use rules::{Batcher, Metric, Processor, Refusal, Stopwatch};
use words::Cell;

// The words of a model row, of a connector and of a coupling.
pub const MODEL_WIDTH: usize = 10;

pub const CONNECTOR_WIDTH: usize = 4;

pub const COUPLING_WIDTH: usize = 6;

// The kinds of a model row, by its word 1.
pub const PROCESSOR: u64 = 1;

pub const BATCHER: u64 = 2;

pub const STOPWATCH: u64 = 3;

pub const COUPLED: u64 = 4;

// The kinds of a coupling, by its word 1.
pub const EXTERNAL_INPUT: u64 = 1;

pub const EXTERNAL_OUTPUT: u64 = 2;

pub const INTERNAL: u64 = 3;

// The optional fields of a model row, as they are counted in its word 2.
pub const PARENT: u64 = 1;

pub const QUEUE_CAPACITY: u64 = 2;

pub const METRIC: u64 = 4;

// Why intake refuses a table: it is too large, or the first bad row, counted from 0 in its own slice.
#[derive(Clone, Copy, Debug, PartialEq, Eq)]
pub enum BadTable {
    TooLarge,
    Row(usize),
    Connector(usize),
    Coupling(usize),
}

// 01's refusal of such a table.
impl From<BadTable> for Refusal {
    ghost from_gives = { λ bad refusal. refusal ≡ refusal_of bad };

    fn from(bad: BadTable) -> Refusal {
        match bad {
            BadTable::TooLarge => Refusal::TooLarge,
            BadTable::Row(_) => Refusal::BadRow,
            BadTable::Connector(_) | BadTable::Coupling(_) => Refusal::BadCoupling,
        }
    }
}

// What a model row is, with what it says.
#[derive(Clone, Copy)]
pub enum Kind {
    Processor(Processor),
    Batcher(Batcher),
    Stopwatch(Stopwatch),
    Coupled,
}

// The parts of a table, each with rules of its own.
// kept: `keeps_in`, `first_bad_in` and the theorem `all-kept` are by these three parts; a trait would say each again.
#[derive(Clone, Copy)]
enum Part {
    Models,
    Connectors,
    Couplings,
}

// The words of the row that starts at a place: fewer where it is cut short.
fn row_from(slice: &[u64], start: usize, width: usize) -> &[u64]
    requires { start ≤ length slice.now }
    ensures { result.now ≡ take width (drop start slice.now) }
{
    let rest = &slice[start..];
    &rest[..width.min(rest.len())]
}

// The words of a row: fewer where it is cut short, none past the last.
pub fn row_of(slice: &[u64], width: usize, row: usize) -> &[u64]
    ensures { result.now ≡ row_of width slice.now row }
{
    let start = row.saturating_mul(width).min(slice.len());
    row_from(slice, start, width)
}

// Whether a row has all of its words.
fn is_whole(cells: &[u64], width: usize) -> bool
    ensures { result ≡ eqb (length cells.now) width }
{
    cells.len() == width
}

// Whether the cells from `first` to before `end` are ids or ports.
#[tactic(auto, using(crate::proofs::Laws::cells), unfolding(crate::specs::Judging::cells_fit))]
fn cells_fit(cells: &[u64], first: usize, end: usize) -> bool
    ensures { result ≡ Judging.cells_fit cells.now first end }
{
    for at in first..end {
        if 0xFFFF < words::word_at(cells, at) {
            return false;
        }
    }
    true
}

// Whether an optional field is given. None has the number 0.
fn is_given(cells: &[u64], field: u64) -> bool
    ensures { result ≡ Layout.is_given field cells.now }
{
    0 < field && words::word_at(cells, 2) / field % 2 == 1
}

// The setting of a row, or what it is where it is omitted.
pub fn setting_in(cells: &[u64], field: u64, omitted: u64) -> u64
    ensures { result ≡ Judging.setting_in field omitted cells.now }
{
    if is_given(cells, field) {
        words::word_at(cells, 8)
    } else {
        omitted
    }
}

// The port that a word says, if it is one.
fn port_of(word: u64) -> Option<u16>
    ensures { result ≡ Judging.port_of word }
{
    u16::try_from(word).ok()
}

fn processor_of(input: u64, output: u64, capacity: u64) -> Option<Kind>
    ensures { result ≡ kind_of (Some (Judging.processor_of input output capacity)) }
{
    Some(Kind::Processor(Processor {
        input: port_of(input)?,
        output: port_of(output)?,
        queue_capacity: capacity,
    }))
}

// A Batcher's fields, or None.
#[tactic(auto, unfolding(times::specs::Answers::time_of_bits))]
fn batcher_of(input: u64, output: u64, size: u64, bits: u64) -> Option<Kind>
    ensures { result ≡ kind_of (Some (Judging.batcher_of input output size bits)) }
{
    if size < 1 || 0x4000_0000_0000_0000 < size {
        return None;
    }
    Some(Kind::Batcher(Batcher {
        input: port_of(input)?,
        output: port_of(output)?,
        max_batch_size: size,
        max_batch_time: times::time_of_bits(bits)?,
    }))
}

fn stopwatch_of(start: u64, stop: u64, ask: u64, output: u64, metric: Metric) -> Option<Kind>
    ensures { result ≡ kind_of (Some (Judging.stopwatch_of start stop ask output metric)) }
{
    if start == stop || start == ask || stop == ask {
        return None;
    }
    Some(Kind::Stopwatch(Stopwatch {
        start: port_of(start)?,
        stop: port_of(stop)?,
        ask: port_of(ask)?,
        output: port_of(output)?,
        metric,
    }))
}

// The metric that a row's words say.
fn metric_of(cells: &[u64]) -> Option<Metric>
    ensures { result ≡ Judging.metric_of (Layout.metric_in cells.now) }
{
    match setting_in(cells, METRIC, 0) {
        0 => Some(Metric::Minimum),
        1 => Some(Metric::Maximum),
        _ => None,
    }
}

#[tactic(auto, unfolding(crate::specs::Judging::stopwatch_at))]
fn stopwatch_in(cells: &[u64]) -> Option<Kind>
    ensures { result ≡ kind_of (Judging.stopwatch_at cells.now) }
{
    let start = words::word_at(cells, 4);
    let stop = words::word_at(cells, 5);
    let ask = words::word_at(cells, 6);
    let output = words::word_at(cells, 7);
    stopwatch_of(start, stop, ask, output, metric_of(cells)?)
}

// The kind that a row's words say.
#[tactic(auto, unfolding(crate::specs::Judging::stopwatch_at))]
fn kind_in(cells: &[u64]) -> Option<Kind>
    ensures { result ≡ kind_of (Layout.kind_in cells.now) }
{
    let input = words::word_at(cells, 4);
    let output = words::word_at(cells, 7);
    match words::word_at(cells, 1) {
        PROCESSOR => {
            let capacity = setting_in(cells, QUEUE_CAPACITY, rules::OMITTED_CAPACITY);
            processor_of(input, output, capacity)
        }
        BATCHER => batcher_of(
            input,
            output,
            words::word_at(cells, 8),
            words::word_at(cells, 9),
        ),
        STOPWATCH => stopwatch_in(cells),
        COUPLED => Some(Kind::Coupled),
        _ => None,
    }
}

// The parent that a row's words say.
fn parent_in(cells: &[u64]) -> Option<u64>
    ensures { result ≡ parent_of (Layout.parent_in cells.now) }
{
    if is_given(cells, PARENT) {
        Some(words::word_at(cells, 3))
    } else {
        None
    }
}

// The id in a model row; 0 past the last.
pub fn id_at(models: &[u64], row: usize) -> u64
    ensures { result ≡ id_in models.now row }
{
    words::word_at(row_of(models, MODEL_WIDTH, row), 0)
}

// A row's kind with its fields; none where the kind, or a field that the kind has, breaks a rule.
pub fn kind_at(models: &[u64], row: usize) -> Option<Kind>
    ensures { result ≡ kind_of (Layout.kind_in (row_of Layout.model_width models.now row)) }
{
    kind_in(row_of(models, MODEL_WIDTH, row))
}

// The id of a row's parent, or None.
pub fn parent_at(models: &[u64], row: usize) -> Option<u64>
    ensures { result ≡ parent_of (Layout.parent_in (row_of Layout.model_width models.now row)) }
{
    parent_in(row_of(models, MODEL_WIDTH, row))
}

// The depth of a row, by the rows before it: 1 without parent.
#[tactic(auto, using(crate::proofs::Depths::depths), unfolding(crate::specs::Readers::depth_in))]
pub fn depth_at(models: &[u64], row: usize) -> usize
    ensures { result ≡ depth_in models.now row }
{
    if models.len() <= row {
        return 1;
    }
    let mut depth = 1;
    let mut parent = parent_at(models, row);
    for at in (0..row).rev() {
        let Some(id) = parent else { return depth };
        if id_at(models, at) == id {
            depth += 1;
            parent = parent_at(models, at);
        }
    }
    depth
}

// The first of the first `rows` rows that has the id, and the value in the cell.
pub fn row_with(models: &[u64], rows: usize, id: u64, at: usize, value: u64) -> Option<usize>
    ensures { result ≡ next_row (id_and id at value) Layout.model_width 0 rows models.now }
{
    let key = [Cell { at: 0, value: id }, Cell { at, value }];
    words::next_row(models, MODEL_WIDTH, 0, rows, &key)
}

// Whether one of the first `rows` rows has the id, and the value in the cell.
#[tactic(auto, using(crate::proofs::Laws::rows_found))]
fn has_row(models: &[u64], rows: usize, id: u64, at: usize, value: u64) -> bool
    requires { (rows ≤ length models.now / 10) × (at < 10) }
    ensures { result ≡ Judging.has_row models.now rows id at value }
{
    row_with(models, rows, id, at, value).is_some()
}

// Whether the kind keeps its rules, where the ports fit. A Processor and a Coupled then do: neither is built.
#[tactic(auto, using(crate::proofs::Laws::processors))]
fn kind_fits(cells: &[u64]) -> bool
    requires { Judging.cells_fit cells.now 4 8 ≡ true }
    ensures { result ≡ Judging.is_kind (kind_of (Layout.kind_in cells.now)) }
{
    match words::word_at(cells, 1) {
        PROCESSOR | COUPLED => true,
        _ => kind_in(cells).is_some(),
    }
}

// What a model row keeps by itself: it is whole, every port fits, used or not, and so do its fields.
#[tactic(auto, unfolding(crate::specs::Judging::row_fits))]
fn row_fits(cells: &[u64]) -> bool
    ensures { result ≡ Judging.row_fits cells.now }
{
    is_whole(cells, MODEL_WIDTH)
        && (words::word_at(cells, 2) <= 7 && (cells_fit(cells, 4, 8) && kind_fits(cells)))
}

// Whether the parent, if there is one, is a Coupled before the row.
#[tactic(auto, using(crate::proofs::Laws::coupled_ids), unfolding(crate::specs::Judging::parent_joins))]
fn parent_fits(models: &[u64], row: usize, cells: &[u64]) -> bool
    requires { (row ≤ length models.now / 10) × (cells.now ≡ row_of Layout.model_width models.now row) }
    ensures { result ≡ Judging.parent_joins models.now row }
{
    match parent_in(cells) {
        Some(id) => has_row(models, row, id, 1, COUPLED),
        None => true,
    }
}

// Whether no row before has the id. Above the greatest of theirs no search is made.
#[tactic(auto, using(crate::specs::Rising::none_above))]
fn is_new(models: &[u64], row: usize, id: u64, greatest: u64) -> bool
    requires { (row ≤ length models.now / 10) × AtMost Layout.model_width models.now row greatest }
    ensures { result ≡ not (Judging.has_row models.now row id 0 id) }
{
    greatest < id || !has_row(models, row, id, 0, id)
}

// What a model row keeps against the rows before it.
#[tactic(auto, using(crate::proofs::Laws::joining))]
fn row_joins(models: &[u64], row: usize, cells: &[u64], greatest: u64) -> bool
    requires { (row ≤ length models.now / 10) × (cells.now ≡ row_of Layout.model_width models.now row) × AtMost Layout.model_width models.now row greatest }
    ensures { result ≡ Judging.row_joins models.now row }
{
    let id = words::word_at(cells, 0);
    id <= 0xFFFF
        && (is_new(models, row, id, greatest)
            && (parent_fits(models, row, cells)
                && (words::word_at(cells, 1) != COUPLED || depth_at(models, row) <= 4)))
}

#[tactic(auto, using(crate::proofs::Laws::fits_whole), unfolding(crate::specs::Judging::row_keeps))]
fn row_keeps(models: &[u64], row: usize, cells: &[u64], greatest: u64) -> bool
    requires { (cells.now ≡ row_of Layout.model_width models.now row) × AtMost Layout.model_width models.now row greatest }
    ensures { result ≡ Judging.row_keeps models.now row }
{
    row_fits(cells) && row_joins(models, row, cells, greatest)
}

#[tactic(auto, unfolding(crate::specs::Judging::connector_keeps))]
fn connector_keeps(cells: &[u64]) -> bool
    ensures { result ≡ Judging.connector_keeps cells.now }
{
    is_whole(cells, CONNECTOR_WIDTH) && cells_fit(cells, 0, 4)
}

// Whether a row has this id and this parent.
fn is_child(cells: &[u64], owner: u64, target: u64) -> bool
    ensures { result ≡ Judging.is_child owner target (Judging.read_row cells.now) }
{
    words::word_at(cells, 0) == target && parent_in(cells) == Some(owner)
}

// Whether some row has this id and this parent.
// kept: it stands by itself, since within another function its short loop took up to twice the time, by where it came to lie
#[tactic(auto, using(crate::proofs::Laws::searching))]
#[inline(never)]
pub fn is_component(models: &[u64], owner: u64, target: u64) -> bool
    ensures { result ≡ Intake.is_component_of (Judging.all_in models.now) owner target }
{
    for row in (0..models.len() / MODEL_WIDTH).rev() {
        let start = row * MODEL_WIDTH;
        if is_child(&models[start..start + MODEL_WIDTH], owner, target) {
            return true;
        }
    }
    false
}

#[tactic(auto, unfolding(crate::specs::Judging::coupling_keeps))]
fn coupling_keeps(models: &[u64], cells: &[u64]) -> bool
    ensures { result ≡ Judging.coupling_keeps (Judging.all_in models.now) cells.now }
{
    let owner = words::word_at(cells, 0);
    let kind = words::word_at(cells, 1);
    let target = words::word_at(cells, 4);
    is_whole(cells, COUPLING_WIDTH)
        && (cells_fit(cells, 0, 1)
            && (cells_fit(cells, 2, 6) && owner_fits(models, owner, kind, target)))
}

// Whether the kind is one of the three, the owner a Coupled, and the target of an external input its component.
#[tactic(auto, using(crate::proofs::Laws::coupled_ids), unfolding(crate::specs::Judging::owner_fits))]
fn owner_fits(models: &[u64], owner: u64, kind: u64, target: u64) -> bool
    ensures { result ≡ Judging.owner_fits (Judging.all_in models.now) owner kind target }
{
    matches!(kind, EXTERNAL_INPUT..=INTERNAL)
        && (has_row(models, models.len() / MODEL_WIDTH, owner, 1, COUPLED)
            && (kind != EXTERNAL_INPUT || is_component(models, owner, target)))
}

// Whether a row of this part keeps its rules: its words, and no first cell before it above `greatest`.
#[tactic(auto, unfolding(crate::specs::Judging::keeps_in))]
fn keeps(
    part: Part,
    models: &[u64],
    slice: &[u64],
    row: usize,
    cells: &[u64],
    greatest: u64,
) -> bool
    requires { (cells.now ≡ row_of (Judging.width_of part) slice.now row) × AtMost (Judging.width_of part) slice.now row greatest }
    ensures { result ≡ Judging.keeps_in part models.now slice.now row }
{
    match part {
        Part::Models => row_keeps(slice, row, cells, greatest),
        Part::Connectors => connector_keeps(cells),
        Part::Couplings => coupling_keeps(models, cells),
    }
}

// kept: a match on the part, as `Judging.width_of` is; the theorems on rows go by it.
fn width_of(part: Part) -> usize
    ensures { result ≡ Judging.width_of part }
{
    match part {
        Part::Models => MODEL_WIDTH,
        Part::Connectors => CONNECTOR_WIDTH,
        Part::Couplings => COUPLING_WIDTH,
    }
}

// The first row of this part that does not keep its rules, a row cut short among them.
fn first_bad(part: Part, models: &[u64], slice: &[u64]) -> Option<usize>
    ensures { result ≡ Judging.first_bad_in part models.now slice.now }
{
    let width = width_of(part);
    let mut greatest = 0;
    for row in 0..slice.len().div_ceil(width) {
        let cells = row_from(slice, row * width, width);
        if !keeps(part, models, slice, row, cells, greatest) {
            return Some(row);
        }
        greatest = greatest.max(words::word_at(cells, 0));
    }
    None
}

// Table intake of any three slices, with the first bad row: 1, then 2 in row order, then 3 in the order of the connectors and then of the couplings.
#[tactic(auto, using(crate::proofs::Laws::verdicts))]
pub fn intake(models: &[u64], connectors: &[u64], couplings: &[u64]) -> Result<(), BadTable>
    ensures { result ≡ verdict_of (Intake.intake (Layout.lent models.now connectors.now couplings.now)) }
{
    if 640 < models.len() {
        return Err(BadTable::TooLarge);
    }
    if 1024 < connectors.len() {
        return Err(BadTable::TooLarge);
    }
    if 1536 < couplings.len() {
        return Err(BadTable::TooLarge);
    }
    if let Some(row) = first_bad(Part::Models, models, models) {
        return Err(BadTable::Row(row));
    }
    if let Some(row) = first_bad(Part::Connectors, models, connectors) {
        return Err(BadTable::Connector(row));
    }
    if let Some(row) = first_bad(Part::Couplings, models, couplings) {
        return Err(BadTable::Coupling(row));
    }
    Ok(())
}
