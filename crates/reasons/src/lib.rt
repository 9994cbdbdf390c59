// Why a table is refused: the first rule that intake's bad row breaks, in the order in which a person looks. The layout: docs/LAYOUT.md.
#![tactic(auto)]

ghost use Rattle.std.specs.Prelude.{◌≡◌, ◌-◌};
ghost use Rattle.reasons.specs.Checks.{first_wide};
ghost use Rattle.reasons.specs.Reasons as Reasons;

use table::{
    BATCHER, BadTable, CONNECTOR_WIDTH, COUPLED, COUPLING_WIDTH, EXTERNAL_INPUT, INTERNAL, METRIC,
    MODEL_WIDTH, PROCESSOR, STOPWATCH,
};

// The rule that is broken. A number is a row of the models, or a word of the bad row, counted from 0.
#[derive(Clone, Copy, Debug, PartialEq, Eq)]
pub enum Reason {
    ManyModels,
    ManyConnectors,
    ManyCouplings,
    ModelCutShort,
    UnknownKind,
    UnknownField,
    ModelWide(usize),
    BatchOfNone,
    LargeBatch,
    NoBatchTime,
    UnknownMetric,
    StartIsStop,
    StartIsAsk,
    StopIsAsk,
    IdTaken(usize),
    NoParent,
    TooDeep,
    ConnectorCutShort,
    ConnectorWide(usize),
    CouplingCutShort,
    UnknownCoupling,
    CouplingWide(usize),
    NoOwner,
    NoComponent,
}

// The first word from `first` to before `end` that is no id or port.
fn first_wide(cells: &[u64], first: usize, end: usize) -> Option<usize>
    ensures { result ≡ first_wide cells.now first (end - first) }
{
    for at in first..end {
        if 0xFFFF < words::word_at(cells, at) {
            return Some(at);
        }
    }
    None
}

// What a row breaks by its parent, which is a Coupled before it, or by its depth.
#[tactic(auto, unfolding(crate::specs::Reasons::place_reason))]
fn place_reason(models: &[u64], row: usize) -> Option<Reason>
    ensures { result ≡ Reasons.place_reason models.now row }
{
    match table::parent_at(models, row) {
        Some(id) => match table::row_with(models, row, id, 1, COUPLED) {
            Some(_) => depth_reason(models, row),
            None => Some(Reason::NoParent),
        },
        None => depth_reason(models, row),
    }
}

// A Coupled may be too deep.
#[tactic(auto, unfolding(crate::specs::Reasons::depth_reason))]
fn depth_reason(models: &[u64], row: usize) -> Option<Reason>
    ensures { result ≡ Reasons.depth_reason models.now row }
{
    let kind = words::word_at(table::row_of(models, MODEL_WIDTH, row), 1);
    if kind == COUPLED && 4 < table::depth_at(models, row) {
        return Some(Reason::TooDeep);
    }
    None
}

// What a row breaks against the rows before it.
#[tactic(auto, unfolding(crate::specs::Reasons::join_reason))]
fn join_reason(models: &[u64], row: usize) -> Option<Reason>
    ensures { result ≡ Reasons.join_reason models.now row }
{
    let id = table::id_at(models, row);
    match table::row_with(models, row, id, 0, id) {
        Some(earlier) => Some(Reason::IdTaken(earlier)),
        None => place_reason(models, row),
    }
}

// What a Batcher breaks by its size or time, or else against the rows before it.
#[tactic(auto, unfolding(crate::specs::Reasons::batcher_reason, times::specs::Answers::time_of_bits))]
fn batcher_reason(models: &[u64], row: usize, size: u64, bits: u64) -> Option<Reason>
    ensures { result ≡ Reasons.batcher_reason models.now row size bits }
{
    if size < 1 {
        return Some(Reason::BatchOfNone);
    }
    if 0x4000_0000_0000_0000 < size {
        return Some(Reason::LargeBatch);
    }
    match times::time_of_bits(bits) {
        Some(_) => join_reason(models, row),
        None => Some(Reason::NoBatchTime),
    }
}

// What a Stopwatch breaks by its metric or ports, or else against the rows before it.
#[tactic(auto, unfolding(crate::specs::Reasons::stopwatch_reason))]
fn stopwatch_reason(models: &[u64], row: usize, cells: &[u64]) -> Option<Reason>
    ensures { result ≡ Reasons.stopwatch_reason models.now row cells.now }
{
    let start = words::word_at(cells, 4);
    let stop = words::word_at(cells, 5);
    let ask = words::word_at(cells, 6);
    if 1 < table::setting_in(cells, METRIC, 0) {
        return Some(Reason::UnknownMetric);
    }
    if start == stop {
        return Some(Reason::StartIsStop);
    }
    if start == ask {
        return Some(Reason::StartIsAsk);
    }
    if stop == ask {
        return Some(Reason::StopIsAsk);
    }
    join_reason(models, row)
}

// What a row whose ids and ports fit breaks: its kind's own fields first.
#[tactic(auto, unfolding(crate::specs::Reasons::kind_reason))]
fn kind_reason(models: &[u64], row: usize, cells: &[u64]) -> Option<Reason>
    ensures { result ≡ Reasons.kind_reason models.now row cells.now }
{
    match words::word_at(cells, 1) {
        BATCHER => {
            let size = words::word_at(cells, 8);
            let bits = words::word_at(cells, 9);
            batcher_reason(models, row, size, bits)
        }
        STOPWATCH => stopwatch_reason(models, row, cells),
        _ => join_reason(models, row),
    }
}

// What a row breaks by its id (word 0) or its ports (words 4 to 7), or else by its kind.
#[tactic(auto, unfolding(crate::specs::Reasons::port_reason))]
fn port_reason(models: &[u64], row: usize, cells: &[u64]) -> Option<Reason>
    ensures { result ≡ Reasons.port_reason models.now row cells.now }
{
    if 0xFFFF < words::word_at(cells, 0) {
        return Some(Reason::ModelWide(0));
    }
    match first_wide(cells, 4, 8) {
        Some(cell) => Some(Reason::ModelWide(cell)),
        None => kind_reason(models, row, cells),
    }
}

// Why a model row is refused.
#[tactic(auto, unfolding(crate::specs::Reasons::model_reason))]
fn model_reason(models: &[u64], row: usize) -> Option<Reason>
    ensures { result ≡ Reasons.model_reason models.now row }
{
    let cells = table::row_of(models, MODEL_WIDTH, row);
    if cells.len() != MODEL_WIDTH {
        return Some(Reason::ModelCutShort);
    }
    let kind = words::word_at(cells, 1);
    if kind < PROCESSOR || COUPLED < kind {
        return Some(Reason::UnknownKind);
    }
    if 7 < words::word_at(cells, 2) {
        return Some(Reason::UnknownField);
    }
    port_reason(models, row, cells)
}

// Why a connector is refused.
#[tactic(auto, unfolding(crate::specs::Reasons::connector_reason))]
fn connector_reason(cells: &[u64]) -> Option<Reason>
    ensures { result ≡ Reasons.connector_reason cells.now }
{
    if cells.len() != CONNECTOR_WIDTH {
        return Some(Reason::ConnectorCutShort);
    }
    match first_wide(cells, 0, 4) {
        Some(cell) => Some(Reason::ConnectorWide(cell)),
        None => None,
    }
}

// What a coupling breaks against the models.
#[tactic(auto, unfolding(crate::specs::Reasons::owner_reason))]
fn owner_reason(models: &[u64], owner: u64, kind: u64, target: u64) -> Option<Reason>
    ensures { result ≡ Reasons.owner_reason models.now owner kind target }
{
    let rows = models.len() / MODEL_WIDTH;
    if let None = table::row_with(models, rows, owner, 1, COUPLED) {
        return Some(Reason::NoOwner);
    }
    if kind == EXTERNAL_INPUT && !table::is_component(models, owner, target) {
        return Some(Reason::NoComponent);
    }
    None
}

// What a coupling breaks by its ids and ports (words 0 and 2 to 5), or else against the models.
#[tactic(auto, unfolding(crate::specs::Reasons::end_reason))]
fn end_reason(models: &[u64], cells: &[u64]) -> Option<Reason>
    ensures { result ≡ Reasons.end_reason models.now cells.now }
{
    let owner = words::word_at(cells, 0);
    if 0xFFFF < owner {
        return Some(Reason::CouplingWide(0));
    }
    match first_wide(cells, 2, 6) {
        Some(cell) => Some(Reason::CouplingWide(cell)),
        None => {
            let kind = words::word_at(cells, 1);
            let target = words::word_at(cells, 4);
            owner_reason(models, owner, kind, target)
        }
    }
}

// Why a coupling is refused.
#[tactic(auto, unfolding(crate::specs::Reasons::coupling_reason))]
fn coupling_reason(models: &[u64], cells: &[u64]) -> Option<Reason>
    ensures { result ≡ Reasons.coupling_reason models.now cells.now }
{
    if cells.len() != COUPLING_WIDTH {
        return Some(Reason::CouplingCutShort);
    }
    let kind = words::word_at(cells, 1);
    if kind < EXTERNAL_INPUT || INTERNAL < kind {
        return Some(Reason::UnknownCoupling);
    }
    end_reason(models, cells)
}

// Which part of a table is too large.
#[tactic(auto, unfolding(crate::specs::Reasons::size_reason))]
fn size_reason(models: &[u64], connectors: &[u64]) -> Option<Reason>
    ensures { result ≡ Reasons.size_reason models.now connectors.now }
{
    if 640 < models.len() {
        return Some(Reason::ManyModels);
    }
    if 1024 < connectors.len() {
        return Some(Reason::ManyConnectors);
    }
    Some(Reason::ManyCouplings)
}

// Why intake refuses a table: the rule that its first bad row breaks, or the part that is too large; none where it passes.
#[tactic(auto, unfolding(crate::specs::Reasons::reason_of))]
pub fn reason_of(models: &[u64], connectors: &[u64], couplings: &[u64]) -> Option<Reason>
    ensures { result ≡ Reasons.reason_of models.now connectors.now couplings.now }
{
    match table::intake(models, connectors, couplings) {
        Ok(()) => None,
        Err(BadTable::TooLarge) => size_reason(models, connectors),
        Err(BadTable::Row(row)) => model_reason(models, row),
        Err(BadTable::Connector(row)) => {
            connector_reason(table::row_of(connectors, CONNECTOR_WIDTH, row))
        }
        Err(BadTable::Coupling(row)) => {
            coupling_reason(models, table::row_of(couplings, COUPLING_WIDTH, row))
        }
    }
}
