// What a bench program warns of: an end of a connector, a coupling or an injection that names no model, or a port that the model does not have.
// The table is as it is lent; layout: docs/LAYOUT.md.
#![tactic(auto)]

ghost use Rattle.std.specs.Prelude.{◌≡◌, [], ◌∷◌, ◌/◌, length};
ghost use Rattle.rules.specs.Valid.{member};
ghost use Rattle.words.specs.Search.{first_from};
ghost use Rattle.table.specs.declared.Kind.TheVariants.{Coupled};
ghost use Rattle.hints.specs.Naming.{ports_of, couplings_in, end_in, root_end_in, component_end_in};
ghost use Rattle.hints.specs.NamingLaws.{is_named, is_parent_of};

use table::{COUPLING_WIDTH, EXTERNAL_INPUT, EXTERNAL_OUTPUT, Kind, MODEL_WIDTH};
use words::Cell;

// A port that takes messages, or one that puts them out.
#[derive(Clone, Copy, Debug, PartialEq, Eq)]
pub enum Side {
    In,
    Out,
}

// An end that names no model, or no port of the model.
#[derive(Clone, Copy, Debug, PartialEq, Eq)]
pub enum BadEnd {
    NoModel,
    NoPort,
}

// Whether a row has the id, and the parent that is asked for, or none where none is.
fn is_named(models: &[u64], row: usize, id: u64, wanted: Option<u64>) -> bool
    ensures { result ≡ is_named wanted models.now id row }
{
    table::id_at(models, row) == id && table::parent_at(models, row) == wanted
}

// The first row that has the id, and the parent that is asked for.
#[tactic(auto, using(crate::proofs::Ends::steps))]
fn row_named(models: &[u64], id: u64, wanted: Option<u64>) -> Option<usize>
    ensures { result ≡ first_from (is_named wanted models.now id) 0 (length models.now / 10) }
{
    for row in 0..models.len() / MODEL_WIDTH {
        if is_named(models, row, id, wanted) {
            return Some(row);
        }
    }
    None
}

// Whether the port is one of three.
fn is_one_of(port: u64, a: u16, b: u16, c: u16) -> bool
    ensures { result ≡ member port (a ∷ b ∷ c ∷ []) }
{
    a as u64 == port || b as u64 == port || c as u64 == port
}

// Whether a Coupled has the port, by its external couplings.
#[tactic(auto, using(crate::proofs::Ends::ports))]
fn coupled_has(couplings: &[u64], owner: u64, port: u64, side: Side) -> bool
    ensures { result ≡ member port (ports_of side (couplings_in couplings.now) owner Coupled) }
{
    let (kind, at) = match side {
        Side::In => (EXTERNAL_INPUT, 3),
        Side::Out => (EXTERNAL_OUTPUT, 5),
    };
    let key = [
        Cell {
            at: 0,
            value: owner,
        },
        Cell { at: 1, value: kind },
        Cell { at, value: port },
    ];
    let rows = couplings.len() / COUPLING_WIDTH;
    words::next_row(couplings, COUPLING_WIDTH, 0, rows, &key).is_some()
}

// Whether the model takes messages at the port, or puts them out there.
fn has_port(couplings: &[u64], id: u64, kind: Kind, port: u64, side: Side) -> bool
    ensures { result ≡ member port (ports_of side (couplings_in couplings.now) id kind) }
{
    match (kind, side) {
        (Kind::Processor(row), Side::In) => row.input as u64 == port,
        (Kind::Processor(row), Side::Out) => row.output as u64 == port,
        (Kind::Batcher(row), Side::In) => row.input as u64 == port,
        (Kind::Batcher(row), Side::Out) => row.output as u64 == port,
        (Kind::Stopwatch(row), Side::In) => is_one_of(port, row.start, row.stop, row.ask),
        (Kind::Stopwatch(row), Side::Out) => row.output as u64 == port,
        (Kind::Coupled, _) => coupled_has(couplings, id, port, side),
    }
}

// What an end names, among the rows that have the parent that is asked for.
#[tactic(auto, using(crate::proofs::Ends::ends))]
fn end_of(
    models: &[u64],
    couplings: &[u64],
    wanted: Option<u64>,
    id: u64,
    port: u64,
    side: Side,
) -> Result<(), BadEnd>
    ensures { result ≡ end_in (is_parent_of wanted) models.now couplings.now id port side }
{
    let Some(row) = row_named(models, id, wanted) else {
        return Err(BadEnd::NoModel)
    };
    match table::kind_at(models, row) {
        Some(kind) => if has_port(couplings, id, kind, port, side) {
            Ok(())
        } else {
            Err(BadEnd::NoPort)
        },
        None => Err(BadEnd::NoPort),
    }
}

// What an end of a connector, or the target of an injection, names: it is looked for among the models without parent.
pub fn root_end(
    models: &[u64],
    couplings: &[u64],
    id: u64,
    port: u64,
    side: Side,
) -> Result<(), BadEnd>
    ensures { result ≡ root_end_in models.now couplings.now id port side }
{
    end_of(models, couplings, None, id, port, side)
}

// What an end of a coupling of `owner` names: it is looked for among the components of that Coupled.
pub fn component_end(
    models: &[u64],
    couplings: &[u64],
    owner: u64,
    id: u64,
    port: u64,
    side: Side,
) -> Result<(), BadEnd>
    ensures { result ≡ component_end_in models.now couplings.now owner id port side }
{
    end_of(models, couplings, Some(owner), id, port, side)
}
