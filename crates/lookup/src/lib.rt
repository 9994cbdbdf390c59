// The table inside a lent state: its rows, couplings and connectors, looked up where they stand. Layout: docs/LAYOUT.md.
#![tactic(auto)]

ghost use Rattle.std.specs.Prelude.{◌≡◌, ◌-◌, ◌<◌, length, eqb};
ghost use Rattle.rules.specs.Base.{those};
ghost use Rattle.rules.specs.Table.{id_at, kind_at, row_at, is_coupled, is_parent, is_parentless, components};
ghost use Rattle.words.specs.Search.{first_from};
ghost use Rattle.table.specs.Readers.{named};
ghost use Rattle.selection.specs.Selecting.{connects, is_input, is_output, is_internal, lead_at, Finds};
ghost use Rattle.selection.specs.Selected.{leads_to};
ghost use Rattle.lookup.specs.Inside.{Inside, connectors_at, couplings_at, tail_at, table_in, connectors_in, couplings_in, found_in};
ghost use Rattle.lookup.specs.InsideLaws.{lent_models, lent_connectors, lent_couplings};

use selection::{Link, Target};
use table::{CONNECTOR_WIDTH, COUPLED, COUPLING_WIDTH, Kind, MODEL_WIDTH};

// The models' words begin behind the three counts.
const MODELS_AT: usize = 3;

// How many model rows the table has.
#[tactic(auto, using(crate::proofs::Rows::counted))]
pub fn row_count(state: &[u64]) -> usize
    requires { Inside state.now }
    ensures { result ≡ length (table_in state.now).rows }
{
    state[0] as usize
}

// How many connectors the table has.
pub fn connector_count(state: &[u64]) -> usize
    requires { Inside state.now }
    ensures { result ≡ length (table_in state.now).connectors }
{
    state[1] as usize
}

// How many couplings the table has.
pub fn coupling_count(state: &[u64]) -> usize
    requires { Inside state.now }
    ensures { result ≡ length (table_in state.now).couplings }
{
    state[2] as usize
}

// Where the connectors' words begin.
fn connectors_at(state: &[u64]) -> usize
    requires { Inside state.now }
    ensures { result ≡ connectors_at state.now }
{
    state[0] as usize * MODEL_WIDTH + MODELS_AT
}

// Where the couplings' words begin.
fn couplings_at(state: &[u64]) -> usize
    requires { Inside state.now }
    ensures { result ≡ couplings_at state.now }
{
    connectors_at(state) + state[1] as usize * CONNECTOR_WIDTH
}

// Where the table ends, and the simulation's changing part begins.
pub fn tail_at(state: &[u64]) -> usize
    requires { Inside state.now }
    ensures { result ≡ tail_at state.now }
{
    couplings_at(state) + state[2] as usize * COUPLING_WIDTH
}

// The words of the models.
fn models_in(state: &[u64]) -> &[u64]
    requires { Inside state.now }
    ensures { result.now ≡ lent_models state.now }
{
    &state[MODELS_AT..connectors_at(state)]
}

// The words of the connectors.
fn connectors_in(state: &[u64]) -> &[u64]
    requires { Inside state.now }
    ensures { result.now ≡ lent_connectors state.now }
{
    &state[connectors_at(state)..couplings_at(state)]
}

// The words of the couplings.
fn couplings_in(state: &[u64]) -> &[u64]
    requires { Inside state.now }
    ensures { result.now ≡ lent_couplings state.now }
{
    &state[couplings_at(state)..tail_at(state)]
}

// A row's id.
#[tactic(auto, using(crate::proofs::Rows::rows))]
pub fn id_of(state: &[u64], row: usize) -> u64
    requires { Inside state.now }
    ensures { result ≡ id_at (table_in state.now) row }
{
    table::id_at(models_in(state), row)
}

// A row's kind with its fields. Each row of a table that passed has one.
pub fn kind_of(state: &[u64], row: usize) -> Kind
    requires { Inside state.now × (row < length (table_in state.now).rows) }
    ensures { result ≡ named (kind_at (table_in state.now) row) }
{
    table::kind_at(models_in(state), row).unwrap()
}

// Whether the row is a Coupled's, by its kind's number alone.
#[tactic(auto, using(crate::proofs::Rows::rows))]
pub fn is_coupled(state: &[u64], row: usize) -> bool
    requires { Inside state.now × (row < length (table_in state.now).rows) }
    ensures { result ≡ is_coupled (kind_at (table_in state.now) row) }
{
    let start = row * MODEL_WIDTH + MODELS_AT;
    state[start + 1] == COUPLED
}

// The first component of an owner from a row on, or None.
#[tactic(auto, using(crate::proofs::Rows::rows))]
pub fn next_component(state: &[u64], from: usize, owner: u64) -> Option<usize>
    requires { Inside state.now }
    ensures { result ≡ first_from (λ j. is_parent owner (row_at (table_in state.now) j).parent) from (length (table_in state.now).rows - from) }
{
    selection::next_component(models_in(state), from, owner)
}

// The first row without parent from a row on, or None.
#[tactic(auto, using(crate::proofs::Rows::rows))]
pub fn next_parentless(state: &[u64], from: usize) -> Option<usize>
    requires { Inside state.now }
    ensures { result ≡ first_from (λ j. is_parentless (row_at (table_in state.now) j).parent) from (length (table_in state.now).rows - from) }
{
    selection::next_parentless(models_in(state), from)
}

// The component of this owner that has this id, or None. Ids differ, so there is one at most.
pub fn component_of(state: &[u64], owner: u64, id: u64) -> Option<usize>
    requires { Inside state.now }
    ensures { found_in result ≡ those (λ j. eqb (id_at (table_in state.now) j) id) (components (table_in state.now) owner) }
{
    let models = models_in(state);
    let row = selection::next_with_id(models, 0, id)?;
    let found = selection::next_component(models, row, owner)?;
    if found == row { Some(row) } else { None }
}

// The first external input coupling of an owner at a port, from a place on, or None.
pub fn next_input(state: &[u64], from: usize, owner: u64, port: u64) -> Option<usize>
    requires { Inside state.now }
    ensures { result ≡ first_from (is_input (couplings_in state.now) owner port) from (length (table_in state.now).couplings - from) }
{
    selection::next_input(couplings_in(state), from, owner, port)
}

// The first external output coupling of an owner from a component's port, from a place on, or None.
pub fn next_output(state: &[u64], from: usize, owner: u64, source: u64, port: u64) -> Option<usize>
    requires { Inside state.now }
    ensures { result ≡ first_from (is_output (couplings_in state.now) owner source port) from (length (table_in state.now).couplings - from) }
{
    selection::next_output(couplings_in(state), from, owner, source, port)
}

// The first internal coupling of an owner from a component's port, from a place on, or None.
pub fn next_internal(
    state: &[u64],
    from: usize,
    owner: u64,
    source: u64,
    port: u64,
) -> Option<usize>
    requires { Inside state.now }
    ensures { result ≡ first_from (is_internal (couplings_in state.now) owner source port) from (length (table_in state.now).couplings - from) }
{
    selection::next_internal(couplings_in(state), from, owner, source, port)
}

// Where a coupling leads.
pub fn coupling_target(state: &[u64], coupling: usize) -> Target
    requires { Inside state.now }
    ensures { (result.id ≡ (leads_to (couplings_in state.now) coupling).target) × (result.port ≡ (leads_to (couplings_in state.now) coupling).port) }
{
    selection::coupling_target(couplings_in(state), coupling)
}

// The next connector from an id and port, with where it leads, or None. `looked` is how many of them have been looked at.
pub fn next_connector(state: &[u64], looked: &mut usize, source: u64, port: u64) -> Option<Link>
    requires { Inside state.now }
    ensures { Finds (connects (connectors_in state.now) source port) (lead_at (connectors_in state.now)) (length (table_in state.now).connectors) looked.old result looked.new }
{
    selection::next_connector(connectors_in(state), looked, source, port)
}
