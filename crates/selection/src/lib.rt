// Selection in a lent table: the connectors and couplings that match, the components, each in order.
// A search says the first place from a given one on. Searched on from the place after, it gives all of them in order.
#![tactic(auto)]

ghost use Rattle.std.specs.Prelude.{◌≡◌, ◌+◌, ◌-◌, ◌<◌, length};
ghost use Rattle.table.specs.Passed.{connector_of};
ghost use Rattle.words.specs.Search.{first_from, next_row};
ghost use Rattle.selection.specs.Selecting.{connects, is_input, is_output, is_internal, is_component, is_free, has_id, comes_from, lead_of, lead_at, target_in, seen_of, Finds, connectors_in, couplings_in, rows_in};
ghost use Rattle.selection.specs.SelectingLaws.{coupling_key, child_at};

use table::{
    CONNECTOR_WIDTH, COUPLING_WIDTH, EXTERNAL_INPUT, EXTERNAL_OUTPUT, INTERNAL, MODEL_WIDTH,
};
use words::Cell;

// A component's id, or a model's, with a port of it.
#[derive(Clone, Copy, Debug, PartialEq, Eq)]
pub struct Target {
    pub id: u64,
    pub port: u64,
}

// A connector that matches: its place, and where it leads.
#[derive(Clone, Copy, Debug, PartialEq, Eq)]
pub struct Link {
    pub place: usize,
    pub target: Target,
}

// A look at one connector: where it leads, if it comes from this id and port. It is lent no other row, names each word once, and counts itself.
fn look_at(row: &[u64], looked: &mut usize, source: u64, port: u64) -> Option<Target>
    requires { (length row.now ≡ 4) × (looked.old < 18446744073709551615) }
    ensures sees { result ≡ seen_of (comes_from source port (connector_of row.now)) (lead_of (connector_of row.now)) }
    ensures once { looked.new ≡ looked.old + 1 }
{
    *looked += 1;
    if row[0] != source {
        return None;
    }
    if row[1] != port {
        return None;
    }
    Some(Target {
        id: row[2],
        port: row[3],
    })
}

// The next coupling of this kind and owner, from this port, that has the source in its cell `at`.
fn next_coupling(
    couplings: &[u64],
    from: usize,
    kind: u64,
    owner: u64,
    at: usize,
    source: u64,
    port: u64,
) -> Option<usize>
    ensures { result ≡ next_row (coupling_key kind owner at source port) 6 from (couplings_in couplings.now) couplings.now }
{
    let key = [
        Cell {
            at: 0,
            value: owner,
        },
        Cell { at: 1, value: kind },
        Cell { at, value: source },
        Cell { at: 3, value: port },
    ];
    words::next_row(
        couplings,
        COUPLING_WIDTH,
        from,
        couplings.len() / COUPLING_WIDTH,
        &key,
    )
}

// The row's parent is the one asked for. Where none is, the parent's cell is not looked at.
fn is_child(models: &[u64], row: usize, parent: Option<u64>) -> bool
    requires { row < rows_in models.now }
    ensures { result ≡ child_at parent models.now row }
{
    let start = row * MODEL_WIDTH;
    match parent {
        Some(owner) => models[start + 2] % 2 == 1 && models[start + 3] == owner,
        None => models[start + 2] % 2 == 0,
    }
}

// The next row whose parent is the one asked for.
#[tactic(auto, using(crate::proofs::Searches::steps))]
fn next_child(models: &[u64], from: usize, parent: Option<u64>) -> Option<usize>
    ensures { result ≡ first_from (child_at parent models.now) from (rows_in models.now - from) }
{
    for row in from..models.len() / MODEL_WIDTH {
        if is_child(models, row, parent) {
            return Some(row);
        }
    }
    None
}

// The next connector from this id and port, with where it leads, or None. `looked` is how many have been looked at: the search goes on there.
// kept: the loop counts `start`, the place times 4, by hand; ended by the place itself, it came out slower.
pub fn next_connector(
    connectors: &[u64],
    looked: &mut usize,
    source: u64,
    port: u64,
) -> Option<Link>
    ensures { Finds (connects connectors.now source port) (lead_at connectors.now) (connectors_in connectors.now) looked.old result looked.new }
{
    let in_use = connectors.len() / CONNECTOR_WIDTH;
    if in_use <= *looked {
        return None;
    }
    let end = in_use * CONNECTOR_WIDTH;
    let mut start = *looked * CONNECTOR_WIDTH;
    while start < end {
        let place = *looked;
        let next = start + CONNECTOR_WIDTH;
        match look_at(&connectors[start..next], looked, source, port) {
            Some(target) => return Some(Link { place, target }),
            None => start = next,
        }
    }
    None
}

// The next external input coupling of this owner, at this port, or None.
#[tactic(auto, using(crate::proofs::Searches::couplings))]
pub fn next_input(couplings: &[u64], from: usize, owner: u64, port: u64) -> Option<usize>
    ensures { result ≡ first_from (is_input couplings.now owner port) from (couplings_in couplings.now - from) }
{
    next_coupling(couplings, from, EXTERNAL_INPUT, owner, 3, port, port)
}

// The next external output coupling of this owner, from this component's port, or None.
#[tactic(auto, using(crate::proofs::Searches::couplings))]
pub fn next_output(
    couplings: &[u64],
    from: usize,
    owner: u64,
    source: u64,
    port: u64,
) -> Option<usize>
    ensures { result ≡ first_from (is_output couplings.now owner source port) from (couplings_in couplings.now - from) }
{
    next_coupling(couplings, from, EXTERNAL_OUTPUT, owner, 2, source, port)
}

// The next internal coupling of this owner, from this component's port, or None.
#[tactic(auto, using(crate::proofs::Searches::couplings))]
pub fn next_internal(
    couplings: &[u64],
    from: usize,
    owner: u64,
    source: u64,
    port: u64,
) -> Option<usize>
    ensures { result ≡ first_from (is_internal couplings.now owner source port) from (couplings_in couplings.now - from) }
{
    next_coupling(couplings, from, INTERNAL, owner, 2, source, port)
}

// Where a coupling leads. Words past the end read 0.
pub fn coupling_target(couplings: &[u64], row: usize) -> Target
    ensures { result ≡ target_in 6 4 couplings.now row }
{
    let start = row.saturating_mul(COUPLING_WIDTH);
    Target {
        id: words::word_at(couplings, start.saturating_add(4)),
        port: words::word_at(couplings, start.saturating_add(5)),
    }
}

// The next component of the Coupled with this id, or None.
#[tactic(auto, using(crate::proofs::Searches::children))]
pub fn next_component(models: &[u64], from: usize, owner: u64) -> Option<usize>
    ensures { result ≡ first_from (is_component models.now owner) from (rows_in models.now - from) }
{
    next_child(models, from, Some(owner))
}

// The next model without parent, or None.
#[tactic(auto, using(crate::proofs::Searches::children))]
pub fn next_parentless(models: &[u64], from: usize) -> Option<usize>
    ensures { result ≡ first_from (is_free models.now) from (rows_in models.now - from) }
{
    next_child(models, from, None)
}

// The next row with this id, or None.
#[tactic(auto, using(crate::proofs::Searches::ids))]
pub fn next_with_id(models: &[u64], from: usize, id: u64) -> Option<usize>
    ensures { result ≡ first_from (has_id models.now id) from (rows_in models.now - from) }
{
    let key = [Cell { at: 0, value: id }];
    words::next_row(models, MODEL_WIDTH, from, models.len() / MODEL_WIDTH, &key)
}
