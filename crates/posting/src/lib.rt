// A new simulation laid into a lent state: `post`, and what `put` leaves. Layout: docs/LAYOUT.md.
#![tactic(auto)]

ghost use Rattle.std.specs.Prelude.{◌≡◌, [], ◌∷◌, ◌++◌, ◌+◌, ◌*◌, ◌-◌, ◌/◌, ◌≤◌, length, take};
ghost use Rattle.rules.specs.Intake.{intake, taken_in};
ghost use Rattle.rules.specs.Layout.{lent};
ghost use Rattle.memory.specs.Words.{head_at};
ghost use Rattle.lookup.specs.Inside.{tail_at, table_in};
ghost use Rattle.views.specs.World.{end_of};
ghost use Rattle.rerunning.specs.Running.{Stored, sim_of};
ghost use Rattle.storing.specs.State.{timer_word, own_width, heads, zeros, over, laid_state};
ghost use Rattle.storing.specs.Lent.{answered, post_in, left_anew};
ghost use Rattle.posting.specs.Laying.{laid, numbered, new_from, new_rows, widths, fresh_words, table_words, front_words, Passes, Room, Fits, renewed};

use rules::Refusal;

// Three words from `at` on.
fn lay_three(state: &mut [u64], at: usize, first: u64, second: u64, third: u64)
    requires { at + 3 ≤ length state.old }
    ensures { state.new ≡ laid at (first ∷ second ∷ third ∷ []) state.old }
{
    state[at] = first;
    state[at + 1] = second;
    state[at + 2] = third;
}

// The first n of these words, from `at` on.
fn lay_words(state: &mut [u64], at: usize, words: &[u64], n: usize)
    requires { (n ≤ length words.now) × (at + n ≤ length state.old) }
    ensures { state.new ≡ laid at (take n words.now) state.old }
{
    copying::copy(&mut state[at..], words, 0, n);
}

// Zeros from `start` to before `end`.
fn clear(state: &mut [u64], start: usize, end: usize)
    requires { (start ≤ end) × (end ≤ length state.old) }
    ensures { state.new ≡ laid start (zeros (end - start)) state.old }
{
    state[start..end].fill(0);
}

// A new row's timer by the number of its kind: infinite, and 0 for a Coupled.
fn timer_of(kind: u64) -> u64
    ensures { result ≡ timer_word (numbered kind) }
{
    if kind == 4 { 0 } else { 0x7FF0_0000_0000_0000 }
}

// How many words of its own a row has, by the number of its kind.
fn width_of(kind: u64) -> usize
    ensures { result ≡ own_width (numbered kind) }
{
    if kind == 3 { 192 } else { 64 }
}

// A new row's head.
fn lay_head(state: &mut [u64], at: usize, kind: u64, begin: usize)
    requires { at + 4 ≤ length state.old }
    ensures { state.new ≡ laid at (heads begin (numbered kind ∷ [])) state.old }
{
    let timer = timer_of(kind);
    lay_three(state, at, 0, timer, 0);
    state[at + 3] = begin as u64;
}

// The heads of new rows from `at` on; where the rows' own words end, counted from the changing part's start.
fn lay_heads(state: &mut [u64], at: usize, models: &[u64], rows: usize) -> usize
    requires { (rows ≤ 64) × (rows * 10 ≤ length models.now) × (at + rows * 4 ≤ length state.old) }
    ensures ends { result ≡ head_at rows + widths (new_from models.now 0 rows) }
    ensures lays { state.new ≡ laid at (heads (head_at rows) (new_from models.now 0 rows)) state.old }
{
    let mut begin = rows * 4 + 3;
    for row in 0..rows {
        let kind = models[row * 10 + 1];
        lay_head(state, at + row * 4, kind, begin);
        begin += width_of(kind);
    }
    begin
}

// The changing part from `at` on, up to its messages, with new rows; where it ends.
fn lay_fresh(
    state: &mut [u64],
    at: usize,
    models: &[u64],
    active: u64,
    clock: u64,
    place: u64,
) -> usize
    requires { (length models.now ≤ 640) × (at + head_at (length models.now / 10) + length models.now / 10 * 192 ≤ length state.old) }
    ensures ends { result ≡ at + length (fresh_words active clock place (new_rows models.now)) }
    ensures lays { state.new ≡ laid at (fresh_words active clock place (new_rows models.now)) state.old }
{
    lay_three(state, at, active, clock, place);
    let rows = models.len() / 10;
    let end = lay_heads(state, at + 3, models, rows);
    clear(state, at + 3 + rows * 4, at + end);
    at + end
}

// The counts and the table's words; where they end.
fn lay_table(state: &mut [u64], models: &[u64], connectors: &[u64], couplings: &[u64]) -> usize
    requires { 3 + length models.now + length connectors.now + length couplings.now ≤ length state.old }
    ensures ends { result ≡ length (table_words models.now connectors.now couplings.now) }
    ensures lays { state.new ≡ over (table_words models.now connectors.now couplings.now) state.old }
{
    let rows = models.len();
    let links = connectors.len();
    let inner = couplings.len();
    lay_three(
        state,
        0,
        (rows / 10) as u64,
        (links / 4) as u64,
        (inner / 6) as u64,
    );
    lay_words(state, 3, models, rows);
    lay_words(state, 3 + rows, connectors, links);
    lay_words(state, 3 + rows + links, couplings, inner);
    3 + rows + links + inner
}

// A state with new rows, up to its messages; where it ends.
fn lay(
    state: &mut [u64],
    models: &[u64],
    connectors: &[u64],
    couplings: &[u64],
    active: u64,
    clock: u64,
    place: u64,
) -> usize
    requires { Fits models.now connectors.now couplings.now state.old }
    ensures ends { result ≡ length (front_words models.now connectors.now couplings.now active clock place) }
    ensures lays { state.new ≡ over (front_words models.now connectors.now couplings.now active clock place) state.old }
{
    let tail = lay_table(state, models, connectors, couplings);
    lay_fresh(state, tail, models, active, clock, place)
}

// What intake says of a table, as an answer: done, 1, 2 or 3.
pub fn judged(models: &[u64], connectors: &[u64], couplings: &[u64]) -> Result<(), Refusal>
    ensures { result ≡ answered (taken_in (intake (lent models.now connectors.now couplings.now))) }
{
    table::intake(models, connectors, couplings)?;
    Ok(())
}

// `post`: a new simulation of the table into the lent state. 20 where the buffer is too short for it, then table intake.
pub fn post(
    models: &[u64],
    connectors: &[u64],
    couplings: &[u64],
    state: &mut [u64],
) -> Result<(), Refusal>
    ensures answers { result ≡ answered (post_in models.now connectors.now couplings.now state.old) }
    ensures leaves { state.new ≡ left_anew models.now connectors.now couplings.now state.old (post_in models.now connectors.now couplings.now state.old) }
{
    let needed = storing::state_words(models.len(), connectors.len(), couplings.len());
    if state.len() < needed {
        return Err(Refusal::BadState);
    }
    judged(models, connectors, couplings)?;
    lay(state, models, connectors, couplings, 0, 0, 0);
    Ok(())
}

// Where the active messages of a lent state begin.
fn messages_at(state: &[u64]) -> usize
    requires { Stored state.now }
    ensures { result ≡ tail_at state.now + end_of (table_in state.now) }
{
    let tail = lookup::tail_at(state);
    tail + copying::end_of(state, &state[tail..])
}

// The state anew, with messages that it held before.
fn lay_anew(
    state: &mut [u64],
    models: &[u64],
    connectors: &[u64],
    couplings: &[u64],
    active: usize,
    clock: u64,
    place: u64,
    messages: &[u64; 1536],
)
    requires { Fits models.now connectors.now couplings.now state.old × (active ≤ 256) }
    ensures { state.new ≡ over (front_words models.now connectors.now couplings.now active clock place ++ take (active * 6) messages.now) state.old }
{
    let end = lay(
        state,
        models,
        connectors,
        couplings,
        active as u64,
        clock,
        place,
    );
    lay_words(state, end, messages, active * 6);
}

// What `put` leaves: the table over the old one, and new rows. Messages, clock and place stay. The caller has checked the state, the room and the table.
pub fn replace(state: &mut [u64], models: &[u64], connectors: &[u64], couplings: &[u64])
    requires { Stored state.old × Passes models.now connectors.now couplings.now × Room models.now connectors.now couplings.now state.old }
    ensures { state.new ≡ over (laid_state models.now connectors.now couplings.now (renewed models.now connectors.now couplings.now (sim_of state.old))) state.old }
{
    let tail = lookup::tail_at(state);
    let active = state[tail] as usize;
    let clock = state[tail + 1];
    let place = state[tail + 2];
    let at = messages_at(state);
    let mut messages = [0u64; 1536];
    copying::copy(&mut messages, state, at, active * 6);
    lay_anew(
        state, models, connectors, couplings, active, clock, place, &messages,
    );
}
