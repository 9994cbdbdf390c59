// The words of a lent state into the words that a run works on, and its messages into the rows of an output.
#![tactic(auto)]

ghost use Rattle.std.specs.Prelude.{◌≡◌, ◌+◌, ◌*◌, ◌≤◌, ◌<◌, length};
ghost use Rattle.rules.specs.Layout.{laid_down};
ghost use Rattle.rules.specs.Table.{kind_at};
ghost use Rattle.rules.specs.Ends.{All};
ghost use Rattle.rules.proofs.Worlds.{MessageFits};
ghost use Rattle.memory.specs.Words.{head_at, width_of};
ghost use Rattle.views.specs.World.{end_of, Laid};
ghost use Rattle.views.specs.Messages.{messages_in};
ghost use Rattle.lookup.specs.Inside.{Inside, table_in};
ghost use Rattle.copying.specs.Copied.{copied};
ghost use Rattle.copying.specs.Sparing.{Brought, Alike, Lends};

use table::Kind;

// n words of src, from `start` on, to the start of dst. All beyond stays.
pub fn copy(dst: &mut [u64], src: &[u64], start: usize, n: usize)
    requires { (start + n ≤ length src.now) × (n ≤ length dst.old) }
    ensures { dst.new ≡ copied start n src.now dst.old }
{
    // kept: with `copy_from_slice`, here and below, a call takes longer, and the C library needs memmove of whoever links it
    for k in 0..n {
        dst[k] = src[start + k];
    }
}

// The `count` messages that stand from `active` on, as rows from the start of an output. All beyond stays.
pub fn lay_down(rows: &mut [u64], mem: &[u64], active: usize, count: usize)
    requires { (count ≤ 256) × (active + 1536 ≤ length mem.now) × (count * 6 ≤ length rows.old) × All MessageFits (messages_in active count mem.now) }
    ensures { rows.new ≡ laid_down (messages_in active count mem.now) rows.old }
{
    copy(rows, mem, active, count * 6);
}

// How many words of its own a row has.
fn width_of(state: &[u64], row: usize) -> usize
    requires { Inside state.now × (row < length (table_in state.now).rows) }
    ensures { result ≡ width_of (kind_at (table_in state.now) row) }
{
    match lookup::kind_of(state, row) {
        Kind::Processor(_) | Kind::Batcher(_) | Kind::Coupled => 64,
        Kind::Stopwatch(_) => 192,
    }
}

// Where the rows' own words end, and the active messages begin.
pub fn end_of(state: &[u64], mem: &[u64]) -> usize
    requires { Inside state.now × Laid (table_in state.now) mem.now }
    ensures { result ≡ end_of (table_in state.now) }
{
    let rows = lookup::row_count(state);
    if rows == 0 {
        return 3;
    }
    let last = rows - 1;
    let begin = memory::begin_at(mem, last);
    let width = width_of(state, last);
    begin + width
}

// The words from `from` to before `to`.
fn copy_between(dst: &mut [u64], src: &[u64], from: usize, to: usize)
    requires { (from ≤ to) × (to ≤ length src.now) × (to ≤ length dst.old) }
    ensures { Brought from to src.now dst.old dst.new }
{
    for k in from..to {
        dst[k] = src[k];
    }
}

// At least as many places of a column as the one or the other uses, by fours: a machine copies four words in one turn of a loop.
fn either_held(a: u64, b: u64) -> usize
    requires { (a ≤ 64) × (b ≤ 64) }
    ensures { (a ≤ result) × (b ≤ result) × (result ≤ 64) }
{
    (a.max(b) as usize).next_multiple_of(4)
}

// A row's own words, in columns of 64 from `begin` to before `next`, of which at most the first `held` are in use in either.
fn copy_row(dst: &mut [u64], src: &[u64], begin: usize, next: usize, held: usize)
    requires { Alike begin next held src.now dst.old }
    ensures { Brought begin next src.now dst.old dst.new }
{
    if held == 0 {
        return;
    }
    if next - begin == 64 {
        copy_between(dst, src, begin, begin + held);
        return;
    }
    for at in (begin..next).step_by(64) {
        copy_between(dst, src, at, at + held);
    }
}

// All rows' own words, the last row's first: where one begins, the row before it ends.
fn copy_rows(dst: &mut [u64], src: &[u64], rows: usize, end: usize)
    requires { Lends rows end src.now dst.old }
    ensures { Brought (head_at rows) end src.now dst.old dst.new }
{
    let mut next = end;
    for row in (0..rows).rev() {
        let begin = memory::begin_at(src, row);
        let held = either_held(memory::held_at(src, row), memory::held_at(dst, row));
        copy_row(dst, src, begin, next, held);
        next = begin;
    }
}

// The whole copy of a simulation's changing part, made without the places that hold nothing in either. How many places it goes through is not said.
pub fn copy_held(dst: &mut [u64], src: &[u64], rows: usize, end: usize, count: usize)
    requires { Lends rows end src.now dst.old × (end + count * 6 ≤ length src.now) × (end + count * 6 ≤ length dst.old) }
    ensures { dst.new ≡ copied 0 (end + count * 6) src.now dst.old }
{
    copy_rows(dst, src, rows, end);
    copy_between(dst, src, 0, rows * 4 + 3);
    copy_between(dst, src, end, end + count * 6);
}
