// The changing part of a lent state, in place: a row's head, read and written. Layout: docs/LAYOUT.md.
#![tactic(auto)]

ghost use Rattle.std.specs.Prelude.{◌≡◌, ◌+◌, ◌≤◌, length, set, T};
ghost use Rattle.std.specs.Float.{binary64};
ghost use Rattle.std.specs.Float.Ieee.{of_bits};
ghost use Rattle.times.specs.Time.{is_timer};
ghost use Rattle.memory.specs.Words.{head_at, phase_in, timer_in, held_in, begin_in, headed};
ghost use Rattle.memory.specs.Answers.{answer_of};

use events::Taken;
use rules::Refusal;

// Whether what came was taken, or the number that it was refused with. What became of it is not told.
pub fn answer_of(taken: Result<Taken, Refusal>) -> Result<(), Refusal>
    ensures { result ≡ answer_of taken }
{
    match taken {
        Ok(_) => Ok(()),
        Err(refusal) => Err(refusal),
    }
}

// A row's phase word.
pub fn phase_at(mem: &[u64], row: usize) -> u64
    requires { head_at row + 4 ≤ length mem.now }
    ensures { result ≡ phase_in mem.now row }
{
    mem[row * 4 + 3]
}

// A row's timer, from its bits. They are those of a timer, so no NaN is read.
pub fn timer_at(mem: &[u64], row: usize) -> f64
    requires { (head_at row + 4 ≤ length mem.now) × T (is_timer (of_bits binary64 (timer_in mem.now row))) }
    ensures { result ≡ of_bits binary64 (timer_in mem.now row) }
{
    let head = row * 4 + 3;
    let bits = mem[head + 1];
    f64::from_bits(bits)
}

// How many a row holds.
pub fn held_at(mem: &[u64], row: usize) -> u64
    requires { head_at row + 4 ≤ length mem.now }
    ensures { result ≡ held_in mem.now row }
{
    let head = row * 4 + 3;
    mem[head + 2]
}

// Where a row's own words begin.
pub fn begin_at(mem: &[u64], row: usize) -> usize
    requires { head_at row + 4 ≤ length mem.now }
    ensures { result ≡ begin_in mem.now row }
{
    let head = row * 4 + 3;
    mem[head + 3] as usize
}

// Writes the three words of a row that events change: phase, timer by its bits, number held. All else stays.
pub fn set_head(mem: &mut [u64], row: usize, phase: u64, timer: u64, held: u64)
    requires { head_at row + 4 ≤ length mem.old }
    ensures { mem.new ≡ headed row phase timer held mem.old }
{
    let head = row * 4 + 3;
    mem[head] = phase;
    mem[head + 1] = timer;
    mem[head + 2] = held;
}

// Writes a row's timer alone, by its bits. All else stays.
pub fn set_timer(mem: &mut [u64], row: usize, timer: u64)
    requires { head_at row + 4 ≤ length mem.old }
    ensures { mem.new ≡ set mem.old (head_at row + 1) timer }
{
    let first = row * 4 + 3;
    mem[first + 1] = timer;
}
