// A run in place: step after step, and the rows laid down.
#![tactic(auto)]

ghost use Rattle.std.specs.Prelude.{◌≡◌, ◌++◌, ℕ, ◌+◌, ◌*◌, ◌≤◌, length, take, drop, T};
ghost use Rattle.times.specs.Time.{is_timer};
ghost use Rattle.rules.specs.Layout.{room_in, laid_down};
ghost use Rattle.rules.specs.Ends.{All};
ghost use Rattle.rules.proofs.Worlds.{MessageFits};
ghost use Rattle.rules.specs.Calls as Calls;
ghost use Rattle.memory.specs.Words.{word_at};
ghost use Rattle.lookup.specs.Inside.{table_in};
ghost use Rattle.views.specs.World.{end_of};
ghost use Rattle.views.specs.Messages.{messages_in};
ghost use Rattle.stepping.specs.Simulating.{sim_in, Sound};
ghost use Rattle.rerunning.specs.Running.{Stored, sim_of};
ghost use Rattle.engine.specs.Telling.{Told};

use rules::Refusal;

// How a run ended.
// kept: its four ends are those of the rules' `Calls.End`, one for one, and none of them is an error of the report
#[derive(Clone, Copy)]
pub enum End {
    Done,
    Reached,
    Spent,
    Refused(Refusal),
}

// The number of completed steps, the number of rows laid down, and how the run ended.
#[derive(Clone, Copy)]
pub struct Report {
    pub steps: u64,
    pub written: usize,
    pub end: End,
}

// The lent state's simulation into the words, which are all 0; where the active messages begin in them.
fn begin(state: &[u64], mem: &mut [u64]) -> usize
    requires { Stored state.now × (end_of (table_in state.now) + 2816 ≤ length mem.old) × ((p : ℕ) → word_at mem.old p ≡ 0) }
    ensures begins { result ≡ end_of (table_in state.now) }
    ensures loads { sim_in (table_in state.now) mem.new ≡ sim_of state.now }
    ensures sound { Sound (table_in state.now) mem.new }
{
    let tail = lookup::tail_at(state);
    let active = copying::end_of(state, &state[tail..]);
    rerunning::load_fresh(state, mem, active);
    active
}

// A step's messages behind the rows already laid down.
fn collect(rows: &mut [u64], mem: &[u64], written: usize, active: usize, count: usize)
    requires { (count ≤ 256) × (active + 1536 ≤ length mem.now) × (written * 6 + count * 6 ≤ length rows.old) × All MessageFits (messages_in active count mem.now) }
    ensures { rows.new ≡ take (written * 6) rows.old ++ laid_down (messages_in active count mem.now) (drop (written * 6) rows.old) }
{
    copying::lay_down(&mut rows[written * 6..], mem, active, count);
}

// The rules' run with a limit that may be infinite: steps until the clock is no longer below `until`, or `bound` steps are done, or one is refused. It says end, steps and rows; the words hold the simulation left. They are all 0 at first.
pub fn run(
    state: &[u64],
    services: &[f64],
    mem: &mut [u64],
    until: f64,
    bound: u64,
    rows: &mut [u64],
) -> Report
    requires { Stored state.now × (end_of (table_in state.now) + 2816 ≤ length mem.old) × ((p : ℕ) → word_at mem.old p ≡ 0) × T (is_timer until) }
    ensures told { Told result (Calls.steps_until services.now until (room_in rows.old) bound (sim_of state.now)) (table_in state.now) mem.new rows.old rows.new }
{
    let active = begin(state, mem);
    let room = rows.len() / 6;
    let mut written = 0;
    for steps in 0..bound {
        match rerunning::next_step(state, services, mem, active, until, steps, room - written) {
            Ok(Some(count)) => {
                collect(rows, mem, written, active, count);
                written += count;
            }
            Ok(None) => return Report {
                steps: steps + 1,
                written,
                end: End::Reached,
            },
            Err(refusal) => return Report {
                steps,
                written,
                end: End::Refused(refusal),
            },
        }
    }
    Report {
        steps: bound,
        written,
        end: End::Spent,
    }
}
