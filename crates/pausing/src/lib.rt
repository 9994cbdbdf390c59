// A run that is paused: two calls of jt_step_n on one state buffer and one output, proved to answer and to leave what one call does.
#![tactic(auto)]

ghost use Rattle.std.specs.Prelude.{◌+◌, ◌<◌, ◌^◌, ◌≡◌};
ghost use Rattle.storing.specs.State.{over};
ghost use Rattle.host.specs.Numbers.{reported};
ghost use Rattle.pausing.specs.Pausing.{jt_step_n, steps_told, rows_told, end_told, unless_refused, up_to_end, paused_after};

// After how many of `count` steps to pause: `pause`, or all of them where that is more.
fn paused_after(pause: u64, count: u64) -> u64
    ensures { result ≡ paused_after pause count }
{
    if count < pause { count } else { pause }
}

// The number of the whole: the first part's refusal, or the second part's number.
fn whole_number(first: u32, second: u32) -> u32
    ensures { result ≡ unless_refused first first second }
{
    if first == 0 { second } else { first }
}

// How the whole ended: as the first part did where it was refused, else as the second. `number` is the first part's.
fn whole_end(number: u32, first: u64, second: u64) -> u64
    ensures { result ≡ unless_refused number first second }
{
    if number == 0 { second } else { first }
}

// Two parts' reports as one.
fn add_up(number: u32, first: &[u64; 3], second: &[u64; 3], report: &mut [u64; 3])
    requires { (steps_told first.now + steps_told second.now < 2 ^ 64) × (rows_told first.now + rows_told second.now < 2 ^ 64) }
    ensures { report.new ≡ reported (steps_told first.now + steps_told second.now) (rows_told first.now + rows_told second.now) (unless_refused number (end_told first.now) (end_told second.now)) report.old }
{
    report[0] = first[0] + second[0];
    report[1] = first[1] + second[1];
    report[2] = whole_end(number, first[2], second[2]);
}

// `count` steps with a pause after `pause` of them, or after all where that is more: number, report, output and state of jt_step_n with `count`. Beyond the state's end stands what the pause left there.
pub fn step_n_paused(
    state: &mut [u64],
    services: &[f64],
    count: u64,
    pause: u64,
    rows: &mut [u64],
    report: &mut [u64; 3],
) -> u32
    ensures answers { result ≡ (jt_step_n services.now count state.old rows.old report.old).number }
    ensures tells { report.new ≡ (jt_step_n services.now count state.old rows.old report.old).report }
    ensures lays { rows.new ≡ (jt_step_n services.now count state.old rows.old report.old).rows }
    ensures leaves { up_to_end state.new ≡ up_to_end (jt_step_n services.now count state.old rows.old report.old).state }
    ensures words { state.new ≡ over (up_to_end (jt_step_n services.now count state.old rows.old report.old).state) (jt_step_n services.now (paused_after pause count) state.old rows.old report.old).state }
{
    let mut first = [0; 3];
    let mut second = [0; 3];
    let before = paused_after(pause, count);
    let number = host::jt_step_n(state, services, before, rows, &mut first);
    let next_row = first[1] as usize * 6;
    let later = host::jt_step_n(
        state,
        services,
        count - before,
        &mut rows[next_row..],
        &mut second,
    );
    add_up(number, &first, &second, report);
    whole_number(number, later)
}
