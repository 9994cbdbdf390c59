// Times: an `f64` with its sign bit clear and a value of at most 2^60. A timer is a time or +infinity.
#![tactic(auto)]

ghost use Rattle.std.specs.Prelude.{◌≡◌};
ghost use Rattle.std.specs.Float.{binary64};
ghost use Rattle.std.specs.Float.Ieee.{sub, to_bits};
ghost use Rattle.times.specs.Time as Time;
ghost use Rattle.times.specs.Time.{is_time, is_timer, least_of};
ghost use Rattle.times.specs.Answers.{time_of_bits, timer_of_bits, later_of};

// +infinity, the timer that never runs out.
pub fn never() -> f64
    ensures { result ≡ Time.never }
{
    f64::from_bits(0x7FF0_0000_0000_0000)
}

// The bits of any f64. `to_bits` leaves a NaN's open, so one pattern is fixed for it.
pub fn bits_of(x: f64) -> u64
    ensures { result ≡ to_bits binary64 x }
{
    if x != x {
        return 0x7FF8_0000_0000_0000;
    }
    f64::to_bits(x)
}

// Whether x is a time. By the bits, since -0.0 compares as 0.0 does.
pub fn is_time(x: f64) -> bool
    ensures { result ≡ is_time x }
{
    bits_of(x) <= 0x43B0_0000_0000_0000
}

// Whether x is a time or +infinity.
pub fn is_timer(x: f64) -> bool
    ensures { result ≡ is_timer x }
{
    if is_time(x) {
        return true;
    }
    x == never()
}

// The time that has these bits; none where they are those of no time.
pub fn time_of_bits(bits: u64) -> Option<f64>
    ensures { result ≡ time_of_bits bits }
{
    if bits <= 0x43B0_0000_0000_0000 {
        Some(f64::from_bits(bits))
    } else {
        None
    }
}

// The timer that has these bits, or none.
pub fn timer_of_bits(bits: u64) -> Option<f64>
    ensures { result ≡ timer_of_bits bits }
{
    if bits == 0x7FF0_0000_0000_0000 {
        return Some(never());
    }
    match time_of_bits(bits) {
        Some(x) => Some(x),
        None => None,
    }
}

// The smaller of two timers: a where they are equal.
pub fn least(a: f64, b: f64) -> f64
    ensures { result ≡ least_of a b }
{
    if b < a { b } else { a }
}

// What is left of a timer: the timer less the advance, rounded once.
pub fn after(timer: f64, advance: f64) -> f64
    ensures { result ≡ sub binary64 timer advance }
{
    timer - advance
}

// The clock plus the advance, rounded once; none where that is no time.
pub fn advance_clock(clock: f64, advance: f64) -> Option<f64>
    ensures { result ≡ later_of clock advance }
{
    let next = clock + advance;
    if is_time(next) { Some(next) } else { None }
}
