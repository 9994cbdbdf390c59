// A clock as people read it: in decimal, with at most six places after the point.
#![tactic(auto)]

ghost use Rattle.std.specs.Prelude.{◌≡◌, ◌*◌, ◌^◌, ◌≤◌, ◌<◌};
ghost use Rattle.std.specs.Float.{binary64};
ghost use Rattle.std.specs.Float.Ieee.{of_bits};
ghost use Rattle.times.proofs.Patterns.{limit};
ghost use Rattle.decimals.specs.Decimal.{million, nearest, millionths, placed, micros_of};

// How many of the last place are 1.
const MILLION: u64 = 1_000_000;

// The weight of an f64's leading digit, and the exponent's field with which its last digit is worth 1.
const LEADING: u64 = 0x10_0000_0000_0000;

const POINT: u64 = 1075;

// With more binary places than these a time is less than half of a millionth.
const MOST: u64 = 73;

// With no more binary places than these, a million times what stands after the point fits a word.
const FEW: u64 = 32;

// A million times an f64's digits has up to 73 bits: too many for a word. Without so many of the lowest it fits one.
const CUT: u64 = 31;

const HALF_WORD: u64 = 0x1_0000_0000;

// A number of ticks: `whole` before the point, and the six places after it, below 1,000,000.
#[derive(Clone, Copy)]
pub struct Micros {
    pub whole: u64,
    pub micros: u64,
}

// 2 to the power n.
fn power(n: u64) -> u64
    requires { n < 64 }
    ensures { result ≡ 2 ^ n }
{
    1 << n
}

// a / d to the nearest whole number, a tie to the even one.
fn nearest_of(a: u64, d: u64) -> u64
    requires { (a < 0x8000_0000_0000_0000) × (0 < d) × (d < 0x8000_0000_0000_0000) }
    ensures { result ≡ nearest a d }
{
    let quotient = a / d;
    let twice = a % d * 2;
    if twice < d {
        return quotient;
    }
    if d < twice {
        return quotient + 1;
    }
    quotient + quotient % 2
}

// digits / 2^places, with few places: the whole ticks apart. What is left may round to one tick more.
fn few_places(digits: u64, places: u64) -> Micros
    requires { (digits < 0x20_0000_0000_0000) × (places ≤ 32) }
    ensures { result ≡ placed (nearest (digits * million) (2 ^ places)) }
{
    let unit = power(places);
    let after = nearest_of(digits % unit * MILLION, unit);
    Micros {
        whole: digits / unit + after / MILLION,
        micros: after % MILLION,
    }
}

// digits / 2^places, with more of them: a million times the digits in units of 2^31, of which the last bit is set where there is a rest.
// A tie has no rest, and an even number of units, so this rounds as the whole does.
fn many_places(digits: u64, places: u64) -> Micros
    requires { (digits < 0x20_0000_0000_0000) × (32 < places) × (places ≤ 73) }
    ensures { result ≡ placed (nearest (digits * million) (2 ^ places)) }
{
    let low = digits % HALF_WORD * MILLION;
    let high = digits / HALF_WORD * MILLION + low / HALF_WORD;
    let mut units = high * 2;
    if low % HALF_WORD != 0 {
        units += 1;
    }
    let all = nearest_of(units, power(places - CUT));
    Micros {
        whole: all / MILLION,
        micros: all % MILLION,
    }
}

// The time that has these bits.
fn of_bits(bits: u64) -> Micros
    requires { bits ≤ limit }
    ensures { result ≡ placed (millionths (of_bits binary64 bits)) }
{
    let field = bits / LEADING;
    if field + MOST < POINT {
        return Micros {
            whole: 0,
            micros: 0,
        };
    }
    let digits = LEADING + bits % LEADING;
    if POINT <= field {
        return Micros {
            whole: digits * power(field - POINT),
            micros: 0,
        };
    }
    let places = POINT - field;
    if places <= FEW {
        few_places(digits, places)
    } else {
        many_places(digits, places)
    }
}

// The nearest number of millionths, a tie to the even one. What is no time is 0.
pub fn micros_of(time: f64) -> Micros
    ensures { result ≡ micros_of time }
{
    if !times::is_time(time) {
        return Micros {
            whole: 0,
            micros: 0,
        };
    }
    of_bits(times::bits_of(time))
}
