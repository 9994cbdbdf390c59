// A stopwatch's jobs in lent words: 64 places for names, 64 for starts, 64 for stops. A mark that is not made is infinite.
#![tactic(auto)]

ghost use Rattle.std.specs.Prelude.{◌≡◌, ◌+◌, ◌-◌, ◌<◌, ◌≤◌, length, nat_eq, slice_index};
ghost use Rattle.rules.specs.Models.{better};
ghost use Rattle.words.specs.Search.{first_from};
ghost use Rattle.marks.specs.Jobs.{whole_in, mark_fits, fit_in, fetched_in, mean_in};
ghost use Rattle.marks.specs.Marking.{column_of, with_name, mark_at, marked_in};
ghost use Rattle.marks.specs.Sweeps.{lasting_at, better_at, best_from, fetched_from, added_at, no_total, total_from, fit_at, fit_from};

use rules::Metric;
use words::Cell;

#[derive(Clone, Copy)]
pub enum Mark {
    Start,
    Stop,
}

// The words are cut short, or more than 64 names are said to be held.
#[derive(Clone, Copy)]
pub struct CutShort;

// Why a mark is not set.
#[derive(Clone, Copy)]
pub enum Unmarked {
    // A new name, and 64 are held.
    NoRoom,
    // The words are cut short, or more than 64 names are said to be held.
    CutShort,
}

// The best job so far.
#[derive(Clone, Copy)]
struct Best {
    name: u64,
    length: f64,
}

// The durations so far: their sum and their number.
#[derive(Clone, Copy)]
struct Total {
    sum: f64,
    count: u64,
}

// Whether the words have all 64 places, and no more than 64 names are said to be held.
fn whole(words: &[u64], held: u64) -> bool
    ensures { result ≡ whole_in held words.now }
{
    held <= 64 && 192 <= words.len()
}

// Stop less start, where both are times.
fn length_of(words: &[u64], k: usize) -> Option<f64>
    requires { (k < 64) × (192 ≤ length words.now) }
    ensures { result ≡ lasting_at words.now k }
{
    let start = times::time_of_bits(words[64 + k])?;
    let stop = times::time_of_bits(words[128 + k])?;
    Some(stop - start)
}

// Whether a duration takes the place of the best so far.
fn is_better(metric: Metric, new: f64, best: f64) -> bool
    ensures { result ≡ better metric new best }
{
    match metric {
        Metric::Minimum => new < best,
        Metric::Maximum => best < new,
    }
}

// The better of the best so far and the job at the place k.
fn better_of(words: &[u64], metric: Metric, best: Best, k: usize) -> Best
    requires { (k < 64) × (192 ≤ length words.now) }
    ensures { result ≡ better_at metric words.now best k }
{
    let Some(length) = length_of(words, k) else {
        return best;
    };
    if is_better(metric, length, best.length) {
        return Best {
            name: words[k],
            length,
        };
    }
    best
}

// The best of the first complete job and those after it.
fn best_from(words: &[u64], held: usize, metric: Metric, first: Best, after: usize) -> u64
    requires { (after ≤ held) × (held ≤ 64) × (192 ≤ length words.now) }
    ensures { result ≡ best_from metric words.now first after (held - after) }
{
    let mut best = first;
    for k in after..held {
        best = better_of(words, metric, best, k);
    }
    best.name
}

// The first complete job, and the best from there on.
fn fetch_from(words: &[u64], held: usize, metric: Metric) -> Option<u64>
    requires { (held ≤ 64) × (192 ≤ length words.now) }
    ensures { result ≡ fetched_from metric words.now 0 held }
{
    for k in 0..held {
        if let Some(length) = length_of(words, k) {
            let first = Best {
                name: words[k],
                length,
            };
            return Some(best_from(words, held, metric, first, k + 1));
        }
    }
    None
}

// The job at the place k added to the total, if it is complete.
fn add_to(words: &[u64], total: Total, k: usize) -> Total
    requires { (total.count ≤ k) × (k < 64) × (192 ≤ length words.now) }
    ensures { result ≡ added_at words.now total k }
{
    let Some(length) = length_of(words, k) else {
        return total;
    };
    Total {
        sum: total.sum + length,
        count: total.count + 1,
    }
}

// The sum of the complete durations, in order from 0, and their number.
fn total_of(words: &[u64], held: usize) -> Total
    requires { (held ≤ 64) × (192 ≤ length words.now) }
    ensures { result ≡ total_from words.now no_total 0 held }
{
    let mut total = Total { sum: 0.0, count: 0 };
    for k in 0..held {
        total = add_to(words, total, k);
    }
    total
}

// The first place from `from` on, of the first `held`, that has this name.
fn find(words: &[u64], from: usize, held: usize, name: u64) -> Option<usize>
    requires { held ≤ length words.now }
    ensures { result ≡ first_from (λ k. nat_eq (slice_index words.now k) name) from (held - from) }
{
    words::next_row(words, 1, from, held, &[Cell { at: 0, value: name }])
}

// Whether a word holds a time, or infinity.
fn is_mark(word: u64) -> bool
    ensures { result ≡ mark_fits word }
{
    times::timer_of_bits(word).is_some()
}

// The job at the place k fits, and no job after it has its name.
fn fits_at(words: &[u64], k: usize, held: usize) -> bool
    requires { (k < held) × (held ≤ 64) × (192 ≤ length words.now) }
    ensures { result ≡ fit_at words.now k (held - (k + 1)) }
{
    let name = words[k];
    name <= 0xFFFF_FFFF
        && is_mark(words[64 + k])
        && is_mark(words[128 + k])
        && find(words, k + 1, held, name).is_none()
}

// Whether each job fits, up to the first that does not.
fn fit_from(words: &[u64], held: usize) -> bool
    requires { (held ≤ 64) × (192 ≤ length words.now) }
    ensures { result ≡ fit_from words.now 0 held }
{
    for k in 0..held {
        if !fits_at(words, k, held) {
            return false;
        }
    }
    true
}

// Where the words of this mark start.
fn column(mark: Mark) -> usize
    ensures { result ≡ column_of mark }
{
    match mark {
        Mark::Start => 64,
        Mark::Stop => 128,
    }
}

// The clock on the job at the place k.
fn put_mark(words: &mut [u64], k: usize, mark: Mark, clock: f64)
    requires { (k < 64) × (192 ≤ length words.old) }
    ensures { words.new ≡ mark_at mark clock k words.old }
{
    let place = column(mark) + k;
    words[place] = times::bits_of(clock);
}

// A new job at the place k, with neither mark.
fn put_name(words: &mut [u64], k: usize, name: u64)
    requires { (k < 64) × (192 ≤ length words.old) }
    ensures { words.new ≡ with_name k name words.old }
{
    let unmade = times::bits_of(times::never());
    words[k] = name;
    words[64 + k] = unmade;
    words[128 + k] = unmade;
}

// Sets the clock on the job of that name, making it if it is new; how many names there are then. NoRoom for the 65th; CutShort where the words are cut short or more than 64 names are said to be held.
pub fn set_mark(
    words: &mut [u64],
    held: u64,
    name: u64,
    mark: Mark,
    clock: f64,
) -> Result<u64, Unmarked>
    ensures { (result, words.new) ≡ marked_in mark held name clock words.old }
{
    if !whole(words, held) {
        return Err(Unmarked::CutShort);
    }
    let end = held as usize;
    if let Some(k) = find(words, 0, end, name) {
        put_mark(words, k, mark, clock);
        return Ok(held);
    }
    if held == 64 {
        return Err(Unmarked::NoRoom);
    }
    put_name(words, end, name);
    put_mark(words, end, mark, clock);
    Ok(held + 1)
}

// The complete job of least or greatest stop less start, the first made among equals; or None, or CutShort.
pub fn fetch(words: &[u64], held: u64, metric: Metric) -> Result<Option<u64>, CutShort>
    ensures { result ≡ fetched_in metric held words.now }
{
    if !whole(words, held) {
        return Err(CutShort);
    }
    Ok(fetch_from(words, held as usize, metric))
}

// The mean of the complete durations; or None where none is complete, or CutShort.
pub fn mean(words: &[u64], held: u64) -> Result<Option<f64>, CutShort>
    ensures { result ≡ mean_in held words.now }
{
    if !whole(words, held) {
        return Err(CutShort);
    }
    let total = total_of(words, held as usize);
    let count = total.count;
    if count == 0 {
        return Ok(None);
    }
    let number = std::num::nearest_u64_to_f64(count);
    Ok(Some(total.sum / number))
}

// Whether the names and marks are what 20 asks.
pub fn fit(words: &[u64], held: u64) -> bool
    ensures { result ≡ fit_in held words.now }
{
    whole(words, held) && fit_from(words, held as usize)
}
