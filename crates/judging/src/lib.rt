// What a call left in lent words, against what was told of it.
#![tactic(auto)]

ghost use Rattle.std.specs.Prelude.{◌≡◌};
ghost use Rattle.judging.specs.Seeing.{is_same, alike, untouched, answer_seen, state_seen};

// What lent words hold before a call writes them.
pub const BEFORE: u64 = 0xa5a5_a5a5_a5a5_a5a5;

// Where a call differs first.
#[derive(Clone, Copy)]
pub enum Differs {
    Answer(usize),
    State(usize),
    Wrong,
}

pub fn is_same(seen: Result<(), Differs>) -> bool
    ensures { result ≡ is_same seen }
{
    seen.is_ok()
}

// The first place at which words differ from others; their length where they do not.
fn difference(words: &[u64], others: &[u64]) -> usize
    ensures { result ≡ alike words.now others.now }
{
    words
        .iter()
        .zip(others)
        .take_while(|(word, other)| **word == **other)
        .count()
}

// Whether no word was written.
fn is_untouched(words: &[u64]) -> bool
    ensures { result ≡ untouched words.now }
{
    words.iter().all(|word| *word == BEFORE)
}

// An answer of so many words: what was told begins with them, and behind them nothing was written.
// kept: the count stands beside the answer, since the words behind it are looked at too
pub fn answer(answer: &[u64], count: usize, said: &[u64]) -> Result<(), Differs>
    ensures { result ≡ answer_seen answer.now count said.now }
{
    if count == 0 || answer.len() < count {
        return Err(Differs::Wrong);
    }
    let place = difference(&answer[0..count], said);
    if place < count {
        return Err(Differs::Answer(place));
    }
    if !is_untouched(&answer[count..]) {
        return Err(Differs::Answer(count));
    }
    Ok(())
}

// A state: what was told begins with it.
pub fn state(state: &[u64], told: &[u64]) -> Result<(), Differs>
    ensures { result ≡ state_seen state.now told.now }
{
    let place = difference(state, told);
    if place < state.len() {
        return Err(Differs::State(place));
    }
    Ok(())
}
