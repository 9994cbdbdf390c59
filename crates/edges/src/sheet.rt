// Words that stay from line to line: the stopwatch's jobs, or a table, its models from 0 on, connectors from 1000, couplings from 2100.
use words::word_at;

pub(crate) type Sheet = [u64; 4096];

// Lays words down from a place on, so many places apart.
pub(crate) fn lay(sheet: &mut Sheet, asked: &[u64]) {
    let apart = word_at(asked, 2);
    let mut at = word_at(asked, 1);
    for word in asked.iter().skip(3) {
        words::push(sheet, at as usize, *word);
        at = at.wrapping_add(apart);
    }
}

// Lays one word down so many times, from a place on, so many places apart.
pub(crate) fn fill(sheet: &mut Sheet, asked: &[u64]) {
    let apart = word_at(asked, 2);
    let word = word_at(asked, 4);
    let mut at = word_at(asked, 1);
    for _ in 0..word_at(asked, 3) {
        words::push(sheet, at as usize, word);
        at = at.wrapping_add(apart);
    }
}

// How many words differ.
pub(crate) fn changes(before: &[u64], after: &[u64]) -> usize {
    before
        .iter()
        .enumerate()
        .filter(|(place, word)| **word != word_at(after, *place))
        .count()
}

// Places and their words, one after the other.
pub(crate) fn change(sheet: &mut Sheet, pairs: &[u64]) {
    let (pairs, _) = pairs.as_chunks::<2>();
    for [place, word] in pairs {
        words::push(sheet, *place as usize, *word);
    }
}
