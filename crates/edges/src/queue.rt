// Queues in lent words, and the search for a row. The words stand at the end of the line.
use std::io;
use words::{Cell, word_at};

// The four words of a queue.
fn queue_of(asked: &[u64]) -> [u64; 4] {
    [
        word_at(asked, 3),
        word_at(asked, 4),
        word_at(asked, 5),
        word_at(asked, 6),
    ]
}

fn say_queue(rt: &impl Print, queue: [u64; 4]) -> io::Result<()> {
    let [first, second, third, fourth] = queue;
    print!(rt; ": {first} {second} {third} {fourth}")
}

// So many words are held, and one comes.
pub(crate) fn push(rt: &impl Print, asked: &[u64]) -> io::Result<()> {
    let mut queue = queue_of(asked);
    words::push(&mut queue, word_at(asked, 1) as usize, word_at(asked, 2));
    say_queue(rt, queue)
}

// So many words are held, and so many go.
pub(crate) fn move_up(rt: &impl Print, asked: &[u64]) -> io::Result<()> {
    let mut queue = queue_of(asked);
    let held = word_at(asked, 1) as usize;
    let gone = word_at(asked, 2) as usize;
    words::move_up(&mut queue, held, gone);
    say_queue(rt, queue)
}

fn cell_of(at: u64, value: u64) -> Cell {
    Cell {
        at: at as usize,
        value,
    }
}

fn key_of(asked: &[u64]) -> [Cell; 4] {
    [
        cell_of(word_at(asked, 4), word_at(asked, 5)),
        cell_of(word_at(asked, 6), word_at(asked, 7)),
        cell_of(word_at(asked, 8), word_at(asked, 9)),
        cell_of(word_at(asked, 10), word_at(asked, 11)),
    ]
}

pub(crate) fn next_row(rt: &impl Print, asked: &[u64]) -> io::Result<()> {
    let Some(words) = asked.get(12..) else {
        return Ok(());
    };
    let width = word_at(asked, 1) as usize;
    let from = word_at(asked, 2) as usize;
    let rows = word_at(asked, 3) as usize;
    match words::next_row(words, width, from, rows, &key_of(asked)) {
        Some(row) => print!(rt; ": row {row}"),
        None => rt.print(": nothing"),
    }
}

pub(crate) fn word(rt: &impl Print, asked: &[u64]) -> io::Result<()> {
    let Some(words) = asked.get(2..) else {
        return Ok(());
    };
    let word = word_at(words, word_at(asked, 1) as usize);
    print!(rt; ": {word}")
}
