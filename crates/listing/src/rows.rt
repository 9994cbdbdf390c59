// Prints the rows of a trace (docs/TRACE.md) from a block on.
use crate::course::Status;
use crate::input::Source;
use crate::out::Listing;
use crate::{input, room, say, steps};
use rules::Refusal;
use std::io;
use std::io::Stderr;
use trace_blocks::BLOCK_BYTES;

// More blocks than any file has.
const MOST_BLOCKS: u64 = 0x20_0000_0000_0000;

// More pieces than there can be of good blocks.
const MOST_PIECES: u64 = 0x1_0000_0000;

// How the reading goes: `number` is the next block's, counted from 0.
#[derive(Drop)]
struct Blocks<'p, 'b> {
    path: &'p [u8],
    decimal: bool,
    listing: Listing<'b>,
    number: u64,
}

pub(crate) fn print(rt: HostRuntime, path: &[u8]) -> Status {
    match input::open(rt, path) {
        Ok(mut source) => printed(rt, &mut source, path),
        Err(error) => {
            say::fail(rt, path, error);
            Status::Wrong
        }
    }
}

fn printed(rt: HostRuntime, source: &mut Source, path: &[u8]) -> Status {
    let mut buffer: room::Buffer = room::filled(0);
    let mut blocks = Blocks {
        path,
        decimal: input::has(rt, b'd'),
        listing: Listing::new(rt, &mut buffer),
        number: input::first_block(rt),
    };
    blocks.print(source);
    blocks.listing.status
}

// Passes over so many blocks: whether there are as many. The last of them is read, as one can go past the end of a file unnoticed.
fn pass(source: &mut Source, blocks: u64) -> io::Result<bool> {
    if MOST_BLOCKS < blocks {
        return Ok(false);
    }
    let is_past = 1 < blocks && source.skip(((blocks - 1) * 512) as i64);
    let left = if is_past { 1 } else { blocks };
    for _ in 0..left {
        let mut block = [0u8; BLOCK_BYTES];
        if source.fill(&mut block)? < BLOCK_BYTES {
            return Ok(false);
        }
    }
    Ok(true)
}

impl Blocks<'_, '_> {
    fn print(&mut self, source: &mut Source) {
        if let Err(error) = self.read(source) {
            say::fail(self.listing.rt, self.path, error);
            self.listing.status = Status::Wrong;
        }
        self.listing.flush();
    }

    fn read(&mut self, source: &mut Source) -> io::Result<()> {
        if pass(source, self.number)? {
            let mut piece: room::Piece = room::filled(0);
            return self.pieces(source, &mut piece);
        }
        self.bad(&[], true);
        Ok(())
    }

    // Piece by piece, up to the file's end. All but a piece's last byte are blocks, and that one is the next block's first.
    fn pieces(&mut self, source: &mut Source, piece: &mut [u8]) -> io::Result<()> {
        let Some(end) = piece.len().checked_sub(1) else {
            return Ok(());
        };
        let mut held = 0;
        for _ in 0..MOST_PIECES {
            let length = held + source.fill(&mut piece[held..])?;
            if length <= end {
                self.blocks(&piece[..length], true);
                return Ok(());
            }
            self.blocks(&piece[..end], false);
            if !self.listing.goes_on() {
                return Ok(());
            }
            piece[0] = piece[end];
            held = 1;
        }
        Ok(())
    }

    // The blocks of these bytes, up to a bad one. What is no whole block at their end is one that is cut short.
    fn blocks(&mut self, bytes: &[u8], ends: bool) {
        let mut left = bytes.len();
        for block in bytes.chunks(BLOCK_BYTES) {
            left = left.saturating_sub(block.len());
            self.block(block, ends && left == 0);
            if !self.listing.goes_on() {
                return;
            }
        }
    }

    fn block(&mut self, bytes: &[u8], ends: bool) {
        match trace_blocks::judge_block(trace_blocks::SIX, self.number, ends, bytes) {
            Some(count) => self.good(bytes, count),
            None => self.bad(bytes, ends),
        }
    }

    fn good(&mut self, bytes: &[u8], count: usize) {
        let mut rows = [0u64; 60];
        trace_blocks::read_numbers(bytes, &mut rows);
        steps::print_rows(&mut self.listing, &rows, count, self.decimal);
        self.number = self.number.saturating_add(1);
    }

    // The rows before a bad block are printed; then it is named.
    fn bad(&mut self, bytes: &[u8], ends: bool) {
        let number = self.number;
        let err = self.listing.rt.stderr();
        self.listing.status = Status::Refused(Refusal::BadBlock);
        self.listing.end_refused(Refusal::BadBlock);
        say::bytes(err, self.path);
        say::print(err, format_args!(": block {number}: "));
        why(err, bytes, number, ends);
        say::print(err, "\n");
    }
}

// What is wrong with a bad block of this number.
fn why(err: Stderr, block: &[u8], number: u64, ends: bool) {
    if block.is_empty() {
        return say::print(err, "the file ends before it");
    }
    if block.len() < BLOCK_BYTES {
        return say::print(err, "it is cut short");
    }
    let has = number_in(block);
    if has as u64 != number {
        return say::print(err, format_args!("its number is {has}"));
    }
    let count = trace_blocks::count_in(block);
    match count {
        1..=9 if !ends => say::print(err, "it is not full, and not the last"),
        1..=10 if !is_clear(block, 8 + 48 * count as usize) => {
            say::print(err, "a word that is not used is not 0")
        }
        1..=10 => say::print(err, "the sum of its words is wrong"),
        _ => say::print(err, format_args!("its count of rows is {count}")),
    }
}

// Word 0, the lowest byte first.
fn number_in(block: &[u8]) -> u32 {
    match block.first_chunk::<4>() {
        Some(bytes) => u32::from_le_bytes(*bytes),
        None => 0,
    }
}

// Every byte from a place on, up to the last word, is 0.
fn is_clear(block: &[u8], from: usize) -> bool {
    block
        .get(from..508)
        .is_none_or(|unused| unused.iter().all(|byte| *byte == 0))
}
