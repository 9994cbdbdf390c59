// One block of a trace on disk (docs/TRACE.md), both ways. Two words of 32 bits, low word first, are eight bytes, the lowest first:
// the code goes through a block by such pairs.
#![tactic(auto)]

ghost use Rattle.std.specs.Prelude.{◌≡◌, [], ◌∷◌, map, ◌+◌, ◌-◌, ◌*◌, ◌/◌, ◌%◌, ◌≤◌, ◌<◌, length, leb, eqb, true, ◌||◌};
ghost use Rattle.rules.specs.Base.{hold, every, from};
ghost use Rattle.words.specs.Laying.{zeros, laid};
ghost use Rattle.trace_blocks.specs.Blocks.{word_limit, is_kind, bytes_of, word_at, halves, sum, fills_block, can_write, written_block, judged, numbers_in};
ghost use Rattle.trace_blocks.specs.Pairs.{pair_at, numbers_out, count_out};

// What a kind of block says: numbers a row, rows a block at most, and word 126.
#[derive(Clone, Copy)]
pub struct BlockKind {
    pub width: usize,
    pub most: usize,
    pub mark: u32,
}

// A1's kind: rows of six numbers, ten a block, word 126 zero.
pub const SIX: BlockKind = BlockKind {
    width: 6,
    most: 10,
    mark: 0,
};

pub const BLOCK_BYTES: usize = 512;

const WORD_LIMIT: u64 = 0x1_0000_0000;

// The pair with the words 126 and 127.
const LAST_PAIR: usize = 63;

// How many numbers have room between the first pair and the last.
const MOST_NUMBERS: usize = 62;

// The words 2 * pair and 2 * pair + 1.
fn pair_at(block: &[u8], pair: usize) -> u64
    requires { pair * 8 + 8 ≤ length block.now }
    ensures { result ≡ pair_at block.now pair }
{
    let at = pair * 8;
    u64::from_le_bytes([
        block[at],
        block[at + 1],
        block[at + 2],
        block[at + 3],
        block[at + 4],
        block[at + 5],
        block[at + 6],
        block[at + 7],
    ])
}

fn put_pair(block: &mut [u8], pair: usize, number: u64)
    requires { pair * 8 + 8 ≤ length block.old }
    ensures { block.new ≡ laid (pair * 8) (bytes_of (halves (number ∷ []))) block.old }
{
    let at = pair * 8;
    block[at..at + 8].copy_from_slice(&number.to_le_bytes());
}

// Both words of a pair, added.
fn both(pair: u64) -> u64
    ensures { result ≡ pair % word_limit + pair / word_limit }
{
    pair % WORD_LIMIT + pair / WORD_LIMIT
}

#[tactic(auto, unfolding(crate::specs::Blocks::is_kind))]
fn is_kind(kind: BlockKind) -> bool
    ensures { result ≡ is_kind kind }
{
    let width = kind.width;
    let most = kind.most;
    1 <= width && 1 <= most && most <= MOST_NUMBERS / width
}

#[tactic(auto, unfolding(crate::specs::Blocks::fills_block))]
fn fills_block(kind: BlockKind, numbers: usize) -> bool
    requires { is_kind kind ≡ true }
    ensures { result ≡ fills_block kind numbers }
{
    let width = kind.width;
    1 <= numbers && numbers % width == 0 && numbers <= width * kind.most
}

#[tactic(auto, unfolding(crate::specs::Blocks::can_write))]
fn can_write(kind: BlockKind, numbers: usize, room: usize) -> bool
    ensures { result ≡ can_write kind numbers room }
{
    is_kind(kind) && fills_block(kind, numbers) && BLOCK_BYTES <= room
}

// The rows' numbers from the second pair on, and the sum of their words.
fn put_numbers(rows: &[u64], block: &mut [u8]) -> u64
    requires few { length rows.now ≤ 62 }
    requires room { 512 ≤ length block.old }
    ensures adds { result ≡ sum (halves rows.now) }
    ensures bounded { result ≤ 62 * 0x2_0000_0000 }
    ensures lays { block.new ≡ laid 8 (bytes_of (halves rows.now)) block.old }
{
    let mut sum: u64 = 0;
    for (i, number) in rows.iter().enumerate() {
        put_pair(block, i + 1, *number);
        sum += both(*number);
    }
    sum
}

fn clear(block: &mut [u8], start: usize, end: usize)
    requires { (start ≤ end) × (end ≤ length block.old) }
    ensures { block.new ≡ laid start (zeros (end - start)) block.old }
{
    block[start..end].fill(0);
}

// The words 126 and 127, by the sum of the words before them.
fn last_pair(mark: u32, sum: u64) -> u64
    requires { sum < 0x100_0000_0000 }
    ensures pairs { result ≡ mark + (word_limit - 1 - (sum + mark) % word_limit) * word_limit }
    ensures bounded { mark < word_limit }
{
    let wide_mark = mark as u64;
    wide_mark + (WORD_LIMIT - 1 - (sum + wide_mark) % WORD_LIMIT) * WORD_LIMIT
}

fn put_block(kind: BlockKind, number: u32, rows: &[u64], block: &mut [u8])
    requires { can_write kind (length rows.now) (length block.old) ≡ true }
    ensures { block.new ≡ written_block kind number rows.now block.old }
{
    let numbers = rows.len();
    let width = kind.width;
    let head = number as u64 + (numbers / width) as u64 * WORD_LIMIT;
    put_pair(block, 0, head);
    let sum = both(head) + put_numbers(rows, block);
    clear(block, numbers * 8 + 8, LAST_PAIR * 8);
    put_pair(block, LAST_PAIR, last_pair(kind.mark, sum));
}

// The block of these rows, which stand number after number, at the start of what is lent for it. False, and nothing is written,
// where they are no rows of one block, or there is no room.
#[tactic(auto, unfolding(crate::specs::Blocks::written_block))]
pub fn write_block(kind: BlockKind, number: u32, rows: &[u64], block: &mut [u8]) -> bool
    ensures answers { result ≡ can_write kind (length rows.now) (length block.old) }
    ensures leaves { block.new ≡ written_block kind number rows.now block.old }
{
    if can_write(kind, rows.len(), block.len()) {
        put_block(kind, number, rows, block);
        return true;
    }
    false
}

fn sum_of(block: &[u8]) -> u64
    requires { 512 ≤ length block.now }
    ensures { result ≡ sum (map (word_at block.now) (from 0 128)) }
{
    let mut sum: u64 = 0;
    for pair in 0..64 {
        sum += both(pair_at(block, pair));
    }
    sum
}

// Every word up to word 125 is zero, from a pair on.
fn is_clear(block: &[u8], first: usize) -> bool
    requires { 512 ≤ length block.now }
    ensures { result ≡ every (λ i. eqb (word_at block.now i) 0) (from (2 * first) (126 - 2 * first)) }
{
    for pair in first..LAST_PAIR {
        if pair_at(block, pair) != 0 {
            return false;
        }
    }
    true
}

// The count is one that a block may have; where more blocks follow, the one of a full block.
fn count_fits(kind: BlockKind, count: u64, ends: bool) -> bool
    ensures { result ≡ hold (leb 1 count ∷ leb count kind.most ∷ (ends || eqb count kind.most) ∷ []) }
{
    let most = kind.most as u64;
    1 <= count && count <= most && (ends || count == most)
}

// How many rows a block has that stands in a file as this number, and ends it or not; none where it is no block of that kind.
pub fn judge_block(kind: BlockKind, number: u64, ends: bool, block: &[u8]) -> Option<usize>
    ensures { result ≡ judged kind number ends block.now }
{
    if !is_kind(kind) {
        return None;
    }
    if block.len() != BLOCK_BYTES {
        return None;
    }
    let head = pair_at(block, 0);
    let count = head / WORD_LIMIT;
    if head % WORD_LIMIT != number {
        return None;
    }
    if !count_fits(kind, count, ends) {
        return None;
    }
    let width = kind.width;
    if !is_clear(block, width * (count as usize) + 1) {
        return None;
    }
    if pair_at(block, LAST_PAIR) % WORD_LIMIT != kind.mark as u64 {
        return None;
    }
    if sum_of(block) % WORD_LIMIT != WORD_LIMIT - 1 {
        return None;
    }
    Some(count as usize)
}

fn copy_numbers(block: &[u8], rows: &mut [u64])
    requires room { 512 ≤ length block.now }
    requires few { length rows.old ≤ 62 }
    ensures { rows.new ≡ numbers_in (length rows.old) block.now }
{
    for (i, number) in rows.iter_mut().enumerate() {
        *number = pair_at(block, i + 1);
    }
}

// The numbers of a block's rows, so many as are lent room for. Where these are more than a block holds, or it is shorter than a block, nothing is written.
#[tactic(auto, unfolding(crate::specs::Pairs::numbers_out))]
pub fn read_numbers(block: &[u8], rows: &mut [u64])
    ensures { rows.new ≡ numbers_out block.now rows.old }
{
    if BLOCK_BYTES <= block.len() && rows.len() <= MOST_NUMBERS {
        copy_numbers(block, rows);
    }
}

// How many rows a block says that it has: word 1. Of a shorter block, 0.
pub fn count_in(block: &[u8]) -> u64
    ensures { result ≡ count_out block.now }
{
    if BLOCK_BYTES <= block.len() {
        pair_at(block, 0) / WORD_LIMIT
    } else {
        0
    }
}
