// A trace on disk (docs/TRACE.md): rows as blocks of 512 bytes, and the rows of a file from a block on.
#![tactic(auto)]

ghost use Rattle.std.specs.Prelude.{◌≡◌, true, ◌+◌, ◌-◌, ◌*◌, ◌/◌, ◌%◌, ◌≤◌, min, length};
ghost use Rattle.words.specs.Laying.{over};
ghost use Rattle.trace_blocks.specs.Blocks.{six, is_kind};
ghost use Rattle.trace_files.specs.Files.{pieces, full_of, file_from, trace_bytes, write_trace, file_after, read_blocks, blocks_in, read_trace, rows_after};
ghost use Rattle.trace_files.specs.Answers.{written_is, is_read, read_is};

use rules::Refusal;
use trace_blocks::BlockKind;

// Why a file is not read: the first bad block's number (14), or the rows do not fit (13).
#[derive(Clone, Copy)]
pub enum ReadError {
    BadBlock(u64),
    NoRoom,
}

// How many rows a file has at most.
const MOST_TRACED: u64 = 0x1_0000_0000;

// How many pieces hold n, at `each` apiece.
fn pieces_of(each: usize, n: usize) -> usize
    requires { 1 ≤ each }
    ensures { result ≡ pieces each n }
{
    n.div_ceil(each)
}

// kept: `is_kind` stands in six contracts here and is no invariant of `BlockKind`, since `trace_blocks` takes what is no kind too and says that it has no block
// How many bytes the blocks of so many numbers of rows have; 0 where there are too many.
fn bytes_for(kind: BlockKind, numbers: usize) -> usize
    requires { is_kind kind ≡ true }
    ensures { result ≡ trace_bytes kind numbers }
{
    let width = kind.width;
    let count = numbers / width;
    if MOST_TRACED < count as u64 {
        return 0;
    }
    pieces_of(kind.most, count) * trace_blocks::BLOCK_BYTES
}

// Where the numbers end of a block that begins at `from`.
fn part_end(full: usize, from: usize, numbers: usize) -> usize
    requires { from ≤ numbers }
    ensures { result ≡ from + min full (numbers - from) }
{
    from + full.min(numbers - from)
}

// The blocks of whole rows, numbered from `start` on.
fn write_blocks(kind: BlockKind, rows: &[u64], start: u64, file: &mut [u8])
    requires kind { is_kind kind ≡ true }
    requires whole { length rows.now % kind.width ≡ 0 }
    requires few { start + pieces (full_of kind) (length rows.now) ≤ 0x1_0000_0000 }
    requires room { 512 * pieces (full_of kind) (length rows.now) ≤ length file.old }
    ensures { file.new ≡ over (file_from kind start rows.now) file.old }
{
    let full = kind.width * kind.most;
    let blocks = pieces_of(full, rows.len());
    for i in 0..blocks {
        let from = full * i;
        let end = part_end(full, from, rows.len());
        let at = trace_blocks::BLOCK_BYTES * i;
        let next = at + trace_blocks::BLOCK_BYTES;
        let number = (start + i as u64) as u32;
        trace_blocks::write_block(kind, number, &rows[from..end], &mut file[at..next]);
    }
}

// The rows as blocks numbered from `start` on, at the start of `file`: how many bytes, or 13 and nothing is written.
fn write_kind(kind: BlockKind, rows: &[u64], start: u64, file: &mut [u8]) -> Result<usize, Refusal>
    requires { is_kind kind ≡ true }
    ensures answers { result ≡ written_is (write_trace kind rows.now start (length file.old)) }
    ensures leaves { file.new ≡ file_after file.old (write_trace kind rows.now start (length file.old)) }
{
    let width = kind.width;
    let most = kind.most as u64;
    let count = rows.len() / width;
    if MOST_TRACED / most < start {
        return Err(Refusal::NoOutRoom);
    }
    if MOST_TRACED - most * start < count as u64 {
        return Err(Refusal::NoOutRoom);
    }
    let bytes = bytes_for(kind, rows.len());
    if file.len() < bytes {
        return Err(Refusal::NoOutRoom);
    }
    write_blocks(kind, &rows[0..count * width], start, file);
    Ok(bytes)
}

// The blocks from block `start` on: how many rows they have, into room for so many.
fn judge_blocks(kind: BlockKind, file: &[u8], start: usize, room: usize) -> Result<usize, ReadError>
    requires { is_kind kind ≡ true }
    ensures { result ≡ read_is kind (read_blocks kind file.now (blocks_in file.now - start) start room) }
{
    let blocks = pieces_of(trace_blocks::BLOCK_BYTES, file.len());
    let mut rows: usize = 0;
    for i in start..blocks {
        let at = trace_blocks::BLOCK_BYTES * i;
        let left = file.len() - at;
        if left < trace_blocks::BLOCK_BYTES {
            return Err(ReadError::BadBlock(i as u64));
        }
        let next = at + trace_blocks::BLOCK_BYTES;
        let ends = left == trace_blocks::BLOCK_BYTES;
        let Some(count) = trace_blocks::judge_block(kind, i as u64, ends, &file[at..next]) else {
            return Err(ReadError::BadBlock(i as u64));
        };
        if room - rows < count {
            return Err(ReadError::NoRoom);
        }
        rows += count;
    }
    Ok(rows)
}

// The rows of blocks that are good, and have room.
fn lay_blocks(kind: BlockKind, file: &[u8], start: usize, rows: &mut [u64])
    requires kind { is_kind kind ≡ true }
    requires good { is_read (read_blocks kind file.now (blocks_in file.now - start) start (length rows.old / kind.width)) ≡ true }
    ensures { rows.new ≡ rows_after rows.old (read_blocks kind file.now (blocks_in file.now - start) start (length rows.old / kind.width)) }
{
    let blocks = pieces_of(trace_blocks::BLOCK_BYTES, file.len());
    let mut count: usize = 0;
    for i in start..blocks {
        let at = trace_blocks::BLOCK_BYTES * i;
        let next = at + trace_blocks::BLOCK_BYTES;
        let block = &file[at..next];
        let width = kind.width;
        let from = width * count;
        count += trace_blocks::count_in(block) as usize;
        let end = width * count;
        trace_blocks::read_numbers(block, &mut rows[from..end]);
    }
}

fn read_kind(kind: BlockKind, file: &[u8], start: u64, rows: &mut [u64]) -> Result<usize, ReadError>
    requires { is_kind kind ≡ true }
    ensures answers { result ≡ read_is kind (read_trace kind file.now start (length rows.old / kind.width)) }
    ensures leaves { rows.new ≡ rows_after rows.old (read_trace kind file.now start (length rows.old / kind.width)) }
{
    let width = kind.width;
    if ((file.len() / trace_blocks::BLOCK_BYTES) as u64) < start {
        return Err(ReadError::BadBlock(start));
    }
    let first = start as usize;
    let count = judge_blocks(kind, file, first, rows.len() / width)?;
    lay_blocks(kind, file, first, rows);
    Ok(count)
}

// How many bytes the blocks of so many words of rows have: 0 where there is no whole row, and where there are more than 2^32.
#[tactic(auto, unfolding(trace_blocks::specs::Blocks::is_kind))]
pub fn trace_bytes(numbers: usize) -> usize
    ensures { result ≡ trace_bytes six numbers }
{
    bytes_for(trace_blocks::SIX, numbers)
}

// Rows of six words as blocks numbered from `start` on: how many bytes, or 13 and nothing is written.
#[tactic(auto, unfolding(trace_blocks::specs::Blocks::is_kind))]
pub fn write_trace(rows: &[u64], start: u64, file: &mut [u8]) -> Result<usize, Refusal>
    ensures answers { result ≡ written_is (write_trace six rows.now start (length file.old)) }
    ensures leaves { file.new ≡ file_after file.old (write_trace six rows.now start (length file.old)) }
{
    write_kind(trace_blocks::SIX, rows, start, file)
}

// The rows of a whole file from block `start` on: how many, or 14 with the bad block's number, or 13; refused, nothing is written.
#[tactic(auto, unfolding(trace_blocks::specs::Blocks::is_kind))]
pub fn read_trace(file: &[u8], start: u64, rows: &mut [u64]) -> Result<usize, ReadError>
    ensures answers { result ≡ read_is six (read_trace six file.now start (length rows.old / 6)) }
    ensures leaves { rows.new ≡ rows_after rows.old (read_trace six file.now start (length rows.old / 6)) }
{
    read_kind(trace_blocks::SIX, file, start, rows)
}
