// Lent words: a queue that stands in the first of them, and the search for a row among rows of words.
#![tactic(auto)]

ghost use Rattle.std.specs.Prelude.{◌≡◌, true, ◌-◌, ◌/◌, ◌≤◌, ◌<◌, ◌++◌, length, get_or, set, take, drop};
ghost use Rattle.words.specs.Queue.{moved_up};
ghost use Rattle.words.specs.Search.{in_row, matches, next_row};

// A cell of a row, and the word that must stand in it. A row is looked for by a few of these.
#[derive(Clone, Copy)]
pub struct Cell {
    pub at: usize,
    pub value: u64,
}

// The word at a place; 0 past the end.
pub fn word_at(words: &[u64], place: usize) -> u64
    ensures { result ≡ get_or words.now place 0 }
{
    if place < words.len() { words[place] } else { 0 }
}

// Puts a job into the next place of a queue that holds `held`; all else stays. Where there is no place, nothing changes.
pub fn push(words: &mut [u64], held: usize, job: u64)
    ensures { words.new ≡ set words.old held job }
{
    if held < words.len() {
        words[held] = job;
    }
}

// Moves the words from `gone` to before `end` to the front.
// kept: `copy_within` would need memmove of whoever links the C library
fn shift(words: &mut [u64], gone: usize, end: usize)
    requires { (gone ≤ end) × (end ≤ length words.old) }
    ensures { words.new ≡ drop gone (take end words.old) ++ drop (end - gone) words.old }
{
    for place in 0..end - gone {
        words[place] = words[place + gone];
    }
}

// After a release: the first `gone` of the `held` go, the rest move up, and the places that they leave are cleared.
pub fn move_up(words: &mut [u64], held: usize, gone: usize)
    ensures { words.new ≡ moved_up gone held words.old }
{
    let end = held.min(words.len());
    let out = gone.min(end);
    shift(words, out, end);
    words[end - out..end].fill(0);
}

// A row has a word at least, and the key's cells are cells of it.
fn in_row(key: &[Cell], width: usize) -> bool
    ensures { result ≡ in_row key.now width }
{
    0 < width && key.iter().all(|cell| cell.at < width)
}

// Each of the key's cells holds its word in the row.
fn matches_at(words: &[u64], width: usize, row: usize, key: &[Cell]) -> bool
    requires { (in_row key.now width ≡ true) × (row < length words.now / width) }
    ensures { result ≡ matches key.now width words.now row }
{
    let start = row * width;
    for cell in key {
        if words[start + cell.at] != cell.value {
            return false;
        }
    }
    true
}

// The first row from `from` on, of the first `rows` rows of `width` words, in which each of the key's cells holds its word; or None.
pub fn next_row(
    words: &[u64],
    width: usize,
    from: usize,
    rows: usize,
    key: &[Cell],
) -> Option<usize>
    ensures { result ≡ next_row key.now width from rows words.now }
{
    if !in_row(key, width) {
        return None;
    }
    let end = rows.min(words.len() / width);
    for row in from..end {
        if matches_at(words, width, row, key) {
            return Some(row);
        }
    }
    None
}
