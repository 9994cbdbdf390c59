// The lines of the list: each is numbers, decimal or `0x` and 16 digits.
ghost use Rattle.std.specs.Prelude.{◌≤◌, ◌-◌, length};

use number_lines::Line;

// The numbers of a line, where it is one of the list's: numbers alone, fewer than there is room for.
fn numbers<'n>(line: &[u8], room: &'n mut [u64]) -> &'n [u64]
    ensures { length result.now ≤ length room.old }
{
    let most = room.len();
    let Line { numbers, rest } = number_lines::read(line, room);
    match rest {
        [] | [b'#', ..] if numbers.len() < most => numbers,
        _ => &[],
    }
}

// The numbers of the first line, and the text behind it.
pub(crate) fn read<'t, 'n>(text: &'t [u8], room: &'n mut [u64]) -> (&'n [u64], &'t [u8])
    ensures room { length result.0.now ≤ length room.old }
    ensures rest { length result.1.now ≤ length text.now - 1 }
{
    match text.iter().position(|byte| *byte == b'\n') {
        Some(end) => (numbers(&text[..end], room), &text[end + 1..]),
        None => (&[], &[]),
    }
}
