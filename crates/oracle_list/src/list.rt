// The list, read piece by piece.
ghost use Rattle.std.specs.Prelude.{◌≤◌, ◌<◌, length, IfOk, IfSome};

use crate::case::Replayed;
use crate::{case, say};
use std::io;
use std::io::Read;

// How many cases and calls were replayed, and how many cases differ.
#[derive(Clone, Copy, Default)]
pub(crate) struct Total {
    pub(crate) cases: u64,
    pub(crate) calls: u64,
    pub(crate) differ: u64,
}

impl Total {
    // One case more.
    fn add(&mut self, replayed: Replayed) {
        self.cases = self.cases.saturating_add(1);
        self.calls = self.calls.saturating_add(replayed.calls);
        self.differ = self.differ.saturating_add(u64::from(replayed.differs));
    }
}

// Reads on behind the bytes that are kept. Where they now end.
fn read_on(reader: &mut impl Read, text: &mut [u8], kept: usize) -> io::Result<usize> {
    let mut end = kept;
    // kept: a turn goes on by as many bytes as the system gives, so no range and no iterator counts them
    while end < text.len() {
        match reader.read(&mut text[end..])? {
            0 => return Ok(end),
            more => end += more,
        }
    }
    Ok(end)
}

// The lines before the first empty one, and the text behind that; None where there is none.
fn split_case(text: &[u8]) -> Option<(&[u8], &[u8])>
    ensures { IfSome result (λ parts. length parts.1.now < length text.now) }
{
    if let [b'\n', rest @ ..] = text {
        return Some((&[], rest));
    }
    let end = text
        .windows(2)
        .position(|pair| matches!(pair, [b'\n', b'\n']))?;
    Some((&text[..end + 1], &text[end + 2..]))
}

// What begins with `#` is no case.
fn is_note(text: &[u8]) -> bool {
    matches!(text, [] | [b'#', ..])
}

// The cases that stand whole in the text; how many bytes are behind them.
fn cases(rt: &impl Print, text: &[u8], total: &mut Total) -> io::Result<usize>
    ensures { IfOk result (λ rest. rest ≤ length text.now) }
{
    let mut rest = text;
    while let Some((case, behind)) = split_case(rest) {
        if !is_note(case) {
            total.add(case::replay(rt, case)?);
        }
        rest = behind;
    }
    Ok(rest.len())
}

// All cases. A list that ends within a case is cut short.
pub(crate) fn replay(
    rt: &impl Print,
    reader: &mut impl Read,
    text: &mut [u8],
) -> io::Result<Total> {
    let mut total = Total::default();
    let mut kept = 0;
    for _ in 0..65536 {
        let end = read_on(reader, text, kept)?;
        let Some(read) = text.get(..end) else {
            return Ok(total);
        };
        if end <= kept {
            if kept != 0 {
                say::cut_short(rt)?;
            }
            return Ok(total);
        }
        kept = cases(rt, read, &mut total)?;
        text.copy_within(end - kept..end, 0);
    }
    Ok(total)
}
