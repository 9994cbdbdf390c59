// Lines of numbers, each decimal or `0x` and 16 digits.
#![tactic(auto)]

ghost use Rattle.std.specs.Prelude.{◌≡◌, ◌-◌, ◌≤◌, length, drop};

use bench_words::Span;

// The numbers that a line begins with, and what stands behind them.
#[derive(Clone, Copy)]
pub struct Line<'l, 'n> {
    pub numbers: &'n [u64],
    pub rest: &'l [u8],
}

// Where the next word stands, from a place on.
fn next_word(line: &[u8], from: usize) -> Span
    requires { from ≤ length line.now }
    ensures { (result.start ≤ result.end) × (result.end ≤ length line.now) }
{
    bench_words::next_word(line, from)
}

fn number(word: &[u8]) -> Option<u64> {
    if word.len() == 18 {
        bench_words::time_of(word)
    } else {
        bench_words::number_of(word, u64::MAX)
    }
}

// Lays numbers into the room, up to its end, the line's, or a word that is no number.
pub fn read<'l, 'n>(line: &'l [u8], room: &'n mut [u64]) -> Line<'l, 'n>
    ensures room { length result.numbers.now ≤ length room.old }
    ensures rest { result.rest.now ≡ drop (length line.now - length result.rest.now) line.now }
{
    let mut count = 0;
    let mut at = 0;
    for word in room.iter_mut() {
        let Span { start, end } = next_word(line, at);
        at = start;
        let Some(number) = number(&line[start..end]) else {
            break;
        };
        *word = number;
        count += 1;
        at = end;
    }
    Line {
        numbers: &room[..count],
        rest: &line[at..],
    }
}
