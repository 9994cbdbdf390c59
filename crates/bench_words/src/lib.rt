// The bytes of a bench file: its lines, a line's words, and the numbers and times that words stand for. The format: docs/BENCH-FILE.md.
#![tactic(auto)]

ghost use Rattle.std.specs.Prelude.{◌≡◌, ℕ, Bool, suc, ◌+◌, ◌^◌, ◌≤◌, ◌<◌, ◌++◌, length, take, drop};
ghost use Rattle.bench_words.specs.Splitting.{is_blank, is_plain, span_of, line_span, word_span, word_at};
ghost use Rattle.bench_words.specs.Numbers.{digit_of, numeral, number_of, has_bits, nines, decimal_of, time_of};
ghost use Rattle.bench_words.specs.Texts.{text_span, text_in, same};

// The largest number of 15 digits.
const NINES: u64 = 999_999_999_999_999;

// Where a word stands in its line: from `start` to before `end`. Where there is none, the two are equal.
#[derive(Clone, Copy)]
pub struct Span {
    pub start: usize,
    pub end: usize,
}

// The first place from `from` on whose byte fails the test, or the end.
fn span_end<F: Fn(u8) -> bool>(bytes: &[u8], from: usize, test: F) -> usize
    requires { F.IsAlwaysCallable test }
    ensures { (passes : ℕ → Bool) → ((b : ℕ) (r : Bool) → F.post test b r → r ≡ passes b) → result ≡ from + span_of passes (drop from bytes.now) }
{
    for at in from..bytes.len() {
        if !test(bytes[at]) {
            return at;
        }
    }
    from.max(bytes.len())
}

// The end of the line that starts at `from`: its newline, or the end of the text.
pub fn line_end(text: &[u8], from: usize) -> usize
    ensures { result ≡ from + line_span (drop from text.now) }
{
    span_end(text, from, |b| b != b'\n')
}

fn is_blank(b: u8) -> bool
    ensures { result ≡ is_blank b }
{
    matches!(b, b' ' | b'\t' | b'\r')
}

// Whether a byte goes on with a word.
fn is_plain(b: u8) -> bool
    ensures { result ≡ is_plain b }
{
    !is_blank(b) && b != b':' && b != b'#'
}

// The first place from `from` on that is not blank.
fn skip_blanks(line: &[u8], from: usize) -> usize
    ensures { result ≡ from + span_of is_blank (drop from line.now) }
{
    span_end(line, from, is_blank)
}

// The first place from `from` on that does not go on with a word.
fn skip_plain(line: &[u8], from: usize) -> usize
    ensures { result ≡ from + span_of is_plain (drop from line.now) }
{
    span_end(line, from, is_plain)
}

// The end of the word that starts at `from`: a colon is a word of its own.
fn word_end(line: &[u8], from: usize) -> usize
    ensures { result ≡ from + word_span (drop from line.now) }
{
    match line.get(from) {
        Some(b':') => from + 1,
        _ => skip_plain(line, from),
    }
}

// Where the next word of a line stands, from `from` on.
#[tactic(auto, unfolding(crate::specs::Splitting::word_at))]
pub fn next_word(line: &[u8], from: usize) -> Span
    ensures { result ≡ word_at line.now from }
{
    let start = skip_blanks(line, from);
    let end = word_end(line, start);
    Span { start, end }
}

// A byte as a digit; 16 where it is none.
#[tactic(auto, unfolding(crate::specs::Numbers::digit_of))]
pub fn digit(b: u8) -> u64
    ensures { result ≡ digit_of b }
{
    match b {
        b'0'..=b'9' => (b - b'0') as u64,
        b'A'..=b'F' => (b - b'A') as u64 + 10,
        b'a'..=b'f' => (b - b'a') as u64 + 10,
        // kept: 16 and no None, since it is no digit in any base here, and the theorems of Decimals compare `digit_of` with bases.
        _ => 16,
    }
}

// The number that the digits make in a base, behind digits that make `before`, where it is at most `most`.
fn digits(word: &[u8], base: u64, most: u64, before: u64) -> Option<u64>
    requires { (0 < base) × (before ≤ most) }
    ensures { result ≡ numeral base most before word.now }
{
    let mut value = before;
    for b in word {
        let d = digit(*b);
        if base <= d {
            return None;
        }
        value = value.checked_mul(base)?.checked_add(d)?;
        if most < value {
            return None;
        }
    }
    Some(value)
}

// A whole number of at most `most`, in decimal digits; or None.
pub fn number_of(word: &[u8], most: u64) -> Option<u64>
    ensures { result ≡ number_of most word.now }
{
    if word.is_empty() {
        return None;
    }
    digits(word, 10, most, 0)
}

// Whether the word is `0x` and 16 bytes.
#[tactic(auto, unfolding(crate::specs::Numbers::has_bits))]
fn has_bits(word: &[u8]) -> bool
    ensures { result ≡ has_bits word.now }
{
    word.len() == 18 && word.starts_with(b"0x")
}

// Where the word's first point stands; past its last byte where it has none.
fn point_at(word: &[u8]) -> usize
    ensures { result ≡ text_span word.now }
{
    span_end(word, 0, |b| b != b'.')
}

// The number that all the digits make, with the point left out: at most 15 digits.
fn without_point(word: &[u8], point: usize) -> Option<u64>
    requires { point < length word.now }
    ensures { result ≡ numeral 10 nines 0 (take point word.now ++ drop (suc point) word.now) }
{
    let before = digits(&word[..point], 10, NINES, 0)?;
    digits(&word[point + 1..], 10, NINES, before)
}

// A power of ten below 2^53.
fn ten_to(k: usize) -> u64
    requires { k ≤ 15 }
    ensures { result ≡ 10 ^ k }
{
    10_u64.pow(k as u32)
}

// The bits of a decimal number with its first point at `point`; or None. The two whole numbers are exact as f64, so that the division is all that rounds.
fn decimal_of(word: &[u8], point: usize) -> Option<u64>
    requires { (point ≡ text_span word.now) × (point < length word.now) }
    ensures { result ≡ decimal_of word.now }
{
    let behind = word.len() - point - 1;
    if point == 0 || behind == 0 || 16 < word.len() {
        return None;
    }
    let n = without_point(word, point)?;
    Some(times::bits_of(n as f64 / ten_to(behind) as f64))
}

// The bits of a time: those of a whole number of at most 2^53 or of a decimal number, or those that `0x` and 16 digits say; or None.
pub fn time_of(word: &[u8]) -> Option<u64>
    ensures { result ≡ time_of word.now }
{
    if has_bits(word) {
        return digits(&word[2..], 16, u64::MAX, 0);
    }
    let point = point_at(word);
    if point < word.len() {
        return decimal_of(word, point);
    }
    let n = number_of(word, 0x20_0000_0000_0000)?;
    Some(times::bits_of(n as f64))
}

// How long a text is that is filled up with dots to 32 bytes.
pub fn text_length(text: [u8; 32]) -> usize
    ensures { result ≡ text_span text }
{
    point_at(&text)
}

// Whether a word is this text.
pub fn is_text(word: &[u8], text: [u8; 32]) -> bool
    ensures { result ≡ same word.now (text_in text) }
{
    word == &text[..text_length(text)]
}
