// The room that a file may take.
ghost use Rattle.std.specs.Prelude.{◌≡◌, length};

// A file's name, or a listing of one line.
pub(crate) type Page = [u8; 4096];

// What waits to be written of a listing.
pub(crate) type Buffer = [u8; 65536];

// One byte more than a file may have.
pub(crate) type Text = [u8; 4194304];

// 65,536 service times, as bits.
pub(crate) type ServiceBits = [u64; 65536];

// The same as times.
pub(crate) type ServiceTimes = [f64; 65536];

// 16,384 actions of 7 words.
pub(crate) type Actions = [u64; 114688];

// A block's rows, ten of six words, and behind them the 256 rows of a step.
pub(crate) type Rows = [u64; 1596];

// 128 blocks of a trace, and one byte that tells whether more follow.
pub(crate) type Piece = [u8; 65537];

// A state of any table.
pub(crate) type State = [u64; 17286];

// An array of one of these. Its contract says how long it is: a caller's proof need not count so many.
pub(crate) fn filled<T: Copy, const N: usize>(value: T) -> [T; N]
    ensures { N ≡ length result }
{
    [value; N]
}
