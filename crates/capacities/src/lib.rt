// Which Processor rows of a lent table omit `queue_capacity`, and the table with it written out. Layout: docs/LAYOUT.md.
#![tactic(auto)]

ghost use Rattle.std.specs.Prelude.{◌≡◌};
ghost use Rattle.rules.specs.Layout.{omits_capacity, omitted_in};
ghost use Rattle.capacities.specs.Migration.{row_written_out, written_out};
ghost use Rattle.capacities.specs.Rows.{counted_of};

// What an omitted capacity was once: no queue reaches it.
const WITHOUT_END: u64 = 0xFFFF_FFFF_FFFF_FFFF;

// Whether this is a Processor's row that omits the field.
fn omits(cells: &[u64]) -> bool
    ensures { result ≡ omits_capacity cells.now }
{
    cells.len() == 10 && cells[1] == 1 && cells[2] <= 7 && cells[2] / 2 % 2 != 1
}

fn counted(cells: &[u64]) -> usize
    ensures { result ≡ counted_of cells.now }
{
    usize::from(omits(cells))
}

// How many Processor rows omit `queue_capacity`.
pub fn omitted(models: &[u64]) -> usize
    ensures { result ≡ omitted_in models.now }
{
    let mut count = 0;
    for cells in models.chunks_exact(10) {
        count += counted(cells);
    }
    count
}

// The row with the field written out, where it omits it: 1 then, else 0.
fn write_row(cells: &mut [u64]) -> usize
    ensures counts { result ≡ counted_of cells.old }
    ensures writes { cells.new ≡ row_written_out cells.old }
{
    if !omits(cells) {
        return 0;
    }
    cells[2] += 2;
    cells[8] = WITHOUT_END;
    1
}

// kept: `omitted` and this differ in more than a type, as one only reads what is lent and the other writes it
// Writes `queue_capacity` out in each Processor row that omits it: 2^64 - 1, which it once was. How many they were.
pub fn write_out(models: &mut [u64]) -> usize
    ensures counts { result ≡ omitted_in models.old }
    ensures writes { models.new ≡ written_out models.old }
{
    let mut count = 0;
    // kept: the rows are taken by their numbers, since nothing is known of a slice after a loop over its `chunks_exact_mut`
    for row in 0..models.len() / 10 {
        count += write_row(&mut models[10 * row..10 * row + 10]);
    }
    count
}
