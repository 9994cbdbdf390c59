// Intake of the table that stands in the sheet.
use crate::sheet::Sheet;
use crate::{say, sheet};
use std::io;
use words::word_at;

// What intake says of the first words of each part of the sheet: so many models, connectors and couplings.
fn judge(rt: &impl Print, sheet: &[u64], asked: &[u64]) -> io::Result<()> {
    let (Some(models), Some(connectors), Some(couplings)) = (
        part(sheet, 0, 1000, word_at(asked, 1)),
        part(sheet, 1000, 1100, word_at(asked, 2)),
        part(sheet, 2100, 1900, word_at(asked, 3)),
    ) else {
        return Ok(());
    };
    say::verdict(rt, table::intake(models, connectors, couplings))
}

// So many words from a place of the sheet on, where they are at most `most`.
fn part(sheet: &[u64], from: usize, most: usize, count: u64) -> Option<&[u64]> {
    sheet.get(from..)?.get(..most)?.get(..count as usize)
}

// A table, with words changed for this case alone.
pub(crate) fn intake(rt: &impl Print, sheet: &Sheet, asked: &[u64]) -> io::Result<()> {
    let mut changed = *sheet;
    let Some(pairs) = asked.get(4..) else {
        return Ok(());
    };
    sheet::change(&mut changed, pairs);
    judge(rt, &changed, asked)
}
