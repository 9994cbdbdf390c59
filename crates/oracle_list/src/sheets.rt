// Sheets of words: filled and changed.

// Words laid at a sheet's start, as many as it has room for.
pub(crate) fn lay(sheet: &mut [u64], words: &[u64]) {
    for (place, word) in sheet.iter_mut().zip(words) {
        *place = *word;
    }
}

// A state that ends there and begins with a table, which stands behind a word; all else in it is 0.
pub(crate) fn begin(sheet: &mut [u64], table: &[u64], end: usize) {
    if let [_, table @ ..] = table
        && end <= sheet.len()
    {
        sheet[..end].fill(0);
        lay(sheet, table);
    }
}

// Places and their new words, one after the other. Whether the sheet has all these places.
pub(crate) fn change(sheet: &mut [u64], pairs: &[u64]) -> bool {
    let (pairs, rest) = pairs.as_chunks::<2>();
    for [place, word] in pairs {
        match sheet.get_mut(*place as usize) {
            Some(place) => *place = *word,
            None => return false,
        }
    }
    rest.is_empty()
}
