//! Settings: words, each with a number behind it.
use resin_base::FailList;
use resin_table_rows::cut;
use std::alloc::{AllocError, Global};

/// The number behind a word among settings. None where the word isn't there.
pub fn setting(settings: &str, word: &str) -> Option<usize> {
    let mut rest = settings;
    for _ in 0..settings.len() {
        let (name, behind) = cut(rest, ' ');
        let (digits, others) = cut(behind, ' ');
        if name == word {
            return digits.parse::<usize>().ok();
        }
        rest = others;
    }
    None
}

/// The list of the number behind a word, counted from behind the calls that were made before, and of none where the word isn't there.
pub fn list_of(
    alloc: Global,
    settings: &str,
    word: &str,
    before: usize,
) -> Result<FailList, AllocError> {
    let mut list = FailList::new(alloc);
    if let Some(number) = setting(settings, word) {
        list.push(number.saturating_add(before) as u64)?;
    }
    Ok(list)
}
