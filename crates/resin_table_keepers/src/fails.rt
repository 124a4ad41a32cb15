//! Calls that fail.

use resin_base::FailList;
use std::alloc::{AllocError, Global};

/// The numbers of failing calls that words spell. They are counted from behind the calls that were made before, and a word that is no
/// number is left out.
pub fn fails_in(alloc: Global, words: &str, before: u64) -> Result<FailList, AllocError> {
    let mut fails = FailList::new(alloc);
    for word in words.split(' ') {
        if let Ok(number) = word.parse::<u64>() {
            fails.push(number.saturating_add(before))?;
        }
    }
    Ok(fails)
}
