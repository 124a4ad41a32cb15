//! How numbers are spelled in a row.

use crate::stop::Stop;

/// The number of bytes that a field spells.
pub fn length_in(field: &str) -> Result<u64, Stop> {
    Ok(field.parse::<u64>()?)
}

/// The number that a field spells: of a policy, of an object, or of a count.
pub fn number_in(field: &str) -> Result<u32, Stop> {
    Ok(field.parse::<u32>()?)
}
