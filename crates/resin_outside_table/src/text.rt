//! How numbers are written in rows.

/// The number that a field has, and 0 where it has none.
pub fn number(field: &str) -> usize {
    field.parse::<usize>().unwrap_or(0)
}
