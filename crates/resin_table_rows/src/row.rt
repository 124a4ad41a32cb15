//! The fields of a row.

use std::alloc::{AllocError, Global};
use std::cell::Cell;

/// The fields of a row. One that isn't there is empty, and a number that isn't there is 0.
#[derive(Clone, Copy)]
pub struct Row<'a> {
    pub alloc: Global,
    pub fields: &'a [&'a str],
    /// Whether a field that had to be a number was none.
    pub is_unreadable: &'a Cell<bool>,
}

impl<'a> Row<'a> {
    /// A field; the first has the place 0.
    pub fn field(self, i: usize) -> &'a str {
        self.fields.get(i).copied().unwrap_or("")
    }

    /// The fields from a place on.
    pub fn fields_from(self, i: usize) -> &'a [&'a str] {
        self.fields.get(i..).unwrap_or(&[])
    }

    /// The bytes that a field is written with.
    pub fn bytes(self, i: usize) -> &'a [u8] {
        self.field(i).as_bytes()
    }

    /// The integer of a field.
    pub fn integer(self, i: usize) -> i64 {
        self.integer_in(self.field(i))
    }

    /// The number of a field.
    pub fn number(self, i: usize) -> u32 {
        self.number_in(self.field(i))
    }

    /// The count of a field.
    pub fn count(self, i: usize) -> u64 {
        self.count_in(self.field(i))
    }

    /// Notes that the row can't be read.
    pub fn fail(self) {
        self.is_unreadable.set(true);
    }

    // A field that spells no number makes the row unreadable, unless it is empty.
    fn miss(self, field: &str) {
        if !field.is_empty() {
            self.fail();
        }
    }

    /// The integer that a part of the row spells.
    pub fn integer_in(self, field: &str) -> i64 {
        match field.parse::<i64>() {
            Ok(n) => n,
            Err(_) => {
                self.miss(field);
                0
            }
        }
    }

    /// The number that a part of the row spells, as of a policy or of an object.
    pub fn number_in(self, field: &str) -> u32 {
        match field.parse::<u32>() {
            Ok(n) => n,
            Err(_) => {
                self.miss(field);
                0
            }
        }
    }

    /// The count that a part of the row spells.
    pub fn count_in(self, field: &str) -> u64 {
        match field.parse::<u64>() {
            Ok(n) => n,
            Err(_) => {
                self.miss(field);
                0
            }
        }
    }
}

/// The fields of a line, which stand between `|`.
pub fn split_row(alloc: Global, line: &str) -> Result<Vec<&str>, AllocError> {
    Ok(line.split('|').collect(alloc)?)
}

/// What stands before a mark, and what stands behind it; nothing does where the mark isn't there.
pub fn cut(text: &str, mark: char) -> (&str, &str) {
    text.split_once(mark).unwrap_or((text, ""))
}
