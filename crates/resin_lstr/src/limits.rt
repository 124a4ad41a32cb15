//! The limit on texts.

/// The length of the longest text, in bytes (this project's limit). Contracts name it too.
pub const LONGEST: usize = 16_777_216;
