//! The line that is printed for a row.

use crate::spelling::push_bytes;
use std::alloc::{AllocError, Global};
use std::fmt::Display;

/// A line under way. Where memory is wanting it says so when it is ended, and no call before says anything.
pub struct Line {
    text: String,
    is_short: bool,
}

impl Drop for Line {
    fn drop(self) {
        let Line {
            text: _,
            is_short: _,
        } = self;
    }
}

impl Line {
    /// An empty line.
    pub fn new(alloc: Global) -> Line {
        Line {
            text: String::new(alloc),
            is_short: false,
        }
    }

    /// Notes that memory was wanting where a call says so.
    pub fn note(&mut self, done: Result<(), AllocError>) {
        if done.is_err() {
            self.is_short = true;
        }
    }

    /// What a call answers; nothing where memory was wanting, which is noted.
    pub fn taken<A: Drop>(&mut self, answer: Result<A, AllocError>) -> Option<A> {
        match answer {
            Ok(answer) => Some(answer),
            Err(_) => {
                self.is_short = true;
                None
            }
        }
    }

    /// Begins a further line, where something stands already.
    pub fn begin_line(&mut self) {
        if !self.text.is_empty() {
            self.push('\n');
        }
    }

    /// Puts a text last.
    pub fn push_str(&mut self, text: &str) {
        let done = self.text.push_str(text);
        self.note(done);
    }

    /// Puts a character last.
    pub fn push(&mut self, c: char) {
        let done = self.text.push(c);
        self.note(done);
    }

    /// What `write!` calls. Each place that writes so is dearer to prove than one that puts the pieces last.
    pub fn write_fmt<D: Display + Drop>(&mut self, value: D) {
        let done = self.text.write_fmt(value);
        self.note(done);
    }

    /// Puts an integer last.
    pub fn push_integer(&mut self, n: i64) {
        let done = write!(self.text, "{n}");
        self.note(done);
    }

    /// Puts a natural number last.
    pub fn push_natural(&mut self, n: u64) {
        let done = write!(self.text, "{n}");
        self.note(done);
    }

    /// Puts a natural number last, between two texts.
    pub fn tell(&mut self, before: &str, n: u64, behind: &str) {
        self.push_str(before);
        self.push_natural(n);
        self.push_str(behind);
    }

    /// Puts a number last, behind a space.
    pub fn push_number(&mut self, number: i64) {
        self.push(' ');
        self.push_integer(number);
    }

    /// Puts a count last, behind a space.
    pub fn push_count(&mut self, count: usize) {
        self.push(' ');
        self.push_natural(count as u64);
    }

    /// Puts `true` or `false` last, behind a space.
    pub fn push_truth(&mut self, truth: bool) {
        self.push_str(if truth { " true" } else { " false" });
    }

    /// Puts a word last, behind a space.
    pub fn push_word(&mut self, word: &str) {
        self.push(' ');
        self.push_str(word);
    }

    /// Puts bytes last as a field spells them.
    pub fn push_bytes(&mut self, bytes: &[u8]) {
        let done = push_bytes(&mut self.text, bytes);
        self.note(done);
    }

    // Puts bytes last as a field spells them, but for those that stand for themselves.
    fn push_bytes_but(&mut self, bytes: &[u8], plain: &[u8]) {
        for b in bytes {
            if plain.contains(b) {
                self.push(char::from(*b));
            } else {
                self.push_bytes(&[*b]);
            }
        }
    }

    /// Puts bytes last as a field spells them, but for spaces, which stand for themselves.
    pub fn push_spaced_bytes(&mut self, bytes: &[u8]) {
        self.push_bytes_but(bytes, b" ");
    }

    /// Puts bytes last as a field spells them, but for spaces and backslashes, which stand for themselves.
    pub fn push_text_bytes(&mut self, bytes: &[u8]) {
        self.push_bytes_but(bytes, b" \\");
    }

    /// The whole line.
    pub fn end(self) -> Result<String, AllocError> {
        let Line { text, is_short } = self;
        if is_short { Err(AllocError) } else { Ok(text) }
    }
}
