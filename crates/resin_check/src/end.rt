//! How the program ends.

use crate::place::Place;
use std::io;

/// What there is to say of a text, or why nothing can be said.
pub(crate) enum End {
    /// The text is a program.
    Program,
    /// The text stops being the front of a program.
    Syntax(Place),
    /// The text nests too deep, from the token on that opens the construct too many.
    TooDeep(Place),
    /// The text has more than 16,777,216 bytes.
    TooLong,
    /// The text couldn't be read.
    Read,
    /// Memory was wanted.
    Memory,
}

impl From<io::Error> for End {
    /// Of a text that couldn't be read.
    fn from(error: io::Error) -> End {
        match error.kind() {
            io::ErrorKind::OutOfMemory => End::Memory,
            _ => End::Read,
        }
    }
}

impl End {
    /// Tells it, and gives the exit status. The numbers above 1 are those of `resin_cli`.
    pub(crate) fn told(self, rt: &HostRuntime) -> u8 {
        match self {
            End::Program => 0,
            End::Syntax(place) => told_fault(rt, "Syntax", place),
            End::TooDeep(place) => told_fault(rt, "TooDeep", place),
            End::TooLong => complained(rt, "source text too long", 6),
            End::Read => complained(rt, "read fault", 4),
            End::Memory => complained(rt, "out of memory", 7),
        }
    }
}

// Prints a fault of the text.
fn told_fault(rt: &HostRuntime, kind: &str, place: Place) -> u8 {
    let Place {
        offset,
        line,
        column,
    } = place;
    match println!(rt; "{kind} at {offset}, line {line}, column {column}") {
        Ok(()) => 1,
        Err(_) => complained(rt, "write fault", 5),
    }
}

// Says why nothing can be said of the text.
fn complained(rt: &HostRuntime, words: &str, status: u8) -> u8 {
    let _ = eprintln!(rt; "{words}");
    status
}
