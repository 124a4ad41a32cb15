//! Why a row has no answer.

use resin_frozen::Stop as ReadStop;
use std::alloc::AllocError;
use std::num::ParseIntError;

/// Why a call gives no answer.
#[derive(Clone, Copy)]
pub enum Stop {
    /// The row is off the form that the program reads.
    Unreadable,
    Memory,
}

impl Stop {
    /// The name that is printed.
    pub fn name(self) -> &'static str {
        match self {
            Stop::Unreadable => "Unreadable",
            Stop::Memory => "Memory",
        }
    }
}

impl From<AllocError> for Stop {
    fn from(_error: AllocError) -> Stop {
        Stop::Memory
    }
}

impl From<ReadStop> for Stop {
    fn from(stop: ReadStop) -> Stop {
        match stop {
            ReadStop::Form => Stop::Unreadable,
            ReadStop::Memory => Stop::Memory,
        }
    }
}

impl From<ParseIntError> for Stop {
    fn from(_error: ParseIntError) -> Stop {
        Stop::Unreadable
    }
}
