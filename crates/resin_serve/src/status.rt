//! How a run ends.
ghost use Rattle.std.specs.Prelude.{◌≡◌};
ghost use Rattle.resin_serve.specs.Codes.{code_of};

use resin_site::under::base::FailList;

/// What `serve` leaves: how it ended, how many keeper calls it made, and the numbers of those that failed. Keeper calls are those on the
/// files and on the tables together, numbered from 1; one that found no memory isn't counted.
#[derive(Drop)]
pub struct Ended {
    pub status: Status,
    pub made: u64,
    pub failed: FailList,
}

/// How a run ends.
#[derive(Clone, Copy, Debug, PartialEq, Eq)]
pub enum Status {
    /// The trace was read to its end, and every record was served; or the audited text is a journal file whose journals obey the access law; or the
    /// line of the sample was given.
    Ok,
    /// The words are none of the forms.
    Usage,
    /// The records of the trace end at the offset, before its end.
    BadTrace { offset: u64 },
    /// The trace, or the text to be audited, could not be read on.
    ReadFault,
    /// The output, the log or the mail could not be written on.
    WriteFault,
    /// The trace, or the text to be audited, is longer than 67,108,864 bytes.
    TraceTooLong,
    /// There was no memory.
    Memory,
    /// The audited text is no journal file, or a journal of it breaks the access law.
    AuditRefused,
}

impl Status {
    /// The exit code of the program.
    pub fn code(&self) -> u8
        ensures { result ≡ code_of self.now }
    {
        match self {
            Status::Ok => 0,
            Status::Usage => 2,
            Status::BadTrace { .. } => 3,
            Status::ReadFault => 4,
            Status::WriteFault => 5,
            Status::TraceTooLong => 6,
            Status::Memory => 7,
            Status::AuditRefused => 9,
        }
    }
}
