//! What is told of a statement that has no answer.

ghost use Rattle.std.specs.Prelude.{◌≡◌, IfOk};
ghost use Rattle.resin_sql.specs.Messages as spec;

use crate::fault::SqlRefusal;
use itoa::Buffer;
use resin_bytes::Bytes;
use std::alloc::{AllocError, Global};

impl SqlRefusal {
    /// What is told of the refusal, as the message of an `SqlException`.
    pub fn message(self) -> &'static str
        ensures { result.now ≡ spec.message self }
    {
        match self {
            SqlRefusal::TableExists => "table exists",
            SqlRefusal::SameTable => "same table",
            SqlRefusal::NoTable => "no table",
            SqlRefusal::NoColumn => "no column",
            SqlRefusal::DuplicateColumn => "duplicate column",
            SqlRefusal::WrongCount => "wrong count",
            SqlRefusal::WrongKind => "wrong kind",
            SqlRefusal::Full => "full",
        }
    }
}

/// What is told of a text that is no statement, `syntax at N`, where N is the offset of its fault.
pub fn syntax_message(alloc: Global, offset: u64) -> Result<Bytes, AllocError>
    ensures { IfOk result (λ message. message ≡ spec.syntax_message offset) }
{
    let mut message = Bytes::from_slice(alloc, b"syntax at ")?;
    let mut buffer = Buffer::new();
    message.push_slice(buffer.format(offset).as_bytes())?;
    Ok(message)
}
