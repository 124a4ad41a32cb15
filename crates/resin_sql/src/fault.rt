//! Why a statement isn't read, or is refused.

use std::alloc::AllocError;

/// Why a text is no statement.
#[derive(Clone, Copy, Debug, PartialEq, Eq)]
pub enum SqlFault {
    /// The offset of the first byte at which no continuation is a statement, or the length where the text ends too early;
    /// or the offset of a name or a number that is beyond its limit, which goes before any later place.
    Bad { offset: u64 },
    /// Memory ran out.
    Memory,
}

/// Why a statement has no answer. Of several causes the first in this order is told.
#[derive(Clone, Copy, Debug, PartialEq, Eq)]
pub enum SqlRefusal {
    /// CREATE of a table that is there.
    TableExists,
    /// A join of a table with itself.
    SameTable,
    /// Another statement on a table that isn't there.
    NoTable,
    /// A column that the table hasn't.
    NoColumn,
    /// A column that CREATE, the list of an INSERT or a SET names twice. In CREATE it goes before `TableExists`.
    DuplicateColumn,
    /// A row of an INSERT with more or fewer cells than columns.
    WrongCount,
    /// A value, or a test, of another kind than its column.
    WrongKind,
    /// A table that takes no more rows.
    Full,
}

/// How a statement ends without an answer.
#[derive(Clone, Copy, Debug, PartialEq, Eq)]
pub enum SqlStop {
    Refused(SqlRefusal),
    /// The last call of the keeper failed.
    Keeper,
    /// The next call of the keeper would have no number.
    Spent,
    /// Memory ran out.
    Memory,
}

impl From<AllocError> for SqlStop {
    ghost use Rattle.std.specs.Prelude.{◌≡◌};
    ghost use Rattle.resin_sql.specs.declared.fault.SqlStop.TheVariants.{Memory};

    ghost from_gives = { λ _ stop. stop ≡ Memory };

    fn from(_: AllocError) -> SqlStop {
        SqlStop::Memory
    }
}
