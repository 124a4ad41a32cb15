//! The literals of a statement.

ghost use Rattle.std.specs.Prelude.{◌≡◌, IfOk};
ghost use Rattle.resin_joint.specs.Readings as spec;

use crate::tree::MoreStmt;
use resin_items::Items;
use resin_sql::literals;
use resin_sql::parts::where_literals;
use resin_sql_words::Literal;
use std::alloc::{AllocError, Global};

/// The literals of a statement, `NULL` among them, in the order in which they stand. A statement is carried out with one value
/// for each of them, in this order. The number of LIMIT is none.
pub fn more_literals(alloc: Global, statement: &MoreStmt) -> Result<Items<Literal>, AllocError>
    ensures { IfOk result (λ found. found ≡ spec.more_literals statement.now) }
{
    match statement {
        MoreStmt::Plain(statement) => literals(alloc, statement),
        MoreStmt::Join(statement) => where_literals(alloc, &statement.condition),
        MoreStmt::Total(statement) => where_literals(alloc, &statement.condition),
    }
}
