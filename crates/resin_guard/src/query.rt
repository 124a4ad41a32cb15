//! The guard of queries.

ghost use Rattle.std.specs.Prelude.{◌≡◌, IfOk};
ghost use Rattle.resin_guard.specs.Literals.{IsQueryGuard};
ghost use Rattle.resin_guard.specs.Verdicts.{sql_verdict};

use crate::judge::{Guard, judged};
use crate::literals::literal_spans;
use resin_label::PSet;
use resin_lstr::LText;
use resin_sql::SqlFault;
use std::alloc::{AllocError, Global};

/// Whether each byte of a query that carries a number of `bad` stands in a text or integer literal.
///
/// `Bad` comes exactly where [`read_sql`](resin_sql::read_sql) refuses the text, with its offset.
pub fn sql_guard(alloc: Global, text: &LText, bad: &PSet) -> Result<Guard, AllocError>
    ensures guard { IfOk result (λ g. IsQueryGuard bad.now text.now g) }
    ensures verdict { IfOk result (λ g. g ≡ sql_verdict bad.now text.now) }
{
    match literal_spans(alloc, text) {
        Ok(places) => judged(alloc, text, bad, places.as_slice()),
        Err(SqlFault::Bad { offset }) => Ok(Guard::Bad { offset }),
        Err(SqlFault::Memory) => Err(AllocError),
    }
}
