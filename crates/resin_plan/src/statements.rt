//! Carrying out a statement.

ghost use Rattle.resin_plan.specs.Blame.{Blames};
ghost use Rattle.resin_plan.specs.Plans.{Ends};
ghost use Rattle.resin_plan.specs.Statements.{plan};
ghost use Rattle.resin_plan.specs.TableCalls.{keeping};

use crate::answer::SqlAnswer;
use crate::changes::{delete, update};
use crate::creates::create;
use crate::inserts::insert;
use crate::selects::select;
use resin_base::{Calls, Stored, StoredCell, Tables};
use resin_sql::{SqlStop, Stmt};
use std::alloc::Global;

/// Carries out a statement, whose literals have these values.
fn carry_out<T: Tables>(
    alloc: Global,
    statement: &Stmt,
    values: &[StoredCell],
    tables: &mut T,
    calls: &mut Calls,
) -> Result<SqlAnswer, SqlStop>
    ensures { Ends (plan statement.now values.now) (keeping (T.stored tables.old) (T.faults tables.old) (T.answers tables.old) calls.old) result
        (keeping (T.stored tables.new) (T.faults tables.new) (T.answers tables.new) calls.new) }
{
    match statement {
        Stmt::Create(statement) => create(alloc, statement, tables, calls),
        Stmt::Insert(statement) => insert(alloc, statement, values, tables, calls),
        Stmt::Select(statement) => select(alloc, statement, values, tables, calls),
        Stmt::Update(statement) => update(alloc, statement, values, tables, calls),
        Stmt::Delete(statement) => delete(alloc, statement, values, tables, calls),
    }
}

/// Carries out a statement over tables. `cells` has the value of each literal of the statement, in the order in which they stand, with its shadow
/// text; for NULL the shadow is empty.
///
/// - `Refused` comes exactly where the statement is refused, for the first cause in the order of `SqlRefusal`.
/// - `Keeper` comes exactly where the last call that was made failed.
/// - `Spent` comes exactly where the number of the next call would pass 18,446,744,073,709,551,615.
/// - `Memory` comes only where memory was wanted.
///
/// After an answer or a refusal all calls of the statement were made; after the other ends those up to there, of which a failed one changed nothing.
pub fn exec<T: Tables>(
    alloc: Global,
    statement: &Stmt,
    cells: &Stored,
    tables: &mut T,
    calls: &mut Calls,
) -> Result<SqlAnswer, SqlStop>
    ensures plan { Ends (plan statement.now cells.now) (keeping (T.stored tables.old) (T.faults tables.old) (T.answers tables.old) calls.old) result
        (keeping (T.stored tables.new) (T.faults tables.new) (T.answers tables.new) calls.new) }
    ensures cause { Blames result (keeping (T.stored tables.old) (T.faults tables.old) (T.answers tables.old) calls.old)
        (keeping (T.stored tables.new) (T.faults tables.new) (T.answers tables.new) calls.new) }
{
    carry_out(alloc, statement, cells.as_slice(), tables, calls)
}
