//! Statements carried out. Each is refused, or has its answer, or stops the run: by `Keeper` where a keeper call failed, and by the fault
//! FuelSpent where no number is left for one.
ghost use Rattle.resin_meaning.specs.Runs.{Does, Seen, seen, world};
ghost use Rattle.resin_meaning.specs.Under.store.Files.{LabelledFiles};
ghost use Rattle.resin_meaning_tables.specs.Plans.{carried_out, carried_with_ticks};
ghost use Rattle.resin_meaning_tables.specs.Stops.{stopped};
ghost use Rattle.resin_sql_more.specs.Joins.{join_plan};
ghost use Rattle.resin_sql_more.specs.Totals.{total_plan};
ghost use Rattle.resin_sql_more.specs.Under.plan.Statements.{plan};
ghost use Rattle.std.specs.Prelude.{◌≡◌};

use resin_machine::under::scalar::ScriptFault;
use resin_machine::{Machine, Stop};
use resin_meaning::under::base::{Calls, Stored, Tables};
use resin_sql_more::under::plan::{SqlAnswer, exec};
use resin_sql_more::under::sql::{SqlRefusal, SqlStop, Stmt};
use resin_sql_more::{JoinStmt, MoreAnswer, TotalStmt, exec_join, exec_total};
use std::alloc::Global;

// How a statement without an answer ends: it is refused, or the run stops.
fn stopped<A>(m: &Machine, stop: SqlStop) -> Result<Result<A, SqlRefusal>, Stop>
    ensures { result ≡ stopped m.now.line stop }
{
    match stop {
        SqlStop::Refused(refusal) => Ok(Err(refusal)),
        SqlStop::Keeper => Err(Stop::Keeper),
        SqlStop::Spent => Err(m.fault(ScriptFault::FuelSpent)),
        SqlStop::Memory => Err(Stop::Memory),
    }
}

/// Carries out a statement that is no join and no total. `cells` has what is kept of its literals, in their order.
pub fn carry_out<T: Tables>(
    alloc: Global,
    m: &Machine,
    statement: &Stmt,
    cells: &Stored,
    tables: &mut T,
    calls: &mut Calls,
) -> Result<Result<SqlAnswer, SqlRefusal>, Stop>
    ensures { (f : Seen LabelledFiles) → Does (carried_out (plan statement.now cells.now))
        (world m.now f (seen (T.stored tables.old) (T.faults tables.old) (T.answers tables.old)) calls.old) result
        (world m.now f (seen (T.stored tables.new) (T.faults tables.new) (T.answers tables.new)) calls.new) }
{
    match exec(alloc, statement, cells, tables, calls) {
        Ok(answer) => Ok(Ok(answer)),
        Err(stop) => stopped(m, stop),
    }
}

/// Carries out a join. It is the fault FuelSpent, too, where its rows cost more ticks than are left, and then they are not looked at.
pub fn carry_out_join<T: Tables>(
    alloc: Global,
    m: &Machine,
    statement: &JoinStmt,
    cells: &Stored,
    tables: &mut T,
    calls: &mut Calls,
) -> Result<Result<MoreAnswer, SqlRefusal>, Stop>
    ensures { (f : Seen LabelledFiles) → Does (carried_with_ticks (join_plan statement.now cells.now))
        (world m.now f (seen (T.stored tables.old) (T.faults tables.old) (T.answers tables.old)) calls.old) result
        (world m.now f (seen (T.stored tables.new) (T.faults tables.new) (T.answers tables.new)) calls.new) }
{
    let left = m.ticks();
    match exec_join(alloc, statement, cells, left, tables, calls) {
        Ok(answer) => Ok(Ok(answer)),
        Err(stop) => stopped(m, stop),
    }
}

/// Carries out a total, as `carry_out_join` does.
pub fn carry_out_total<T: Tables>(
    alloc: Global,
    m: &Machine,
    statement: &TotalStmt,
    cells: &Stored,
    tables: &mut T,
    calls: &mut Calls,
) -> Result<Result<MoreAnswer, SqlRefusal>, Stop>
    ensures { (f : Seen LabelledFiles) → Does (carried_with_ticks (total_plan statement.now cells.now))
        (world m.now f (seen (T.stored tables.old) (T.faults tables.old) (T.answers tables.old)) calls.old) result
        (world m.now f (seen (T.stored tables.new) (T.faults tables.new) (T.answers tables.new)) calls.new) }
{
    let left = m.ticks();
    match exec_total(alloc, statement, cells, left, tables, calls) {
        Ok(answer) => Ok(Ok(answer)),
        Err(stop) => stopped(m, stop),
    }
}
