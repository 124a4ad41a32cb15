//! Joins.

ghost use Rattle.std.specs.Prelude.{◌≡◌, ◌++◌, map, IfOk, OnOk};
ghost use Rattle.std.specs.List.{list_any};
ghost use Rattle.std.specs.Str.{bytes_eq};
ghost use Rattle.resin_sql_more.specs.Joins as spec;
ghost use Rattle.resin_sql_more.specs.Plans.{Ends, Comes, Blames, Stays};
ghost use Rattle.resin_plan.specs.TableCalls.{keeping};

use crate::answer::MoreAnswer;
use crate::pairs::{answered_pairs, limited_places};
use resin_base::{Bytes, Calls, Column, Columns, Row, Stored, StoredCell, Tables};
use resin_joint::{JoinStmt, table_of};
use resin_plan::parts::{table_columns, table_rows};
use resin_rows::{Place, earlier, first_named, found, is_text, names_cause, shape, where_cause};
use resin_sql::{Condition, SqlRefusal, SqlStop, Test};
use std::alloc::{AllocError, Global};

/// Whether the table of a column is neither of the two.
fn strays(statement: &JoinStmt, name: &[u8]) -> bool
    ensures { result ≡ spec.strays statement.now name.now }
{
    let table = table_of(name);
    !(table == statement.table.as_slice() || table == statement.joined.as_slice())
}

fn some_name_strays(statement: &JoinStmt, names: &[Bytes]) -> bool
    ensures { result ≡ list_any (spec.strays statement.now) names.now }
{
    for name in names {
        if strays(statement, name.as_slice()) {
            return true;
        }
    }
    false
}

/// Whether the column of a test strays.
fn test_strays(statement: &JoinStmt, test: &Test) -> bool
    ensures { result ≡ spec.test_strays statement.now test.now }
{
    match test {
        Test::Compare(name, _, _) => strays(statement, name.as_slice()),
        Test::Null(name, _) => strays(statement, name.as_slice()),
    }
}

/// Whether a column of a condition strays.
#[cycle(straying)]
fn condition_strays(statement: &JoinStmt, condition: &Condition) -> bool
    ensures { result ≡ spec.condition_strays statement.now condition.now }
{
    match condition {
        Condition::Test(test) => test_strays(statement, test),
        Condition::All(parts) => some_part_strays(statement, parts.as_slice()),
        Condition::Any(parts) => some_part_strays(statement, parts.as_slice()),
    }
}

#[cycle(straying)]
fn some_part_strays(statement: &JoinStmt, parts: &[Condition]) -> bool
    ensures { result ≡ list_any (spec.condition_strays statement.now) parts.now }
{
    for part in parts {
        if condition_strays(statement, part) {
            return true;
        }
    }
    false
}

fn where_strays(statement: &JoinStmt) -> bool
    ensures { result ≡ spec.where_strays statement.now statement.now.condition }
{
    match &statement.condition {
        None => false,
        Some(condition) => condition_strays(statement, condition),
    }
}

/// Refused where a column is of neither table.
fn table_cause(statement: &JoinStmt) -> Option<SqlRefusal>
    ensures { result ≡ spec.table_cause statement.now }
{
    if some_name_strays(statement, statement.columns.as_slice())
        || strays(statement, statement.on.0.as_slice())
        || strays(statement, statement.on.1.as_slice())
        || where_strays(statement)
    {
        Some(SqlRefusal::NoTable)
    } else {
        None
    }
}

/// Refused where the columns of ON are of two kinds.
fn on_cause(first: Option<Place>, last: Option<Place>) -> Option<SqlRefusal>
    ensures { result ≡ spec.on_cause first last }
{
    match (first, last) {
        (Some(first), Some(last))
            if (is_text(first.kind) && !is_text(last.kind))
                || (!is_text(first.kind) && is_text(last.kind)) => { Some(SqlRefusal::WrongKind) }
        _ => None,
    }
}

/// Whether a column of ON isn't there.
fn equated_cause(columns: &[Column], first: &[u8], last: &[u8]) -> Option<SqlRefusal>
    ensures { result ≡ spec.equated_cause columns.now first.now last.now }
{
    if found(columns, first).is_none() || found(columns, last).is_none() {
        Some(SqlRefusal::NoColumn)
    } else {
        None
    }
}

/// Why a join is refused, by the columns of both tables.
fn join_cause(statement: &JoinStmt, values: &[StoredCell], columns: &[Column]) -> Option<SqlRefusal>
    ensures { result ≡ spec.join_cause statement.now values.now columns.now }
{
    let first = statement.on.0.as_slice();
    let last = statement.on.1.as_slice();
    let kinds = on_cause(found(columns, first), found(columns, last));
    let condition = where_cause(columns, &statement.condition, values);
    let equated = equated_cause(columns, first, last);
    let named = names_cause(columns, statement.columns.as_slice());
    let tables = table_cause(statement);
    earlier(
        tables,
        earlier(named, earlier(equated, earlier(condition, kinds))),
    )
}

/// Puts the columns of a table last, each named with it.
fn push_columns(
    alloc: Global,
    out: &mut Columns,
    table: &[u8],
    columns: &[Column],
) -> Result<(), AllocError>
    ensures { OnOk result (out.new ≡ out.old ++ map (spec.of_table table.now) columns.now) }
{
    for column in columns {
        let mut name = Bytes::from_slice(alloc, table)?;
        name.push(b'.')?;
        name.push_slice(column.name.as_slice())?;
        out.push(Column {
            name,
            kind: column.kind,
        })?;
    }
    Ok(())
}

/// The columns of both tables, each named with its table.
fn both_columns(
    alloc: Global,
    statement: &JoinStmt,
    firsts: &[Column],
    lasts: &[Column],
) -> Result<Columns, AllocError>
    ensures { IfOk result (λ columns. columns ≡ spec.both_columns statement.now firsts.now lasts.now) }
{
    let mut columns = Columns::new(alloc);
    push_columns(alloc, &mut columns, statement.table.as_slice(), firsts)?;
    push_columns(alloc, &mut columns, statement.joined.as_slice(), lasts)?;
    Ok(columns)
}

/// What looking at all pairs costs, in ticks.
fn cost(first: usize, last: usize) -> u64
    ensures { result ≡ spec.cost first last }
{
    let rows = (first as u64).saturating_add(last as u64);
    rows.saturating_add((first as u64).saturating_mul(last as u64))
}

/// The answer, by the rows that the keeper gave. `columns` are those of both tables, of which the first has `width`.
fn join_answer(
    alloc: Global,
    statement: &JoinStmt,
    values: &[StoredCell],
    columns: &[Column],
    width: usize,
    firsts: &[Row],
    lasts: &[Row],
) -> Result<MoreAnswer, AllocError>
    ensures { IfOk result (λ answer. answer ≡ spec.join_answer statement.now values.now columns.now width firsts.now lasts.now) }
{
    let pairs = limited_places(alloc, statement, values, columns, width, firsts, lasts)?;
    let names = first_named(alloc, statement.columns.as_slice())?;
    let rows = answered_pairs(
        alloc,
        columns,
        names.as_slice(),
        width,
        firsts,
        lasts,
        pairs.as_slice(),
    )?;
    Ok(MoreAnswer {
        scanned: cost(firsts.len(), lasts.len()),
        names,
        rows,
        chosen: pairs.len() as u64,
    })
}

/// What follows the rows of both tables.
fn join_end(
    alloc: Global,
    statement: &JoinStmt,
    values: &[StoredCell],
    left: u64,
    columns: &[Column],
    width: usize,
    firsts: &[Row],
    lasts: &[Row],
) -> Result<MoreAnswer, SqlStop>
    ensures { Comes (spec.join_end statement.now values.now left columns.now width firsts.now lasts.now) result }
{
    if left < cost(firsts.len(), lasts.len()) {
        return Err(SqlStop::Spent);
    }
    Ok(join_answer(alloc, statement, values, columns, width, firsts, lasts)?)
}

/// What follows the columns of both tables.
fn join_rows<T: Tables>(
    alloc: Global,
    statement: &JoinStmt,
    values: &[StoredCell],
    left: u64,
    firsts: &[Column],
    lasts: &[Column],
    tables: &mut T,
    calls: &mut Calls,
) -> Result<MoreAnswer, SqlStop>
    ensures { Ends (spec.join_rows statement.now values.now left firsts.now lasts.now)
        (keeping (T.stored tables.old) (T.faults tables.old) (T.answers tables.old) calls.old) result
        (keeping (T.stored tables.new) (T.faults tables.new) (T.answers tables.new) calls.new) }
{
    let columns = both_columns(alloc, statement, firsts, lasts)?;
    if let Some(cause) = join_cause(statement, values, columns.as_slice()) {
        return Err(SqlStop::Refused(cause));
    }
    let first_rows = table_rows(tables, calls, statement.table.as_slice())?;
    let last_rows = table_rows(tables, calls, statement.joined.as_slice())?;
    join_end(
        alloc,
        statement,
        values,
        left,
        columns.as_slice(),
        firsts.len(),
        first_rows.as_slice(),
        last_rows.as_slice(),
    )
}

/// The columns that a keeper gave of a table, without those that hold shadows, if they are of this project's shape.
pub(crate) fn shape_of(alloc: Global, kept: Option<Columns>) -> Result<Option<Columns>, AllocError>
    ensures { IfOk result (λ columns. columns ≡ spec.shape_of kept) }
{
    match kept {
        None => Ok(None),
        Some(kept) => shape(alloc, kept.as_slice()),
    }
}

/// What follows the answers to both `columns` calls.
fn join_on<T: Tables>(
    alloc: Global,
    statement: &JoinStmt,
    values: &[StoredCell],
    left: u64,
    firsts: Option<Columns>,
    lasts: Option<Columns>,
    tables: &mut T,
    calls: &mut Calls,
) -> Result<MoreAnswer, SqlStop>
    ensures { Ends (spec.join_on statement.now values.now left firsts lasts)
        (keeping (T.stored tables.old) (T.faults tables.old) (T.answers tables.old) calls.old) result
        (keeping (T.stored tables.new) (T.faults tables.new) (T.answers tables.new) calls.new) }
{
    let Some(firsts) = firsts else {
        return Err(SqlStop::Refused(SqlRefusal::NoTable));
    };
    let Some(lasts) = lasts else {
        return Err(SqlStop::Refused(SqlRefusal::NoTable));
    };
    join_rows(
        alloc,
        statement,
        values,
        left,
        firsts.as_slice(),
        lasts.as_slice(),
        tables,
        calls,
    )
}

/// Whether a table is joined with itself.
fn is_same(statement: &JoinStmt) -> bool
    ensures { result ≡ bytes_eq statement.now.table statement.now.joined }
{
    statement.table.as_slice() == statement.joined.as_slice()
}

fn carry_out<T: Tables>(
    alloc: Global,
    statement: &JoinStmt,
    values: &[StoredCell],
    left: u64,
    tables: &mut T,
    calls: &mut Calls,
) -> Result<MoreAnswer, SqlStop>
    ensures { Ends (spec.join_plan statement.now values.now left)
        (keeping (T.stored tables.old) (T.faults tables.old) (T.answers tables.old) calls.old) result
        (keeping (T.stored tables.new) (T.faults tables.new) (T.answers tables.new) calls.new) }
{
    if is_same(statement) {
        return Err(SqlStop::Refused(SqlRefusal::SameTable));
    }
    let kept = table_columns(tables, calls, statement.table.as_slice())?;
    let others = table_columns(tables, calls, statement.joined.as_slice())?;
    let firsts = shape_of(alloc, kept)?;
    let lasts = shape_of(alloc, others)?;
    join_on(alloc, statement, values, left, firsts, lasts, tables, calls)
}

/// Carries out a join. `cells` has the value of each literal of the statement, in the order in which they stand, with its shadow text; for NULL
/// the shadow is empty. `left`: the ticks that are left.
///
/// - `Refused` comes exactly where the join is refused, for the first cause in the order of `SqlRefusal`.
/// - `Keeper` comes exactly where the last call that was made failed.
/// - `Spent` comes exactly where looking at the pairs costs more than is left, or the number of the next call would pass
///   18,446,744,073,709,551,615.
/// - `Memory` comes only where memory was wanted.
///
/// After an answer or a refusal all calls of the statement were made; after the other ends those up to there. No table is changed.
pub fn exec_join<T: Tables>(
    alloc: Global,
    statement: &JoinStmt,
    cells: &Stored,
    left: u64,
    tables: &mut T,
    calls: &mut Calls,
) -> Result<MoreAnswer, SqlStop>
    ensures plan { Ends (spec.join_plan statement.now cells.now left)
        (keeping (T.stored tables.old) (T.faults tables.old) (T.answers tables.old) calls.old) result
        (keeping (T.stored tables.new) (T.faults tables.new) (T.answers tables.new) calls.new) }
    ensures cause { Blames result (keeping (T.stored tables.old) (T.faults tables.old) (T.answers tables.old) calls.old)
        (keeping (T.stored tables.new) (T.faults tables.new) (T.answers tables.new) calls.new) }
    ensures same { Stays (keeping (T.stored tables.old) (T.faults tables.old) (T.answers tables.old) calls.old)
        (keeping (T.stored tables.new) (T.faults tables.new) (T.answers tables.new) calls.new) }
{
    carry_out(alloc, statement, cells.as_slice(), left, tables, calls)
}
