//! The literals of a statement.

ghost use Rattle.std.specs.Prelude.{◌≡◌, ◌++◌, IfOk, OnOk};
ghost use Rattle.std.specs.List.{flat_map};
ghost use Rattle.resin_sql.specs.Literals as spec;

use crate::tree::{Change, Condition, Stmt, Test};
use resin_items::Items;
use resin_sql_words::Literal;
use std::alloc::{AllocError, Global};

fn put_test(found: &mut Items<Literal>, test: &Test) -> Result<(), AllocError>
    ensures { OnOk result (found.new ≡ found.old ++ spec.of_test test.now) }
{
    match test {
        Test::Compare(_, _, literal) => found.push(*literal),
        Test::Null(_, _) => Ok(()),
    }
}

#[cycle(conditions)]
fn put_condition(found: &mut Items<Literal>, condition: &Condition) -> Result<(), AllocError>
    ensures { OnOk result (found.new ≡ found.old ++ spec.of_condition condition.now) }
{
    match condition {
        Condition::Test(test) => put_test(found, test),
        Condition::All(parts) => put_conditions(found, parts.as_slice()),
        Condition::Any(parts) => put_conditions(found, parts.as_slice()),
    }
}

#[cycle(conditions)]
fn put_conditions(found: &mut Items<Literal>, parts: &[Condition]) -> Result<(), AllocError>
    ensures { OnOk result (found.new ≡ found.old ++ flat_map spec.of_condition parts.now) }
{
    for part in parts {
        put_condition(found, part)?;
    }
    Ok(())
}

fn put_where(found: &mut Items<Literal>, condition: &Option<Condition>) -> Result<(), AllocError>
    ensures { OnOk result (found.new ≡ found.old ++ spec.of_where condition.now) }
{
    match condition {
        None => Ok(()),
        Some(condition) => put_condition(found, condition),
    }
}

fn put_row(found: &mut Items<Literal>, row: &[Literal]) -> Result<(), AllocError>
    ensures { OnOk result (found.new ≡ found.old ++ row.now) }
{
    for literal in row {
        found.push(*literal)?;
    }
    Ok(())
}

fn put_rows(found: &mut Items<Literal>, rows: &[Items<Literal>]) -> Result<(), AllocError>
    ensures { OnOk result (found.new ≡ found.old ++ spec.of_rows rows.now) }
{
    for row in rows {
        put_row(found, row.as_slice())?;
    }
    Ok(())
}

fn put_changes(found: &mut Items<Literal>, changes: &[Change]) -> Result<(), AllocError>
    ensures { OnOk result (found.new ≡ found.old ++ spec.of_changes changes.now) }
{
    for change in changes {
        found.push(change.literal)?;
    }
    Ok(())
}

fn put_statement(found: &mut Items<Literal>, statement: &Stmt) -> Result<(), AllocError>
    ensures { OnOk result (found.new ≡ found.old ++ spec.literals statement.now) }
{
    match statement {
        Stmt::Create(_) => Ok(()),
        Stmt::Insert(insert) => put_rows(found, insert.rows.as_slice()),
        Stmt::Select(select) => put_where(found, &select.condition),
        Stmt::Update(update) => {
            put_changes(found, update.changes.as_slice())?;
            put_where(found, &update.condition)
        }
        Stmt::Delete(delete) => put_where(found, &delete.condition),
    }
}

/// The literals of what may stand behind WHERE.
pub fn where_literals(
    alloc: Global,
    condition: &Option<Condition>,
) -> Result<Items<Literal>, AllocError>
    ensures { IfOk result (λ found. found ≡ spec.of_where condition.now) }
{
    let mut found = Items::new(alloc);
    put_where(&mut found, condition)?;
    Ok(found)
}

/// The literals of a statement, `NULL` among them, in the order in which they stand. A statement is carried out with one value
/// for each of them, in this order. The number of LIMIT is none.
pub fn literals(alloc: Global, statement: &Stmt) -> Result<Items<Literal>, AllocError>
    ensures { IfOk result (λ found. found ≡ spec.literals statement.now) }
{
    let mut found = Items::new(alloc);
    put_statement(&mut found, statement)?;
    Ok(found)
}
