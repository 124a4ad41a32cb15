//! Calls of `sql_query`.
ghost use Rattle.resin_eval_writes.specs.Under.eval_nested.Nested.{Nests, means};
ghost use Rattle.resin_eval_writes.specs.Under.eval_nested.Running.{Performs};
ghost use Rattle.resin_eval_writes.specs.Under.lstr.Texts.{bytes_of};
ghost use Rattle.resin_eval_writes.specs.Under.meaning_forms.Queries.{answered, executed, joined, more_answered, refused};
ghost use Rattle.resin_eval_writes.specs.Under.meaning_forms.Queries.{result_value, run_read, sql_query, totalled};
ghost use Rattle.resin_eval_writes.specs.Under.meaning_forms.Runs.{Runs, on_ok};
ghost use Rattle.resin_eval_writes.specs.Under.value.Seen.{tree_of};
ghost use Rattle.resin_eval_writes.specs.Under.meaning_tables.Under.joint.Readings.{read_more_as};
ghost use Rattle.resin_eval_writes.specs.Under.meaning_tables.Under.sql.Messages.{message};
ghost use Rattle.resin_eval_writes.specs.Under.label.Sets.{empty as no_labels};
ghost use Rattle.resin_eval_writes.specs.Under.value.Trees.{integer};
ghost use Rattle.resin_eval_writes.specs.Under.meaning_tables.Plans.{carried_out, carried_with_ticks};
ghost use Rattle.resin_eval_writes.specs.Under.meaning_tables.Under.plan.Statements.{plan};
ghost use Rattle.resin_eval_writes.specs.Under.meaning_tables.Under.sql_more.Joins.{join_plan};
ghost use Rattle.resin_eval_writes.specs.Under.meaning_tables.Under.sql_more.Totals.{total_plan};
ghost use Rattle.std.specs.Prelude.{IfOk, Ok, pos, ◌≡◌};

use crate::literals::LiteralKeeper;
use crate::rows::RowReader;
use crate::totals::Totaller;
use resin_eval_writes::leaving::context_of;
use resin_eval_writes::reading::Reader;
use resin_eval_writes::under::base::{Files, Stored, Tables};
use resin_eval_writes::under::eval_nested::nested::{Evaluator, Nested, Outcome};
use resin_eval_writes::under::eval_nested::run::Run;
use resin_eval_writes::under::heap::PreludeClass;
use resin_eval_writes::under::journal::Channel;
use resin_eval_writes::under::lstr::LText;
use resin_eval_writes::under::machine::{Machine, Stop};
use resin_eval_writes::under::meaning_tables::under::joint::more_literals;
use resin_eval_writes::under::meaning_tables::under::plan::{SqlAnswer, SqlResult};
use resin_eval_writes::under::meaning_tables::under::sql::{
    SqlFault, SqlRefusal, Stmt, syntax_message,
};
use resin_eval_writes::under::meaning_tables::under::sql_more::{
    JoinStmt, MoreAnswer, MoreStmt, TotalItem, TotalStmt, read_more,
};
use resin_eval_writes::under::meaning_tables::{carry_out, carry_out_join, carry_out_total};
use resin_eval_writes::under::step_parts::reads::number;
use resin_eval_writes::under::value::Value;
use std::alloc::{AllocError, Global};

/// The largest integer.
const MOST: u64 = 9_223_372_036_854_775_807;

// An exception with a message.
fn throw(m: &mut Machine, message: &[u8]) -> Result<Value, Stop>
    ensures { Runs (refused message.now) m.old (on_ok tree_of result) m.new }
{
    m.throw(PreludeClass::SqlException, message)
}

// A refusal is an exception with its message.
fn refuse(m: &mut Machine, refusal: SqlRefusal) -> Result<Value, Stop>
    ensures { Runs (refused (message refusal)) m.old (on_ok tree_of result) m.new }
{
    throw(m, refusal.message().as_bytes())
}

// A count of rows. More than an integer counts find no memory.
fn count_of(n: u64) -> Result<Value, AllocError>
    ensures { IfOk result (λ v. tree_of v ≡ integer (pos n) no_labels) }
{
    if n > MOST {
        return Err(AllocError);
    }
    Ok(number(n as i64))
}

/// Statements over tables, in an evaluation.
#[derive(Drop)]
pub struct Querier<'e, F, T, N> {
    pub by: &'e Evaluator<F, T, N>,
}

impl<
    F: Files,
    T: Tables,
    N: Fn(Global, u32, Nested<'_>, &mut Run<F, T>) -> Result<Outcome, Stop> + Copy,
> Querier<'_, F, T, N> {
    // What a statement answers: a count, or rows.
    fn answer(&self, run: &mut Run<F, T>, came: &SqlResult) -> Result<Value, Stop>
        requires { Nests F.Files T.Tables N.pre N.post self.now.by.now }
        ensures { Performs F.Files T.Tables (result_value (means self.now.by.now) came.now) run.old (on_ok tree_of result) run.new }
    {
        match came {
            SqlResult::Count(n) => Ok(count_of(*n)?),
            SqlResult::Rows(names, rows) => {
                RowReader { by: self.by }.rows(run, names.as_slice(), rows.as_slice())
            }
        }
    }

    // The rows that the keeper gave are charged, and then the answer is made.
    fn answered(
        &self,
        run: &mut Run<F, T>,
        end: Result<SqlAnswer, SqlRefusal>,
    ) -> Result<Value, Stop>
        requires { Nests F.Files T.Tables N.pre N.post self.now.by.now }
        ensures { Performs F.Files T.Tables (answered (means self.now.by.now) end) run.old (on_ok tree_of result) run.new }
    {
        match end {
            Ok(answer) => {
                run.machine.charge(answer.scanned)?;
                self.answer(run, &answer.result)
            }
            Err(refusal) => refuse(&mut run.machine, refusal),
        }
    }

    // The cost of a join is charged, and then its rows are made.
    fn joined(
        &self,
        run: &mut Run<F, T>,
        end: Result<MoreAnswer, SqlRefusal>,
    ) -> Result<Value, Stop>
        requires { Nests F.Files T.Tables N.pre N.post self.now.by.now }
        ensures { Performs F.Files T.Tables (more_answered (joined (means self.now.by.now)) end) run.old (on_ok tree_of result) run.new }
    {
        match end {
            Ok(answer) => {
                run.machine.charge(answer.scanned)?;
                let rows = answer.rows.as_slice();
                RowReader { by: self.by }.rows(run, answer.names.as_slice(), rows)
            }
            Err(refusal) => refuse(&mut run.machine, refusal),
        }
    }

    // The same of a total.
    fn totalled(
        &self,
        run: &mut Run<F, T>,
        items: &[TotalItem],
        end: Result<MoreAnswer, SqlRefusal>,
    ) -> Result<Value, Stop>
        requires { Nests F.Files T.Tables N.pre N.post self.now.by.now }
        ensures { Performs F.Files T.Tables (more_answered (totalled (means self.now.by.now) items.now) end) run.old (on_ok tree_of result) run.new }
    {
        match end {
            Ok(answer) => {
                run.machine.charge(answer.scanned)?;
                Totaller { by: self.by }.total(run, items, &answer)
            }
            Err(refusal) => refuse(&mut run.machine, refusal),
        }
    }

    // A statement that is no join and no total is carried out.
    fn plain(
        &self,
        run: &mut Run<F, T>,
        statement: &Stmt,
        cells: &Stored,
    ) -> Result<Result<SqlAnswer, SqlRefusal>, Stop>
        ensures { Performs F.Files T.Tables (carried_out (plan statement.now cells.now)) run.old result run.new }
    {
        let tables = &mut run.tables;
        carry_out(
            self.by.alloc,
            &run.machine,
            statement,
            cells,
            tables,
            &mut run.calls,
        )
    }

    // A join is.
    fn join(
        &self,
        run: &mut Run<F, T>,
        statement: &JoinStmt,
        cells: &Stored,
    ) -> Result<Result<MoreAnswer, SqlRefusal>, Stop>
        ensures { Performs F.Files T.Tables (carried_with_ticks (join_plan statement.now cells.now)) run.old result run.new }
    {
        let tables = &mut run.tables;
        carry_out_join(
            self.by.alloc,
            &run.machine,
            statement,
            cells,
            tables,
            &mut run.calls,
        )
    }

    // A total is.
    fn total(
        &self,
        run: &mut Run<F, T>,
        statement: &TotalStmt,
        cells: &Stored,
    ) -> Result<Result<MoreAnswer, SqlRefusal>, Stop>
        ensures { Performs F.Files T.Tables (carried_with_ticks (total_plan statement.now cells.now)) run.old result run.new }
    {
        let tables = &mut run.tables;
        carry_out_total(
            self.by.alloc,
            &run.machine,
            statement,
            cells,
            tables,
            &mut run.calls,
        )
    }

    // A statement whose literals are kept so.
    fn execute(
        &self,
        run: &mut Run<F, T>,
        statement: &MoreStmt,
        cells: &Stored,
    ) -> Result<Value, Stop>
        requires { Nests F.Files T.Tables N.pre N.post self.now.by.now }
        ensures { Performs F.Files T.Tables (executed (means self.now.by.now) statement.now cells.now) run.old (on_ok tree_of result) run.new }
    {
        match statement {
            MoreStmt::Plain(statement) => {
                let end = self.plain(run, statement, cells)?;
                self.answered(run, end)
            }
            MoreStmt::Join(statement) => {
                let end = self.join(run, statement, cells)?;
                self.joined(run, end)
            }
            MoreStmt::Total(statement) => {
                let end = self.total(run, statement, cells)?;
                self.totalled(run, statement.items.as_slice(), end)
            }
        }
    }

    // A statement that a text is: its literals are kept, which makes no keeper call, and then it is carried out.
    fn run_statement(
        &self,
        run: &mut Run<F, T>,
        text: &LText,
        statement: &MoreStmt,
    ) -> Result<Value, Stop>
        requires { Nests F.Files T.Tables N.pre N.post self.now.by.now }
        ensures { Performs F.Files T.Tables (run_read (means self.now.by.now) text.now (Ok statement.now)) run.old (on_ok tree_of result) run.new }
    {
        let literals = more_literals(self.by.alloc, statement)?;
        let cells = LiteralKeeper { by: self.by }.literals(run, text, literals.as_slice())?;
        self.execute(run, statement, &cells)
    }

    // What a text is read as is run; a text that is no statement is refused.
    fn run_text(&self, run: &mut Run<F, T>, text: &LText) -> Result<Value, Stop>
        requires { Nests F.Files T.Tables N.pre N.post self.now.by.now }
        ensures { Performs F.Files T.Tables (run_read (means self.now.by.now) text.now (read_more_as (bytes_of text.now)))
            run.old (on_ok tree_of result) run.new }
    {
        match read_more(self.by.alloc, text) {
            Ok(statement) => self.run_statement(run, text, &statement),
            Err(SqlFault::Bad { offset }) => {
                let message = syntax_message(self.by.alloc, offset)?;
                throw(&mut run.machine, message.as_slice())
            }
            Err(SqlFault::Memory) => Err(Stop::Memory),
        }
    }

    /// `sql_query`: the text passes the filters of the channel, and what they give is carried out. A SELECT, a join or a total answers a list
    /// of arrays from the names of columns to their cells; INSERT, UPDATE and DELETE how many rows were made, changed or taken out; CREATE 0.
    ///
    /// # Errors
    ///
    /// How a filter and a merge stop; SqlException, whose message is `syntax at N` with the offset where the text is no statement, or says
    /// why the statement is refused; `NotStorable` for a policy that can't be kept; `Keeper` where a keeper call failed; `FuelSpent` where
    /// the rows, or the policies of cells, take more ticks than are left, or no number is left for a keeper call; `TextTooLong` and
    /// `BadShadow` of a cell that is answered; `IntegerOverflow` and `TextTooLong` of a total.
    pub fn sql_query(&self, run: &mut Run<F, T>, text: &LText) -> Result<Value, Stop>
        requires { Nests F.Files T.Tables N.pre N.post self.now.by.now }
        ensures { Performs F.Files T.Tables (sql_query (means self.now.by.now) text.now) run.old (on_ok tree_of result) run.new }
    {
        let context = Value::Arr(context_of(self.by.alloc, b"sql")?);
        let given = text.clone()?;
        let kept = Reader { by: self.by }.keep_through(run, Channel::Sql, &context, given)?;
        self.run_text(run, &kept)
    }
}
