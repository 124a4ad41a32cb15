//! Statements of SQL, joins and totals, read from labelled texts: the joint grammar.
//!
//! - the statements of `resin_sql`, as they are there
//! - `SELECT q, .. FROM t JOIN u ON q = q`, then optionally `WHERE` and a condition with q in place of each column, and `LIMIT n`.
//!   A q is `t.c` without blanks. Where t and u are two tables, the two q of ON are not both of t, nor both of u.
//! - `SELECT f, .. FROM t`, then optionally `WHERE` and a condition. An f is `COUNT(*)`, `SUM(c)`, `MIN(c)`, `MAX(c)` or
//!   `GROUP_CONCAT(c)`, with blanks allowed inside the brackets.
//!
//! The words `JOIN`, `ON`, `COUNT`, `SUM`, `MIN`, `MAX` and `GROUP_CONCAT` are read in any case, and each may be a name, too. A
//! SELECT is one of the three by its first item.
//!
//! `specs/Joins.antt`, `specs/Totals.antt` and `specs/Joint.antt` have this grammar, as forms over the bytes of a text, and
//! `specs/Answers.antt` says what a text is by it: a statement, or none, and where the first fault is.
#![tactic(auto)]

mod joins;
mod laws;
mod listed;
mod read;
mod selects;
mod totals;
mod tree;

pub use joins::table_of;
pub use laws::joint_laws;
pub use listed::more_literals;
pub use read::read_more;
pub use tree::{JoinStmt, MoreStmt, TotalItem, TotalStmt};
