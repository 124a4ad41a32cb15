//! Statements of SQL, read from labelled texts.
//!
//! - `CREATE TABLE t (c INTEGER, d TEXT, ..)` with 1 to 64 columns
//! - `INSERT INTO t VALUES (l, ..), ..` and `INSERT INTO t (c, ..) VALUES (l, ..), ..`
//! - `SELECT * FROM t` and `SELECT c, .. FROM t`, then optionally `WHERE w`, `ORDER BY c` with or without `ASC` or `DESC`, and `LIMIT n`
//! - `UPDATE t SET c = l, ..` and `DELETE FROM t`, then optionally `WHERE w`
//!
//! A condition w is tests joined by `OR` and, tighter, `AND`, with brackets nested at most 50. A test is `c op l` with
//! `= <> < <= > >=`, `c IS NULL` or `c IS NOT NULL`. A literal l is `NULL`, digits with an optional `-` in 64 bits, or `'..'` with
//! `''` for a quote; n is digits up to 9,223,372,036,854,775,807. Keywords are read in any case. Names are
//! `[A-Za-z_][A-Za-z0-9_]*`, at most 64 bytes, no keyword, and don't end with `__resin`. Blanks are space, tab, CR and LF; they are
//! needed only where two words, or a word and digits, would run together. One `;` may end the text. There are no comments.
//! `read_sql` gives exactly the statement that a text is, or the place of its fault, and `literal_text` the bytes of a literal with their
//! policies; `sql_laws` says that a text is read in one way. `specs/Conditions.antt` and `specs/Statements.antt` have this grammar, as forms over
//! the bytes of a text, and `specs/Answers.antt` says what a text is by it: a statement, or none, and where the first fault is.
//!
//! ```rust
//! let text = LText::plain(alloc, b"SELECT a FROM t WHERE b = 'it''s'")?;
//! let statement = read_sql(alloc, &text)?;
//! let fault = read_sql(alloc, &LText::plain(alloc, b"SELECT")?); // Err(SqlFault::Bad { offset: 6 })
//! ```
#![tactic(auto)]

mod condition;
mod fault;
mod labels;
mod laws;
mod listed;
mod lists;
mod messages;
mod read;
mod statement;
mod tree;

/// Readers of parts of statements, and of where words begin, for a grammar that has these statements and others.
pub mod parts {
    pub use crate::condition::{Naming, column_of, with_table};
    pub use crate::listed::where_literals;
    pub use crate::lists::{is_comma, more_names};
    pub use crate::read::last_start;
    pub use crate::statement::{
        begins_statement, begun_by, chosen, ending, limit, ordering, source,
    };
}

pub use fault::{SqlFault, SqlRefusal, SqlStop};
pub use labels::literal_text;
pub use laws::sql_laws;
pub use listed::literals;
pub use messages::syntax_message;
pub use read::read_sql;
pub use resin_sql_words::{Literal, Span};
pub use tree::{
    Change, Comparison, Condition, Create, Delete, Insert, Order, Select, Stmt, Test, Update,
};
