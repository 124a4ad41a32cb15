//! Statements of the joint grammar as trees.

use resin_base::Names;
use resin_bytes::Bytes;
use resin_items::Items;
use resin_sql::{Condition, Stmt};

/// A statement of the joint grammar.
#[derive(Drop)]
pub enum MoreStmt {
    /// One that `read_sql` reads, too.
    Plain(Stmt),
    Join(JoinStmt),
    Total(TotalStmt),
}

/// `SELECT columns FROM table JOIN joined ON column = column WHERE condition LIMIT limit`. Each column is named as it was
/// written, `t.c`, also in the tests of the condition.
#[derive(Drop)]
pub struct JoinStmt {
    pub columns: Names,
    pub table: Bytes,
    pub joined: Bytes,
    /// The two columns that are to be equal.
    pub on: (Bytes, Bytes),
    pub condition: Option<Condition>,
    /// At most 9,223,372,036,854,775,807.
    pub limit: Option<u64>,
}

/// `SELECT items FROM table WHERE condition`
#[derive(Drop)]
pub struct TotalStmt {
    pub items: Items<TotalItem>,
    pub table: Bytes,
    pub condition: Option<Condition>,
}

/// What a total asks for: the count of the chosen rows, or a value of the cells of a column in them.
#[derive(Drop)]
pub enum TotalItem {
    /// `COUNT(*)`
    Count,
    Sum(Bytes),
    Min(Bytes),
    Max(Bytes),
    GroupConcat(Bytes),
}

/// The function of an item, before its column was read.
#[derive(Clone, Copy)]
pub enum Function {
    Count,
    Sum,
    Min,
    Max,
    GroupConcat,
}
