//! Statements as trees.

use resin_base::{Columns, Names};
use resin_bytes::Bytes;
use resin_items::Items;
use resin_sql_words::Literal;

/// A statement. An optional part is an `Option`.
#[derive(Drop)]
pub enum Stmt {
    Create(Create),
    Insert(Insert),
    Select(Select),
    Update(Update),
    Delete(Delete),
}

/// `CREATE TABLE table (columns)`
#[derive(Drop)]
pub struct Create {
    pub table: Bytes,
    /// 1 to 64 of them.
    pub columns: Columns,
}

/// `INSERT INTO table (columns) VALUES rows`
#[derive(Drop)]
pub struct Insert {
    pub table: Bytes,
    /// The named columns, in the order of the cells of a row; the table's own where there are none.
    pub columns: Option<Names>,
    pub rows: Items<Items<Literal>>,
}

/// `SELECT columns FROM table WHERE condition ORDER BY order LIMIT limit`
#[derive(Drop)]
pub struct Select {
    /// The named columns; those of the table where `*` stands.
    pub columns: Option<Names>,
    pub table: Bytes,
    pub condition: Option<Condition>,
    pub order: Option<Order>,
    /// At most 9,223,372,036,854,775,807.
    pub limit: Option<u64>,
}

/// `UPDATE table SET changes WHERE condition`
#[derive(Drop)]
pub struct Update {
    pub table: Bytes,
    pub changes: Items<Change>,
    pub condition: Option<Condition>,
}

/// `DELETE FROM table WHERE condition`
#[derive(Drop)]
pub struct Delete {
    pub table: Bytes,
    pub condition: Option<Condition>,
}

/// `column = literal`, as a change of a cell.
#[derive(Drop)]
pub struct Change {
    pub column: Bytes,
    pub literal: Literal,
}

/// `ORDER BY column`
#[derive(Drop)]
pub struct Order {
    pub column: Bytes,
    /// `DESC`; without a direction it is `ASC`.
    pub descending: bool,
}

/// What a row must meet. What stands behind WHERE or in brackets is an `Any` of `All`s, each of tests and brackets.
#[derive(Drop)]
pub enum Condition {
    Test(Test),
    /// Joined by AND.
    All(Items<Condition>),
    /// Joined by OR.
    Any(Items<Condition>),
}

/// A test of a cell.
#[derive(Drop)]
pub enum Test {
    /// `column op literal`
    Compare(Bytes, Comparison, Literal),
    /// `column IS NULL`, or `column IS NOT NULL` where the second part is true.
    Null(Bytes, bool),
}

/// How a cell is compared.
#[derive(Clone, Copy, Debug, PartialEq, Eq)]
pub enum Comparison {
    Equal,
    NotEqual,
    Less,
    LessOrEqual,
    Greater,
    GreaterOrEqual,
}
