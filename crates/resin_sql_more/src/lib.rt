//! Joins and totals of SQL: the reader of all statements, and what carries out those two.
//!
//! [`read_more`] reads a statement of `resin_sql`, a join or a total. A plain one is carried out by `resin_plan`; [`exec_join`] and
//! [`exec_total`] carry out the others. Neither changes a table.
//!
//! - A join makes the keeper calls `columns` of both tables and then `rows` of both; a total `columns` and `rows`. A join of a table with
//!   itself is refused before any call; every other refused join makes both `columns` calls, a refused total its one.
//! - A join answers the pairs of rows, by the first table's row and then the second's, whose ON cells are equal and not NULL and whose tests hold,
//!   cut by LIMIT. Each cell keeps its shadow, and is named as its column was written, `t.c`.
//! - A total answers for each item the cells of its column in the chosen rows, in their order and without those that are NULL, and how many
//!   rows were chosen. [`item_value`] is what SUM, MIN, MAX and GROUP_CONCAT make of them once they are read, without its labels.
//! - What looking at the rows costs in ticks, |t| + |u| + |t| * |u| for a join and |t| for a total, is told; where it is more than is left,
//!   nothing is looked at.
//!
//! `specs/Joins.antt` and `specs/Totals.antt` say this, and `specs/Plans.antt` what it means that a run went along it.
#![tactic(auto)]

mod answer;
mod items;
mod joins;
mod pairs;
mod totals;
pub mod under;
mod values;

pub use answer::MoreAnswer;
pub use items::{first_items, is_null, item_name};
pub use joins::exec_join;
pub use resin_joint::{JoinStmt, MoreStmt, TotalItem, TotalStmt, read_more};
pub use resin_sql::SqlStop as MoreStop;
pub use totals::exec_total;
pub use values::{TotalFault, item_value};
