//! `sql_query`: statements over tables, whose literals are kept with their policies, and whose cells bring theirs back.
//!
//! The text of a call passes the filters of its channel, and what they give is read ([`Querier`](queries::Querier)). Its literals are kept with their
//! policies before the first keeper call, it is carried out by `resin_plan` or `resin_sql_more`, and what it answers is made of the cells one by one.
#![tactic(auto)]

mod cells;
mod literals;
pub mod queries;
mod rows;
mod totals;
pub mod under;
