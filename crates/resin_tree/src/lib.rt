//! The trees of the language: programs, declarations, statements and expressions.
//!
//! Lists, boxes and shared parts are seen in contracts as what they hold, so a tree is plain data there.
//!
//! Trees have a `drop` of their own, which is no other than a derived one would be: it is proved here once, and not again in
//! each crate that lets a tree go, behind each fault that it may meet. A step of a path alone is taken apart by the crates above.
#![tactic(auto)]

mod declaration;
mod expression;
mod name;
mod statement;

pub use declaration::{
    ClassDecl, Constant, ConstantItem, Function, Item, Parameter, Program, Property,
};
pub use expression::{
    Access, ArrayItem, Assignment, Call, Combining, Comparison, ConstantName, Expr, Import,
    Literal, Operation, PathStep, Target, Test, Unary,
};
pub use name::Name;
pub use resin_items::{Boxed, Items, Shared, SharedBytes};
pub use statement::{Branch, Case, Catch, Loop, Simple, Stmt, StmtKind};
