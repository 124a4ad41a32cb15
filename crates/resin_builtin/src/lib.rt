//! The builtin functions that scripts call by name: what each takes, what it costs and what it answers.
//!
//! A caller looks the name up by `signature`, tests the count of the arguments by `Sig::takes`, turns each by `Sig::turned`, merges labels where
//! `Sig::merges` says so, and then makes the `call`. For the arguments of `sprintf` behind its format it asks `int_places`, and turns those that
//! are read as integers by `resin_array_fn::under::ops::to_int`. `get_class` reads the classes of objects, so that its caller evaluates it.
#![tactic(auto)]

mod answers;
mod arguments;
mod array_rows;
mod builtin;
mod calls;
mod format_row;
mod names;
mod replace_row;
mod signatures;
mod text_rows;
mod turns;
pub mod under;
mod value_rows;

pub use builtin::{Builtin, Digest, OneArray, OneInteger, OneText, Test, TrimSide, TwoTexts};
pub use calls::{call, cost};
pub use names::builtin_named;
pub use resin_format::int_places;
pub use signatures::{ArgKind, Sig, signature};
pub use turns::turned_into;
