//! Scalars of the script language, their conversions and comparisons, the fuel of a request, and what ends a script too early.
//!
//! `truth`, `number`, `cast_int` and `compare` are PHP's tables without floats (`specs/Scalars.antt`): each promises the table's answer, and its
//! fault exactly where that has none. `Ticks` never pay more than is left. `specs/Faults.antt` has the names of faults and errors,
//! `specs/Stops.antt` what a call gives in place of an answer.
#![tactic(auto)]

mod faults;
mod scalar;
mod ticks;

pub use faults::{CallStop, ErrorKind, ScriptFault};
pub use scalar::{NumFault, Scalar, cast_int, compare, number, truth};
pub use ticks::{Spent, Ticks};
