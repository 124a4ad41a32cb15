//! `sprintf`: formats, their arguments, and how each is read.
//!
//! `specs/Forms.antt` says what may stand behind a `%`, `specs/Directives.antt` what a format is, `specs/Arguments.antt` how an argument is
//! written, and `specs/Formats.antt` what `sprintf` answers: the text with its sets, what it throws, or that it is too long. `argument_kinds` and
//! `int_places` tell before the call which arguments are read as integers. A format is read once, from the left.
#![tactic(auto)]

mod args;
mod form;
mod pieces;
mod places;
mod spelling;
pub mod under;
mod walk;

pub use args::{FormatArg, FormatArgs};
pub use form::Kind;
pub use places::{Kinds, argument_kinds, int_places};
pub use spelling::sprintf;
