//! The look at a source text.

use crate::end::End;
use crate::place::Place;
use resin_lex::ParseFault;
use resin_parse::program;
use std::alloc::Global;

/// The most bytes of a source text.
pub(crate) const MOST_BYTES: usize = 16_777_216;

/// Whether a text is a program, and where not.
pub(crate) fn look(alloc: Global, text: &[u8]) -> End {
    if text.len() > MOST_BYTES {
        return End::TooLong;
    }
    match program(alloc, text) {
        Ok(_) => End::Program,
        Err(ParseFault::Syntax { offset }) => End::Syntax(Place::of(text, offset)),
        Err(ParseFault::TooDeep { offset }) => End::TooDeep(Place::of(text, offset)),
        Err(ParseFault::Memory) => End::Memory,
    }
}
