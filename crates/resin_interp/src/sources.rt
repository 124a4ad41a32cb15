//! Source texts: the programs that are read of them.
ghost use Rattle.std.specs.Prelude.{◌≡◌, ◌≤◌, length};
ghost use Rattle.resin_eval_calls.specs.Under.lstr.declared.limits.TheConstants.{LONGEST};
ghost use Rattle.resin_eval_calls.specs.Under.meaning.Runs.{Does, World};
ghost use Rattle.resin_eval_calls.specs.Under.meaning_forms.Sources.{program_of};
ghost use Rattle.resin_lex.specs.Lines.{line_of};

use resin_eval_calls::under::machine::{Machine, Stop};
use resin_eval_calls::under::scalar::ScriptFault;
use resin_lex::{ParseFault, line_of};
use resin_parse::program;
use resin_tree::Program;
use std::alloc::Global;

const MOST_TEXT: usize = 16_777_216;

// The line of a place of a text, from 1; behind the text that of its end.
fn line_at(src: &[u8], place: u32) -> u32
    requires { length src.now ≤ LONGEST }
    ensures { result ≡ line_of src.now place }
{
    if place as usize <= src.len() {
        line_of(src, place)
    } else {
        line_of(src, src.len() as u32)
    }
}

/// The program of a source text of at most 16,777,216 bytes.
///
/// # Errors
///
/// The faults `Syntax` and `TooDeep`, with the line of the place where the text stops being the front of a program.
pub fn read_source(alloc: Global, src: &[u8]) -> Result<Program, Stop>
    requires { length src.now ≤ LONGEST }
    ensures { (w : World) → Does (program_of src.now) w result w }
{
    match program(alloc, src) {
        Ok(p) => Ok(p),
        Err(ParseFault::Syntax { offset }) => {
            Err(Stop::Fault(ScriptFault::Syntax, line_at(src, offset)))
        }
        Err(ParseFault::TooDeep { offset }) => {
            Err(Stop::Fault(ScriptFault::TooDeep, line_at(src, offset)))
        }
        Err(ParseFault::Memory) => Err(Stop::Memory),
    }
}

// The same where the text is that of an import, which no caller makes longer than a text may be.
pub(crate) fn read_nested(alloc: Global, m: &Machine, src: &[u8]) -> Result<Program, Stop>
    ensures { length src.now ≤ LONGEST → (w : World) → Does (program_of src.now) w result w }
{
    if src.len() > MOST_TEXT {
        return Err(m.fault(ScriptFault::TextTooLong));
    }
    read_source(alloc, src)
}
