//! Answers of builtins that give a text.
ghost use Rattle.resin_lstr.specs.Texts.{Text};
ghost use Rattle.resin_lstr.specs.Faults.{GivesText};
ghost use Rattle.resin_escape_fn.specs.Stops.{GivesOrNoMemory, fitting};

use resin_lstr::{LText, TextFault};
use resin_scalar::{CallStop, ScriptFault};

/// What a builtin answers whose text may be too long: `TextTooLong` exactly where it is.
pub fn text_answer(text: Result<LText, TextFault>) -> Result<LText, CallStop>
    ensures { (t : Text) → GivesText text t → GivesOrNoMemory result (fitting t) }
{
    match text {
        Ok(text) => Ok(text),
        Err(TextFault::TooLong) => Err(CallStop::Fault(ScriptFault::TextTooLong)),
        Err(TextFault::Memory) => Err(CallStop::Memory),
    }
}
