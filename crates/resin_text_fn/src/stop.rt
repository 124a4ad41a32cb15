//! Why a call gives no text.
ghost use Rattle.std.specs.Prelude.{◌≡◌};
ghost use Rattle.resin_text_fn.specs.Stops.{text_stop};

use resin_lstr::TextFault;
use resin_scalar::{CallStop, ScriptFault};

// Why there is no text, as the end of a call.
pub(crate) fn text_stop(fault: TextFault) -> CallStop
    ensures { result ≡ text_stop fault }
{
    match fault {
        TextFault::TooLong => CallStop::Fault(ScriptFault::TextTooLong),
        TextFault::Memory => CallStop::Memory,
    }
}
