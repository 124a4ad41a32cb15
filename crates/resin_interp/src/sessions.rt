//! `$_SESSION`, for whoever keeps what it holds from one request to the next.
ghost use Rattle.std.specs.Prelude.{◌≡◌, Ok};
ghost use Rattle.resin_eval_calls.specs.Under.machine.Steps.{Acts};
ghost use Rattle.resin_eval_calls.specs.Under.machine.Variables.{set_session as session_set};

use resin_eval_calls::under::machine::Machine;
use resin_eval_calls::under::value::{Arr, Value};

/// Makes `$_SESSION` this array. It takes no memory.
pub fn set_session(m: &mut Machine, a: Arr)
    ensures { Acts (session_set a) m.old (Ok tt) m.new }
{
    m.set_session(a);
}

/// What `$_SESSION` is: the empty array at first, null where a script unset it.
pub fn session(m: &Machine) -> &Value
    ensures { result.now ≡ m.now.session }
{
    m.session()
}
