//! Arithmetic on integers.
ghost use Rattle.std.specs.Prelude.{◌≡◌, ◌≢◌, pos, MatchOption, Ok, Err};
ghost use Rattle.resin_ops.specs.Arithmetic.{arith_of, even_quotient};

use crate::operator::Arith;
use resin_value::under::scalar::{CallStop, ErrorKind, ScriptFault};

/// The answer of an operator on two integers of 64 bits. `IntegerOverflow` comes exactly where the exact answer is outside 64 bits, `FloatNeeded`
/// exactly where `/` leaves a remainder, `DivisionByZeroError` exactly for `/` and `%` by 0. `%` has the sign of its left side.
pub fn arith(op: Arith, a: i64, b: i64) -> Result<i64, CallStop>
    ensures { result ≡ arith_of op a b }
{
    match op {
        Arith::Add => within(a.checked_add(b)),
        Arith::Sub => within(a.checked_sub(b)),
        Arith::Mul => within(a.checked_mul(b)),
        Arith::Div | Arith::Rem if b == 0 => Err(CallStop::Throw(ErrorKind::DivisionByZero)),
        Arith::Div => divide(a, b),
        Arith::Rem => Ok(a.wrapping_rem(b)),
    }
}

// A division that leaves nothing.
fn divide(a: i64, b: i64) -> Result<i64, CallStop>
    requires { b ≢ pos 0 }
    ensures { result ≡ even_quotient a b }
{
    if a.wrapping_rem(b) != 0 {
        return Err(CallStop::Fault(ScriptFault::FloatNeeded));
    }
    within(a.checked_div(b))
}

// A number that fits 64 bits.
fn within(number: Option<i64>) -> Result<i64, CallStop>
    ensures { MatchOption number (result ≡ Err (CallStop.Fault ScriptFault.IntegerOverflow)) (λ n. result ≡ Ok n) }
{
    number.ok_or(CallStop::Fault(ScriptFault::IntegerOverflow))
}
