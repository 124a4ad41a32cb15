//! Where bytes come from.
ghost use Rattle.std.specs.Prelude.{ℕ, List, Option, ◌<◌, ◌≤◌, length, IfOk};
ghost use Rattle.resin_base.specs.Causes.{TakeHasCause};
ghost use Rattle.resin_base.specs.Contents.{Told};
ghost use Rattle.resin_base.specs.Moves.{Takes};

use crate::faults::Failed;

/// A stream of bytes that is read once, from its front.
pub trait Source {
    /// The bytes that are left, where they are told.
    ghost left: { Self → Option (List ℕ) };

    /// How often a call failed; at its last value the count stays.
    ghost faults: { Self → ℕ };

    /// Takes bytes to the front of a nonempty buffer, and answers how many. It answers 0 exactly where nothing is left.
    fn take(&mut self, buf: &mut [u8]) -> Result<usize, Failed>
        requires { 0 < length buf.old }
        ensures bound { IfOk result (λ count. count ≤ length buf.old) }
        ensures moved { Told (left self.old) (left self.new) (Takes buf.old buf.new result) }
        ensures cause { TakeHasCause (faults self.old) (faults self.new) result };
}
