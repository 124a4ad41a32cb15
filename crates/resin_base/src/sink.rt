//! Where bytes go.
ghost use Rattle.std.specs.Prelude.{ℕ, List, Option, ◌<◌, ◌≤◌, length, IfOk};
ghost use Rattle.resin_base.specs.Causes.{HasCause, Stalls};
ghost use Rattle.resin_base.specs.Contents.{Told};
ghost use Rattle.resin_base.specs.Moves.{Gives};

use crate::faults::KeepFault;

/// A stream that bytes are written to.
pub trait Sink {
    /// The bytes written, where they are told.
    ghost written: { Self → Option (List ℕ) };

    /// How often a call failed; at its last value the count stays.
    ghost faults: { Self → ℕ };

    /// How often a call took nothing of its piece; at its last value the count stays.
    ghost stalls: { Self → ℕ };

    /// Gives bytes from the front of a nonempty piece, and answers how many were taken, at times none.
    fn give(&mut self, piece: &[u8]) -> Result<usize, KeepFault>
        requires { 0 < length piece.now }
        ensures bound { IfOk result (λ count. count ≤ length piece.now) }
        ensures moved { Told (written self.old) (written self.new) (Gives piece.now result) }
        ensures cause { HasCause (faults self.old) (faults self.new) result }
        ensures stalled { Stalls (stalls self.old) (stalls self.new) result };
}
