//! Why a call of the outside has no answer.
use std::alloc::AllocError;

/// A source failed. It moved no byte, and its count of faults rose.
#[derive(Clone, Copy, Debug, PartialEq, Eq)]
pub struct Failed;

/// Why a sink or a keeper has no answer. Either way nothing changed that it holds.
#[derive(Clone, Copy, Debug, PartialEq, Eq)]
pub enum KeepFault {
    /// The outside failed. The object's count of faults rose.
    Failed,
    /// There was no memory for the call.
    Memory,
}

impl From<AllocError> for KeepFault {
    ghost use Rattle.std.specs.Prelude.{◌≡◌};
    ghost use Rattle.resin_base.specs.declared.faults.KeepFault.TheVariants.{Memory};

    ghost from_gives = { λ _ fault. fault ≡ Memory };

    fn from(_: AllocError) -> KeepFault {
        KeepFault::Memory
    }
}
