//! Why a policy isn't frozen.
use std::alloc::AllocError;

/// Why a policy isn't frozen.
#[derive(Clone, Copy, Debug, PartialEq, Eq)]
pub enum FreezeFault {
    /// A field holds an object, or more than 8 arrays one in another; or a lost policy doesn't name a class and fields.
    NotStorable,
    /// Memory ran out.
    Memory,
}

impl From<AllocError> for FreezeFault {
    ghost use Rattle.std.specs.Prelude.{◌≡◌};
    ghost use Rattle.resin_frozen.specs.declared.fault.FreezeFault.TheVariants.{Memory};

    ghost from_gives = { λ _ fault. fault ≡ Memory };

    fn from(_: AllocError) -> FreezeFault {
        FreezeFault::Memory
    }
}
