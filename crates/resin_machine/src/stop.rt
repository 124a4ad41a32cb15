//! How an evaluation stops.
use resin_heap::under::scalar::ScriptFault;
use std::alloc::AllocError;

/// Why an evaluation gives no value.
#[derive(Clone, Copy, Debug, Eq, PartialEq)]
pub enum Stop {
    /// An exception goes on; its object number.
    Thrown(u32),
    /// The script ran `exit`.
    Exit,
    /// A script fault, at a line; 0 where no statement runs.
    Fault(ScriptFault, u32),
    /// A keeper call failed.
    Keeper,
    /// Memory ran out.
    Memory,
}

impl From<AllocError> for Stop {
    ghost use Rattle.std.specs.Prelude.{◌≡◌};
    ghost use Rattle.resin_machine.specs.declared.stop.Stop.TheVariants.{Memory};

    ghost from_gives = { λ _ stop. stop ≡ Memory };

    fn from(_: AllocError) -> Stop {
        Stop::Memory
    }
}
