//! Why reading ends without a value.
use std::alloc::AllocError;

// Why reading ends without a value.
#[derive(Clone, Copy)]
pub(crate) enum Stop {
    // The text isn't of the form that is read.
    Form,
    // Memory ran out.
    Memory,
}

impl From<AllocError> for Stop {
    ghost use Rattle.std.specs.Prelude.{◌≡◌};
    ghost use Rattle.resin_session.specs.declared.stop.Stop.TheVariants.{Memory};

    ghost from_gives = { λ _ stop. stop ≡ Memory };

    fn from(_: AllocError) -> Stop {
        Stop::Memory
    }
}
