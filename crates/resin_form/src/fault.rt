//! Why reading ends without a value.

use std::alloc::AllocError;

/// Why reading ends without a value. The place is that of the cursor.
#[derive(Clone, Copy, Debug, PartialEq, Eq)]
pub enum Fault {
    /// The next token, or the end, is none that the grammar lets stand there.
    Syntax,
    /// The token before the cursor opens a construct past the limit of nesting.
    TooDeep,
    /// Memory ran out.
    Memory,
}

impl From<AllocError> for Fault {
    ghost use Rattle.std.specs.Prelude.{◌≡◌};
    ghost use Rattle.resin_form.specs.declared.fault.Fault.TheVariants.{Memory};

    ghost from_gives = { λ _ e. e ≡ Memory };

    fn from(_: AllocError) -> Fault {
        Fault::Memory
    }
}
