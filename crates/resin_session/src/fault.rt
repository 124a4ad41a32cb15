//! Why an array has no session text.
use resin_value::under::lstr::TextFault;
use std::alloc::AllocError;

/// Why an array has no session text.
#[derive(Clone, Copy, Debug, PartialEq, Eq)]
pub enum SessionFault {
    /// A value is neither an integer nor a text.
    NotStorable,
    /// The text would be longer than 16,777,216 bytes.
    TooLong,
    /// Memory ran out.
    Memory,
}

impl From<AllocError> for SessionFault {
    ghost use Rattle.std.specs.Prelude.{◌≡◌};
    ghost use Rattle.resin_session.specs.declared.fault.SessionFault.TheVariants.{Memory};

    ghost from_gives = { λ _ fault. fault ≡ Memory };

    fn from(_: AllocError) -> SessionFault {
        SessionFault::Memory
    }
}

impl From<TextFault> for SessionFault {
    ghost use Rattle.std.specs.Prelude.{◌≡◌};
    ghost use Rattle.resin_session.specs.Answers.{fault_of};

    ghost from_gives = { λ text fault. fault ≡ fault_of text };

    fn from(fault: TextFault) -> SessionFault {
        match fault {
            TextFault::TooLong => SessionFault::TooLong,
            TextFault::Memory => SessionFault::Memory,
        }
    }
}
