//! Script faults, the errors that the runtime throws, and the ends of a call that runs no script code.
ghost use Rattle.std.specs.Prelude.{◌≡◌};

use crate::scalar::NumFault;
use crate::ticks::Spent;
use std::alloc::AllocError;
use std::fmt;

/// Why a script ends without an answer of its own. No script can catch one.
#[derive(Clone, Copy, Debug, Eq, PartialEq)]
pub enum ScriptFault {
    /// The source text is off the grammar.
    Syntax,
    /// The source nests deeper than 200.
    TooDeep,
    /// A charge was larger than the ticks left, or a number of an object, class, write or keeper call ran out.
    FuelSpent,
    /// One more open evaluation would make 1,001.
    DepthSpent,
    /// A result of arithmetic is outside 64 bits.
    IntegerOverflow,
    /// A number with a point or an exponent would be needed.
    FloatNeeded,
    /// A text in arithmetic is no number.
    NotANumber,
    UndefinedFunction,
    UndefinedClass,
    UndefinedMethod,
    /// A function or class of that name is there already.
    Redeclared,
    /// An operand has a kind that the operator doesn't take.
    BadOperand,
    /// An object was compared with something else.
    ObjectComparison,
    /// An array would be more than 100 arrays high.
    ArrayTooDeep,
    /// A text would be longer than 16,777,216 bytes.
    TextTooLong,
    /// A channel was reached while a check or a filter ran.
    ChannelInCheck,
    /// A policy holds what can't be kept with data.
    NotStorable,
    /// Labels that were kept with data are off their grammar.
    BadShadow,
    /// A kept session is off its grammar.
    BadSession,
}

impl ScriptFault {
    ghost use Rattle.resin_scalar.specs.Faults.{fault_name};

    /// The name, as it is printed.
    pub fn name(self) -> &'static str
        ensures { result.now ≡ fault_name self }
    {
        match self {
            ScriptFault::Syntax => "Syntax",
            ScriptFault::TooDeep => "TooDeep",
            ScriptFault::FuelSpent => "FuelSpent",
            ScriptFault::DepthSpent => "DepthSpent",
            ScriptFault::IntegerOverflow => "IntegerOverflow",
            ScriptFault::FloatNeeded => "FloatNeeded",
            ScriptFault::NotANumber => "NotANumber",
            ScriptFault::UndefinedFunction => "UndefinedFunction",
            ScriptFault::UndefinedClass => "UndefinedClass",
            ScriptFault::UndefinedMethod => "UndefinedMethod",
            ScriptFault::Redeclared => "Redeclared",
            ScriptFault::BadOperand => "BadOperand",
            ScriptFault::ObjectComparison => "ObjectComparison",
            ScriptFault::ArrayTooDeep => "ArrayTooDeep",
            ScriptFault::TextTooLong => "TextTooLong",
            ScriptFault::ChannelInCheck => "ChannelInCheck",
            ScriptFault::NotStorable => "NotStorable",
            ScriptFault::BadShadow => "BadShadow",
            ScriptFault::BadSession => "BadSession",
        }
    }
}

impl fmt::Display for ScriptFault {
    ghost use Rattle.std.specs.Prelude.{Some};
    ghost use Rattle.resin_scalar.specs.Faults.{fault_name};

    ghost output = { λ fault. Some (fault_name fault) };

    fn fmt<W: fmt::Write>(&self, f: &mut fmt::Formatter<W>) -> fmt::Result {
        f.write_str(self.name())
    }
}

impl From<Spent> for ScriptFault {
    ghost use Rattle.resin_scalar.specs.declared.faults.ScriptFault.{ScriptFault};

    ghost from_gives = { λ _ fault. fault ≡ ScriptFault.FuelSpent };

    fn from(_spent: Spent) -> ScriptFault {
        ScriptFault::FuelSpent
    }
}

impl From<NumFault> for ScriptFault {
    ghost use Rattle.resin_scalar.specs.Faults.{number_fault};

    ghost from_gives = { λ why fault. fault ≡ number_fault why };

    fn from(why: NumFault) -> ScriptFault {
        match why {
            NumFault::Float => ScriptFault::FloatNeeded,
            NumFault::Not => ScriptFault::NotANumber,
        }
    }
}

/// The class of an exception that the runtime throws.
#[derive(Clone, Copy, Debug, Eq, PartialEq)]
pub enum ErrorKind {
    /// `Error`.
    Plain,
    /// `ArithmeticError`.
    Arithmetic,
    /// `DivisionByZeroError`.
    DivisionByZero,
    /// `TypeError`.
    Type,
    /// `ArgumentCountError`.
    ArgumentCount,
    /// `ValueError`.
    Value,
}

impl ErrorKind {
    ghost use Rattle.resin_scalar.specs.Faults.{error_class};

    /// The name of the class.
    pub fn class_name(self) -> &'static str
        ensures { result.now ≡ error_class self }
    {
        match self {
            ErrorKind::Plain => "Error",
            ErrorKind::Arithmetic => "ArithmeticError",
            ErrorKind::DivisionByZero => "DivisionByZeroError",
            ErrorKind::Type => "TypeError",
            ErrorKind::ArgumentCount => "ArgumentCountError",
            ErrorKind::Value => "ValueError",
        }
    }
}

/// Why a builtin or an operator gives no value.
#[derive(Clone, Copy, Debug, Eq, PartialEq)]
pub enum CallStop {
    /// An exception of this class is thrown, which a script can catch.
    Throw(ErrorKind),
    /// The script ends with this fault.
    Fault(ScriptFault),
    /// Memory ran out.
    Memory,
}

impl From<AllocError> for CallStop {
    ghost use Rattle.resin_scalar.specs.declared.faults.CallStop.{CallStop};

    ghost from_gives = { λ _ stop. stop ≡ CallStop.Memory };

    fn from(_error: AllocError) -> CallStop {
        CallStop::Memory
    }
}

impl From<ScriptFault> for CallStop {
    ghost use Rattle.resin_scalar.specs.declared.faults.CallStop.{CallStop};

    ghost from_gives = { λ fault stop. stop ≡ CallStop.Fault fault };

    fn from(fault: ScriptFault) -> CallStop {
        CallStop::Fault(fault)
    }
}

impl From<Spent> for CallStop {
    ghost use Rattle.resin_scalar.specs.declared.faults.CallStop.{CallStop};
    ghost use Rattle.resin_scalar.specs.declared.faults.ScriptFault.{ScriptFault};

    ghost from_gives = { λ _ stop. stop ≡ CallStop.Fault ScriptFault.FuelSpent };

    fn from(_spent: Spent) -> CallStop {
        CallStop::Fault(ScriptFault::FuelSpent)
    }
}
