//! The exceptions that the runtime throws.
ghost use Rattle.std.specs.Prelude.{◌≡◌, ◌<◌, ◌+◌, ◌++◌, ◌∷◌, [], length, Err, IfOk, OnOk};
ghost use Rattle.resin_heap.specs.Under.label.Sets.{empty as no_labels};
ghost use Rattle.resin_heap.specs.Under.lstr.Texts.{carrying};
ghost use Rattle.resin_heap.specs.Prelude.{number_of};
ghost use Rattle.resin_machine.specs.Steps.{ActsLoosely};
ghost use Rattle.resin_machine.specs.Objects.{throw_new, settled, class_of_error, exception_of};

use crate::machine::Machine;
use crate::stop::Stop;
use resin_heap::under::label::PSet;
use resin_heap::under::lstr::LText;
use resin_heap::under::scalar::{CallStop, ErrorKind, ScriptFault};
use resin_heap::under::value::Value;
use resin_heap::{Heap, MOST_OBJECTS, PreludeClass};
use std::alloc::{AllocError, Global};

// The class of an error.
fn class_of_error(kind: ErrorKind) -> PreludeClass
    ensures { result ≡ class_of_error kind }
{
    match kind {
        ErrorKind::Plain => PreludeClass::Error,
        ErrorKind::Arithmetic => PreludeClass::ArithmeticError,
        ErrorKind::DivisionByZero => PreludeClass::DivisionByZeroError,
        ErrorKind::Type => PreludeClass::TypeError,
        ErrorKind::ArgumentCount => PreludeClass::ArgumentCountError,
        ErrorKind::Value => PreludeClass::ValueError,
    }
}

impl Machine {
    /// Throws a new exception of a class of the runtime, with a message and the code 0. FuelSpent comes in its place exactly where no object
    /// number is left.
    pub fn throw<T>(&mut self, class: PreludeClass, message: &[u8]) -> Result<T, Stop>
        ensures acts { ActsLoosely (throw_new class message.now) self.old result self.new }
    {
        if self.heap.len() == MOST_OBJECTS {
            return Err(Stop::Fault(ScriptFault::FuelSpent, self.line));
        }
        let text = message_text(self.alloc, message)?;
        let o = make_exception(&mut self.heap, class, text)?;
        Err(Stop::Thrown(o))
    }

    /// What an operator or a builtin answered, as a step: a throw makes an exception without a message, and a fault comes at the running line.
    pub fn settle<T>(&mut self, answer: Result<T, CallStop>) -> Result<T, Stop>
        ensures acts { ActsLoosely (settled answer) self.old result self.new }
    {
        match answer {
            Ok(value) => Ok(value),
            Err(stop) => self.stopped(stop),
        }
    }

    // The same where there is no value.
    fn stopped<T>(&mut self, stop: CallStop) -> Result<T, Stop>
        ensures acts { ActsLoosely (settled (Err stop)) self.old result self.new }
    {
        match stop {
            CallStop::Throw(kind) => self.throw(class_of_error(kind), b""),
            CallStop::Fault(fault) => Err(Stop::Fault(fault, self.line)),
            CallStop::Memory => Err(Stop::Memory),
        }
    }
}

// The text of a message.
fn message_text(alloc: Global, message: &[u8]) -> Result<LText, AllocError>
    ensures { IfOk result (λ text. text ≡ carrying no_labels message.now) }
{
    match LText::plain(alloc, message) {
        Ok(text) => Ok(text),
        Err(_) => Err(AllocError),
    }
}

// Makes an exception with a message and the code 0.
fn make_exception(heap: &mut Heap, class: PreludeClass, text: LText) -> Result<u32, AllocError>
    requires { length heap.old < MOST_OBJECTS }
    ensures number { IfOk result (λ o. o ≡ length heap.old + 1) }
    ensures made { OnOk result (heap.new ≡ heap.old ++ record { class = number_of class; fields = exception_of text } ∷ []) }
{
    let o = heap.make(class.number())?;
    heap.set(o, b"message", Value::Text(text))?;
    heap.set(o, b"code", Value::Int(0, PSet::empty()))?;
    Ok(o)
}
