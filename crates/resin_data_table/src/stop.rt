//! Why a call has no answer.

use resin_ops::under::lstr::TextFault;
use resin_ops::under::scalar::CallStop;
use resin_ops::under::value::ArrFault;
use resin_table_rows::Line;

fn text_fault(fault: TextFault) -> &'static str {
    match fault {
        TextFault::TooLong => "TooLong",
        TextFault::Memory => "Memory",
    }
}

fn array_fault(fault: ArrFault) -> &'static str {
    match fault {
        ArrFault::NoNextKey => "NoNextKey",
        ArrFault::TooHigh => "TooHigh",
        ArrFault::Memory => "Memory",
    }
}

/// The name of what stops a call.
pub fn stop_name(stop: CallStop) -> &'static str {
    match stop {
        CallStop::Fault(fault) => fault.name(),
        CallStop::Throw(kind) => kind.class_name(),
        CallStop::Memory => "Memory",
    }
}

/// Puts last why there is no text, where there is none.
pub fn push_text_fault(out: &mut Line, done: Result<(), TextFault>) {
    if let Err(fault) = done {
        out.push_word(text_fault(fault));
    }
}

/// Puts last why an array isn't changed, where it isn't.
pub fn push_array_fault(out: &mut Line, done: Result<(), ArrFault>) {
    if let Err(fault) = done {
        out.push_word(array_fault(fault));
    }
}

/// Puts last why a call has no answer, where it has none.
pub fn push_stop(out: &mut Line, done: Result<(), CallStop>) {
    if let Err(stop) = done {
        out.push_word(stop_name(stop));
    }
}
