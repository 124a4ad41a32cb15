//! The journal of an answer as text.
ghost use Rattle.std.specs.Prelude.{◌≡◌, ◌++◌, OnOk, IfOk};
ghost use Rattle.resin_journal_file.specs.Files as spec;

use crate::events::push_event;
use crate::lines::push_number;
use resin_bytes::Bytes;
use resin_journal::Journal;
use std::alloc::{AllocError, Global};

/// The journal of the answer with this number, as it stands in the journal file: a line `request Q`, and each event behind it, in order.
///
/// - `Passed`: `passed WRITE POLICY`
/// - `Sent`: `sent WRITE CHANNEL LENGTH RUNS`, a line for each run (its length, and the policies that its bytes carry, rising), the bytes, a newline
/// - `Denied`: `denied WRITE CHANNEL POLICY CLASS FROM TO BY`
/// - `FilterDenied`: `filter WRITE CHANNEL FILTER CLASS LENGTH BY`
///
/// A file can tell classes by names alone: where the journal tells another class, the text is no journal file.
pub fn journal_text(alloc: Global, request: u64, journal: &Journal) -> Result<Bytes, AllocError>
    ensures { IfOk result (λ text. text ≡ spec.journal_text request journal.now) }
{
    let mut text = Bytes::new(alloc);
    push_request(&mut text, request)?;
    for event in journal.as_slice() {
        push_event(&mut text, event)?;
    }
    Ok(text)
}

// Puts the line last with which the journal of an answer begins.
fn push_request(text: &mut Bytes, request: u64) -> Result<(), AllocError>
    ensures { OnOk result (text.new ≡ text.old ++ spec.request_line request) }
{
    text.push_slice(b"request")?;
    push_number(text, request)?;
    text.push(b'\n')
}
