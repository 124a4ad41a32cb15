//! The audit of a text.
ghost use Rattle.std.specs.Prelude.{IfOk};
ghost use Rattle.resin_audit.specs.Verdicts.{Says};

use crate::progress::Progress;
use crate::rest::Rest;
use crate::stop::Stop;
use crate::verdict::Verdict;
use std::alloc::{AllocError, Global};

/// Whether a text is a journal file whose journals obey the access law: data leaves only through writes in which every policy that it
/// carries was asked and returned. Nothing is taken from the run that wrote it.
///
/// The text is read once, item by item. The memory that this takes is in proportion to the largest item, or to the policies that
/// returned in one write.
pub fn audit(alloc: Global, text: &[u8]) -> Result<Verdict, AllocError>
    ensures { IfOk result (λ verdict. Says text.now verdict) }
{
    let mut progress = Progress::new(alloc);
    let mut rest = Rest::new(text);
    'items: while rest.len() > 0 {
        let offset = text.len() - rest.len();
        match progress.read(alloc, &mut rest) {
            Ok(()) => {}
            Err(Stop::Form) => {
                return Ok(Verdict::Form {
                    offset: offset as u64,
                });
            }
            Err(Stop::Memory) => return Err(AllocError),
        }
    }
    Ok(progress.verdict())
}
