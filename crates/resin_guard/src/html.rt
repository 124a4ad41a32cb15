//! The guard of pages.

ghost use Rattle.std.specs.Prelude.{◌≡◌, IfOk};
ghost use Rattle.resin_guard.specs.Guards.{IsPageGuard};
ghost use Rattle.resin_guard.specs.Verdicts.{html_verdict};
ghost use Rattle.resin_guard.specs.declared.judge.Guard.TheVariants as verdict;
ghost use Rattle.resin_guard.specs.declared.page.PageFault.TheVariants.{Syntax};

use crate::judge::{Guard, judged};
use crate::page::{PageFault, read_page};
use resin_label::PSet;
use resin_lstr::LText;
use resin_sql_words::ByteCursor;
use std::alloc::{AllocError, Global};

/// What is said of a text that is no page, where reading ended.
fn refused(fault: PageFault, offset: usize) -> Result<Guard, AllocError>
    ensures { IfOk result (λ g. (fault ≡ Syntax) × (g ≡ verdict.Bad offset)) }
{
    match fault {
        PageFault::Syntax => Ok(Guard::Bad {
            offset: offset as u64,
        }),
        PageFault::Memory => Err(AllocError),
    }
}

/// Whether each byte of a page that carries a number of `bad` is data, or stands in the value of a harmless attribute.
///
/// `Bad` comes exactly where the text is no page of this crate's profile.
pub fn html_guard(alloc: Global, text: &LText, bad: &PSet) -> Result<Guard, AllocError>
    ensures guard { IfOk result (λ g. IsPageGuard bad.now text.now g) }
    ensures verdict { IfOk result (λ g. g ≡ html_verdict bad.now text.now) }
{
    let mut bytes = ByteCursor::new(text.bytes());
    let found = read_page(alloc, &mut bytes);
    let left = bytes.left();
    match found {
        Ok(places) => judged(alloc, text, bad, places.as_slice()),
        Err(fault) => refused(fault, text.len().saturating_sub(left)),
    }
}
