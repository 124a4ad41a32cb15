//! Arrays and lists of texts.
ghost use Rattle.resin_text_fn.specs.Stops.{GivesOrNoMemory};
ghost use Rattle.resin_array_fn.specs.Rows.{values, texts_in, list_of_texts};

use crate::fill::with_next;
use resin_ops::to_text;
use resin_ops::under::lstr::{LText, Texts};
use resin_ops::under::scalar::CallStop;
use resin_ops::under::value::{Arr, Value};
use std::alloc::Global;

/// The values of an array as texts, in order. `BadOperand` comes exactly where one is an array or an object.
pub fn texts_in(alloc: Global, a: &Arr) -> Result<Texts, CallStop>
    ensures { GivesOrNoMemory result (texts_in (values a.now)) }
{
    let mut out = Texts::new(alloc);
    for i in 0..a.len() {
        let (_, value) = a.entry(i);
        out.push(to_text(alloc, value)?)?;
    }
    Ok(out)
}

/// The array that has these texts as its values, in order, at the keys from 0 on.
pub fn list_of_texts(alloc: Global, texts: &Texts) -> Result<Arr, CallStop>
    ensures { GivesOrNoMemory result (list_of_texts texts.now) }
{
    list_of(alloc, texts.as_slice())
}

// The array that has these texts as its values.
fn list_of(alloc: Global, texts: &[LText]) -> Result<Arr, CallStop>
    ensures { GivesOrNoMemory result (list_of_texts texts.now) }
{
    let mut out = Arr::new(alloc)?;
    for text in texts {
        out = with_next(out, Value::Text(text.clone()?))?;
    }
    Ok(out)
}
