//! The policies of an entry.
ghost use Rattle.std.specs.Prelude.{◌≡◌, IfOk};
ghost use Rattle.resin_store.specs.Entries.{lift, marks_in};

use resin_base::Entry;
use resin_shadow::{FrozenRuns, decode};
use std::alloc::{AllocError, Global};

/// The policies that the bytes of an entry carry, as its shadow text tells them. `None` exactly where the entry is damaged: the shadow text
/// isn't one of so many bytes.
pub fn policies_of(alloc: Global, entry: &Entry) -> Result<Option<FrozenRuns>, AllocError>
    ensures { IfOk result (λ found. found ≡ marks_in (lift entry.now)) }
{
    let bytes = entry.bytes.as_slice();
    let shadow = entry.shadow.as_slice();
    let len = bytes.len() as u64;
    match decode(alloc, len, shadow)? {
        Some(runs) => {
            prove!(runs.len() == len);
            Ok(Some(runs))
        }
        None => Ok(None),
    }
}
