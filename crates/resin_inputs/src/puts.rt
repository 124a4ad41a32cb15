//! Puts values into arrays.
ghost use Rattle.std.specs.Prelude.{◌≡◌, IfOk, OnOk, IsTrue};
ghost use Rattle.resin_value.specs.Keys.{is_lawful};
ghost use Rattle.resin_value.specs.Changes.{put};
ghost use Rattle.resin_value.specs.Seen.{tree_of};
ghost use Rattle.resin_inputs.specs.Forms.{plain};

use resin_value::under::lstr::LText;
use resin_value::{Arr, Key, Value};
use std::alloc::{AllocError, Global};

/// A text as a value, without labels.
pub(crate) fn plain(alloc: Global, bytes: &[u8]) -> Result<Value, AllocError>
    ensures { IfOk result (λ value. tree_of value ≡ plain bytes.now) }
{
    match LText::plain(alloc, bytes) {
        Ok(text) => Ok(Value::Text(text)),
        // No request is long enough to make a text that is too long.
        Err(_) => Err(AllocError),
    }
}

/// Puts a value at a key: in its place where the key is there, else last.
pub(crate) fn put(array: &mut Arr, key: &Key, value: Value) -> Result<(), AllocError>
    requires { IsTrue (is_lawful key.now) }
    ensures { OnOk result (array.new ≡ put key.now (tree_of value) array.old) }
{
    match array.put(key, value) {
        Ok(()) => Ok(()),
        // The array of an array of texts is far from too high.
        Err(_) => Err(AllocError),
    }
}
