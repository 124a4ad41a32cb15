//! Lists of values, and of names with values.

use crate::value::Value;
use resin_bytes::{Bytes, Items};

/// A list of values.
pub type Values = Items<Value>;

/// A list of names with values, as the fields of an object.
pub type Fields = Items<(Bytes, Value)>;
