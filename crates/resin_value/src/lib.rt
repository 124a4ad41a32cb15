//! Values of the script language: scalars, labelled texts, and ordered arrays that are shared until they are written.
//!
//! Contracts see a value as a tree without sharing (`specs/Trees.antt`, `Seen.antt`), and an array as its entries in order with the largest integer
//! key ever used and its height (`specs/Arrays.antt`). Each look-up and change gives exactly what the rules of arrays say (`specs/Keys.antt`,
//! `Changes.antt`), and each comparison what PHP's tables say without floats (`specs/Compare.antt`); `array_laws` says what these rules come to
//! (`specs/Laws.antt`). The module `under` passes on what values stand on.
//!
//! ```rust
//! let mut array = Arr::new(alloc)?;
//! array.put(&Key::Int(8), Value::Bool(true))?;
//! array.append(Value::Null)?; // at the key 9
//! let copy = array.clone()?; // shares the entries until one of the two is written
//! let found = array.get(&Key::from_text(alloc, b"8")?); // the text `8` counts as the key 8
//! ```
#![tactic(auto)]

mod compare;
mod key;
mod laws;
mod lists;
mod places;
pub mod under;
mod value;

pub use compare::{CompareFault, equal, identical, order};
pub use key::{Key, KeyText};
pub use laws::array_laws;
pub use lists::{Fields, Values};
pub use resin_bytes::{Header, HeaderList};
pub use resin_scalar::{CallStop, ErrorKind, ScriptFault, Spent, Ticks};
pub use value::{Arr, ArrFault, MAX_HEIGHT, Value};
