//! What scripts see of a request: the arrays `$_GET`, `$_POST`, `$_COOKIE` and `$_SERVER`.
//!
//! `input_arrays` reads the target, the fields and the body of a request, and promises the arrays that `specs/Inputs.antt` says, made of forms
//! (`specs/Forms.antt`) and cookies (`specs/Cookies.antt`) by the rules of names (`specs/Names.antt`). `entry_law` says which names put a value
//! into an array. The values carry no labels: what an input means is for the filters of a site to say.
#![tactic(auto)]

mod arrays;
mod cookies;
mod cuts;
mod forms;
mod laws;
mod names;
mod puts;
pub mod under;

pub use arrays::{InputArrays, input_arrays};
pub use laws::entry_law;
pub use names::is_named;
