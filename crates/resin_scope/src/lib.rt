//! What a request holds besides its values: the variables of its calls, the filters of its channels and functions, and the answer under way.
//!
//! `Scopes` are PHP's variables, a frame for each open call with the names that `global` bound (`specs/Frames.antt`); `Chains` the filters in the
//! order in which they are asked (`specs/Chained.antt`); `Page` the status, the headers, the body, the mail and the open buffers
//! (`specs/Pages.antt`); `Headers` those headers in their order, found by their names (`specs/Standing.antt` tells which of them stand). Each call
//! promises the state that it leaves, and the same state after want of memory. `NameMap` finds what a name stands for.
#![tactic(auto)]

mod chains;
mod headers;
mod names;
mod page;
mod scopes;
pub mod under;

pub use chains::Chains;
pub use headers::Headers;
pub use names::NameMap;
pub use page::Page;
pub use scopes::Scopes;
