//! The builtin functions that escape, encode and digest texts. Each has the name of its PHP function.
//!
//! Every byte that is written for a byte carries that byte's set, and a digest the set that it is given, so no label is lost by an escape.
//! `specs/Escapes.antt`, `LineBreaks.antt`, `Characters.antt` and `Digests.antt` say what each function gives, and `specs/Stops.antt` what it
//! answers instead: the fault of a text that would pass 16,777,216 bytes, or want of memory.
#![tactic(auto)]

mod answer;
mod characters;
mod digests;
mod escape;
mod escapes;
mod line_breaks;

pub use answer::text_answer;
pub use characters::{chr, ord};
pub use digests::{md5, sha1};
pub use escapes::{addslashes, bin2hex, htmlspecialchars, rawurlencode, sql_quote, urlencode};
pub use line_breaks::nl2br;
