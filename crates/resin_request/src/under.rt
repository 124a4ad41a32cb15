//! What this crate stands on, passed on to the crates above, which list this one alone.

pub use resin_http as http;
pub use resin_inputs::under::{lstr, scalar};
pub use resin_interp::under::{base, journal, label, machine, store};
