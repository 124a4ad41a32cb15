//! One request of a site as a program: its file is read, `boot.php` runs, the inputs are set, what is kept of its session becomes `$_SESSION`, the
//! file runs or goes out, open buffers go out, and what `$_SESSION` holds is kept. `Scripts` keeps the programs of the source texts that ran last.
#![tactic(auto)]

mod paths;
mod request;
mod scripts;
mod sessions;
pub mod under;

pub use paths::{BOOT_PATH, PLAIN_KIND, is_open, is_script, kind_of, path_of};
pub use request::{Finish, run_request};
pub use scripts::{MOST_SCRIPTS, Scripts};
