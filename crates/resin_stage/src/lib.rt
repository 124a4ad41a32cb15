//! What leaves a request: its writes, whose journal obeys the access law, and the answer under way.
//!
//! A `Stage` takes each event of a write only where the access law allows it, so its journal is lawful at every moment (`specs/Writes.antt`), and
//! what went out is what the journal says was sent (`specs/Ties.antt`). `specs/Stages.antt` has what contracts see, `specs/Lines.antt` header lines
//! and the records of mail, `specs/Buffered.antt` what a buffer takes. `journal_laws` says that each front of a lawful journal is lawful.
#![tactic(auto)]

mod buffers;
mod law;
mod letter;
mod stage;
pub mod under;

pub use law::journal_laws;
pub use stage::Stage;
