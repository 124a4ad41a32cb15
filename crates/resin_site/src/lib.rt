//! One request of a site.
#![tactic(auto)]

mod answer;
mod keeping;
mod outcome;
mod serving;
mod site;
pub mod under;

pub use answer::{Answer, AnswerParts};
pub use keeping::keeping_laws;
pub use outcome::{End, Outcome, log_text, refusal};
pub use serving::{answer_one, serve_one};
pub use site::Site;
