//! The audit of journal files: whether a file obeys the access law, by someone who trusts nothing of the run that wrote it.
//!
//! `audit` promises the verdict that `specs/Verdicts.antt` says: the text is a journal file whose journals obey the law, it is one that doesn't, or
//! it is none, with the place of the first item that is wrong. A text has one verdict (`verdict_laws`). It is read once, and what is kept of it is
//! in proportion to its largest item (`specs/Following.antt`, `Progress.antt`).
#![tactic(auto)]

mod checker;
mod fields;
mod items;
mod labels;
mod law;
mod laws;
mod progress;
mod rest;
mod stop;
pub mod under;
mod verdict;

pub use checker::audit;
pub use laws::verdict_laws;
pub use verdict::Verdict;
