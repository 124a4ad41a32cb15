//! What programs touch: the frame of a program over files and tables.
//!
//! A script's meaning looks at what the keepers hold, and changes it, in its keeper calls alone. So it does the same from every store that agrees on
//! the names of these calls, whatever the number of its request, and leaves every other name as it was. The definitions stand in `specs/Frames.antt`;
//! [`frame_law`] says it of scripts, and `resin_request` of requests. [`row_laws`] says of the calls on tables which rows they leave as they were
//! (`specs/Rows.antt`), and [`table_laws`] of tables as rows of cells that carry their policies (`specs/LabelledTables.antt`).
#![tactic(auto)]

mod laws;

pub use laws::{frame_law, row_laws, table_laws};
