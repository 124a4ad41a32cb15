//! The outside in memory, for tests and for runs that touch no file: sources, sinks and keepers that tell what they hold.
//!
//! Calm ones never fail; fake ones fail at the calls that a list names, and move at most a chunk at a call. Each meets its trait of `resin_base`
//! with all contents told, so that what is promised of a run over any outside can be seen of these. `specs/Fakes.antt` says what they are seen as,
//! and `specs/Tallies.antt` which calls fail. Names and paths are looked up by walking.
#![tactic(auto)]

mod byte_queue;
mod calm_files;
mod calm_sink;
mod calm_source;
mod calm_tables;
mod copies;
mod fake_files;
mod fake_sink;
mod fake_source;
mod fake_tables;
mod file_map;
mod places;
mod table_map;
mod tally;

pub use calm_files::CalmFiles;
pub use calm_sink::CalmSink;
pub use calm_source::CalmSource;
pub use calm_tables::CalmTables;
pub use fake_files::FakeFiles;
pub use fake_sink::FakeSink;
pub use fake_source::FakeSource;
pub use fake_tables::FakeTables;
pub use tally::Tally;
