//! What a run stands on.

use resin_step_objects::under::base::Calls;
use resin_step_objects::under::machine::Machine;

/// What a run stands on: the machine of the request that is served, the keepers, and the calls that were made on them. Whoever evaluates is
/// given one, and no other part of the outside. A next request goes on with the same keepers and calls, and puts a machine of its own in.
#[derive(Drop)]
pub struct Run<F, T> {
    pub machine: Machine,
    pub files: F,
    pub tables: T,
    pub calls: Calls,
}
