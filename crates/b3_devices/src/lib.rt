//! The devices of a run, a shelf of named files and two sinks: contents are hashed by all workers or in order, keys and
//! lists are read, and lines and messages are written.
#![tactic(auto)]

mod at_offsets;
mod devices;
mod digester;

pub use devices::Devices;
pub use digester::Digester;
