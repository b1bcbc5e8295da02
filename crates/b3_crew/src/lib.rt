//! A crew: threads that find what is to be said of the items of a run, beside one another, while one says it in their order.
#![tactic(auto)]

mod ahead;
mod crew;
mod crew_run;
mod entry;
mod name_hasher;
mod run_input;

pub use ahead::{Ahead, Front};
pub use crew::{Batch, Crew, Shown};
pub use crew_run::{Site, run_crew};
pub use entry::{Entry, Finding};
pub use name_hasher::{NameHasher, name_hashers};
pub use run_input::RunInput;
