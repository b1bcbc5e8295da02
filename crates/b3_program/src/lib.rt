//! The words of a call: the task that they ask for, or why it is refused. And what is said around a run: refusals, faults
//! and help. How the words are read is not known here, nor how a task is done.
#![tactic(auto)]

mod lists;
mod say;
mod stop;
mod task;
mod usage;
mod words;

pub use lists::refusal_over;
pub use say::{fail, refuse};
pub use stop::{FAILURE, Stop};
pub use task::{Job, Names, Task, settle};
pub use usage::Usage;
pub use words::Words;
