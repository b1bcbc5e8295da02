//! Files in memory are summed, and what was written checks as OK: proved from the public clauses of `b3_check` alone.
#![tactic(auto)]

mod files;
mod laws;
mod runs;

pub use files::File;
pub use laws::{SumsAndChecks, sums_check};
pub use runs::Written;
