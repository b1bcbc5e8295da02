//! Engines that write and check BLAKE3 check lines: what a run reads from a shelf of named files, and
//! what it writes to its two sinks.
#![tactic(auto)]

mod check;
mod engine;
mod sum;

pub use b3_board::MAX_WORKERS;
pub use b3_io::{
    Answer, CannotRead, CheckOptions, Form, INPUT_NAME, KeyChoice, Limits, ListReader,
    MAX_OUTPUT_LEN, MemoryShelf, MemorySink, NoContent, Operand, Operands, RunFault, Shelf, Sink,
    SinkFailed, SumOptions, Tally, Verdict, complaint, judge, prefixed, write_all,
};
pub use check::run_check;
pub use engine::Engine;
pub use sum::run_sum;
