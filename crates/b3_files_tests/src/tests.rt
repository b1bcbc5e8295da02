// The shelf of real files, what it forwards to, the sinks over writers, and files in memory.

mod asserts;
mod fakes;
mod files;
mod in_memory;
mod inputs;
mod outputs;
mod positions;
mod progress;
mod real_input;
mod steps;
mod terminal;
mod troubles;
