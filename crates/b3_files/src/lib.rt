//! What a run reads and writes outside memory: a shelf of the files of a disk and of standard input, and sinks over writers;
//! and a shelf and a sink round any other, for the line of progress.
#![tactic(auto)]

mod clearing_sink;
mod counting_shelf;
mod disk;
mod files;
mod input;
mod lookup;
mod memory_disk;
mod outputs;
mod real_disk;
mod retrying;
mod source;

pub use clearing_sink::ClearingSink;
pub use counting_shelf::CountingShelf;
pub use disk::{Disk, DiskFile, FileKind, Input, Stream};
pub use files::FileShelf;
pub use memory_disk::{MemoryDisk, MemoryFile, NamedFile};
pub use outputs::OutputSink;
pub use real_disk::{INPUT_PATHS, InputPaths, RealDisk, RealFile, RealInput};
