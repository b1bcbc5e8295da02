//! What a run reads and says: contents, keys and lists of a shelf of named files, and the messages, lines and counts for
//! two sinks.
#![tactic(auto)]

mod buffer;
mod fault;
mod in_order;
mod items;
mod judging;
mod key;
mod list_lines;
mod lists;
mod memory_shelf;
mod memory_sink;
mod message;
mod operands;
mod options;
mod output_range;
mod pool;
mod prefix;
mod saying;
mod shelf;
mod sink;
mod tally;
mod texts;
mod writing;

pub use buffer::{Buffer, READ_LEN};
pub use fault::RunFault;
pub use in_order::hash_in_order;
pub use items::{AnyItem, Item, Names, Request, WorkItems};
pub use judging::{Answer, Verdict, judge};
pub use key::KeyRead;
pub use list_lines::ListLines;
pub use lists::ListReader;
pub use memory_shelf::MemoryShelf;
pub use memory_sink::MemorySink;
pub use message::Message;
pub use operands::{Operand, Operands};
pub use options::{CheckOptions, Form, KeyChoice, Limits, MAX_OUTPUT_LEN, SumOptions};
pub use output_range::OutputRange;
pub use pool::Pool;
pub use saying::{Saying, say_after};
pub use shelf::{CannotRead, INPUT_NAME, NoContent, Shelf};
pub use sink::{Sink, SinkFailed};
pub use tally::Tally;
pub use texts::complaint;
pub use writing::write_all;
