//! What a run has to say yet, and what it has counted.

ghost use Rattle.std.specs.Prelude.{◌≡◌, ◌+◌, ◌^◌, ◌<◌, []};
ghost use Rattle.b3_io.specs.Owing.{SaysOwing};
ghost use Rattle.b3_io.specs.Runs.{CanCount, io_state};
ghost use Rattle.b3_io.specs.Tallies.{no_tally, tally_sum};
ghost use Rattle.b3_io.specs.Tasks.{counted, report_of};

use crate::fault::RunFault;
use crate::message::Message;
use crate::shelf::Shelf;
use crate::sink::Sink;
use crate::tally::Tally;
use crate::writing::write_all;
use std::alloc::Global;

/// Lines that are still to be written, what was counted, and how many names gave no content that the shelf has not
/// counted yet, as it cannot while others ask it.
#[derive(Drop)]
pub struct Saying {
    pub lines: Vec<u8>,
    pub tally: Tally,
    pub uncounted: u64,
}

impl Saying {
    /// Nothing was said.
    pub fn new(alloc: Global) -> Saying
        ensures lines { result.lines.items ≡ [] }
        ensures tally { result.tally ≡ no_tally }
        ensures uncounted { result.uncounted ≡ 0 }
    {
        Saying {
            lines: Vec::new(alloc),
            tally: Tally::none(),
            uncounted: 0,
        }
    }

    /// Counts what was said.
    pub fn count(&mut self, more: &Tally)
        requires { counted self.old.tally + counted more.now < 2 ^ 64 }
        ensures tally { self.new.tally ≡ tally_sum self.old.tally more.now }
        ensures lines { self.new.lines ≡ self.old.lines }
        ensures uncounted { self.new.uncounted ≡ self.old.uncounted }
    {
        self.tally.add(more);
    }
}

/// Says a report to two sinks after lines for `out` that are still to be written, while others may look at the shelf. Where
/// more is said soon, its own lines are among them.
pub fn say_after<S: Shelf, O: Sink, E: Sink>(
    _shelf: &S,
    out: &mut O,
    err: &mut E,
    lines: &mut Vec<u8>,
    message: &Message,
    is_more_soon: bool,
) -> Result<(), RunFault>
    requires { CanCount (io_state S.Shelf O.Sink E.Sink _shelf.now out.old err.old) 0 }
    ensures { SaysOwing (report_of message.now) (io_state S.Shelf O.Sink E.Sink _shelf.now out.old err.old)
        (io_state S.Shelf O.Sink E.Sink _shelf.now out.new err.new) lines.old.items lines.new.items result }
{
    lines.extend_from_slice(message.out.as_slice())?;
    if is_more_soon && message.err.is_empty() && out.may_wait() {
        return Ok(());
    }
    write_all(out, lines.as_slice())?;
    lines.clear();
    write_all(err, message.err.as_slice())?;
    Ok(())
}
