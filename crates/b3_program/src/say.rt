// The program's own texts, on a sink.

ghost use Rattle.std.specs.Prelude.{◌≡◌, ◌+◌, ◌-◌, ◌^◌, ◌<◌, ◌++◌, OnOk, OnErr, is_err, if◌then◌else◌};
ghost use Rattle.std.specs.Io.KnownBytes.{Appends};
ghost use Rattle.b3_io.specs.Faults.{fault_text};
ghost use Rattle.b3_io.specs.Runs.{sink_state};
ghost use Rattle.b3_io.specs.Sinks.{GainsBeginning};
ghost use Rattle.b3_program.specs.Said.{IsSaid, SaysLine, line_of};
ghost use Rattle.b3_program.specs.Usages.{usage_text};

use crate::stop::{FAILURE, USAGE};
use crate::usage::Usage;
use b3_io::{RunFault, Sink, SinkFailed, write_all};

/// Says a text, and answers whether the sink took all of it.
pub fn say<K: Sink>(sink: &mut K, text: &str) -> bool
    requires { K.failures sink.old < 2 ^ 64 - 1 }
    ensures { IsSaid (sink_state K.Sink sink.old) (sink_state K.Sink sink.new) text.now result }
{
    write_all(sink, text.as_bytes()).is_ok()
}

/// Says a line of a text and what follows it, and answers whether the sink took all of it.
pub fn say_line<K: Sink>(sink: &mut K, text: &str, more: &str) -> bool
    requires { K.failures sink.old < 2 ^ 64 - 1 }
    ensures { IsSaid (sink_state K.Sink sink.old) (sink_state K.Sink sink.new) (line_of (text.now ++ more.now)) result }
{
    write_both(sink, text, more).is_ok()
}

/// Says why what is asked for cannot be done, and answers the status.
pub fn refuse<K: Sink>(err: &mut K, usage: &Usage) -> u8
    requires { K.failures err.old < 2 ^ 64 - 1 }
    ensures said { SaysLine (usage_text usage.now) (sink_state K.Sink err.old) (sink_state K.Sink err.new) }
    ensures status { result ≡ 2 }
{
    let (text, option) = usage.text();
    say_line(err, text, option);
    USAGE
}

/// Says the line of a fault, and answers the status.
pub fn fail<K: Sink>(err: &mut K, fault: RunFault) -> u8
    requires { K.failures err.old < 2 ^ 64 - 1 }
    ensures said { SaysLine (fault_text fault) (sink_state K.Sink err.old) (sink_state K.Sink err.new) }
    ensures status { result ≡ 1 }
{
    say_line(err, fault.text(), "");
    FAILURE
}

// Writes a text, what follows it and a line feed.
fn write_both<K: Sink>(sink: &mut K, text: &str, more: &str) -> Result<(), SinkFailed>
    requires { K.failures sink.old < 2 ^ 64 - 1 }
    ensures count { K.failures sink.new ≡ K.failures sink.old + (if is_err result then 1 else 0) }
    ensures ok { OnOk result (Appends (K.held sink.old) (K.held sink.new) (line_of (text.now ++ more.now))) }
    ensures err { OnErr result (GainsBeginning (K.held sink.old) (K.held sink.new) (line_of (text.now ++ more.now))) }
{
    write_all(sink, text.as_bytes())?;
    write_all(sink, more.as_bytes())?;
    write_all(sink, b"\n")
}
