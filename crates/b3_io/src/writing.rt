ghost use Rattle.std.specs.Prelude.{◌≡◌, ◌+◌, ◌-◌, ◌^◌, ◌<◌, OnOk, OnErr, is_err, if◌then◌else◌};
ghost use Rattle.std.specs.Io.KnownBytes.{Appends};
ghost use Rattle.b3_io.specs.Sinks.{GainsBeginning};

use crate::sink::{Sink, SinkFailed};

/// Writes all of the bytes. After a short write only the rest is sent.
pub fn write_all<K: Sink>(sink: &mut K, bytes: &[u8]) -> Result<(), SinkFailed>
    requires { K.failures sink.old < 2 ^ 64 - 1 }
    ensures count { K.failures sink.new ≡ K.failures sink.old + (if is_err result then 1 else 0) }
    ensures ok { OnOk result (Appends (K.held sink.old) (K.held sink.new) bytes.now) }
    ensures err { OnErr result (GainsBeginning (K.held sink.old) (K.held sink.new) bytes.now) }
{
    let mut rest = bytes;
    while !rest.is_empty() {
        let count = sink.write(rest)?;
        rest = &rest[count..];
    }
    Ok(())
}
