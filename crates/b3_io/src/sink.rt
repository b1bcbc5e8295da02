ghost use Rattle.std.specs.Prelude.{◌≡◌, ℕ, ◌+◌, ◌-◌, ◌^◌, ◌<◌, ◌≤◌, List, take, length, Option, OnErr, IfOk, is_err, if◌then◌else◌};
ghost use Rattle.std.specs.Io.KnownBytes.{Appends, Keeps};

/// A sink took none of the bytes.
#[derive(Clone, Copy, Debug, PartialEq, Eq)]
pub struct SinkFailed;

/// Takes the bytes that a run writes, and counts its failures. It may tell the bytes that it holds.
pub trait Sink {
    /// How many calls have failed.
    ghost failures: { Self → ℕ };

    /// The bytes that the sink holds, where it tells them.
    ghost held: { Self → Option (List ℕ) };

    /// Takes the first of the bytes, and answers how many: at least one, where there is one.
    fn write(&mut self, bytes: &[u8]) -> Result<usize, SinkFailed>
        requires { failures self.old < 2 ^ 64 - 1 }
        ensures count { failures self.new ≡ failures self.old + (if is_err result then 1 else 0) }
        ensures within { IfOk result (λ n. n ≤ length bytes.now) }
        ensures some { 0 < length bytes.now → IfOk result (λ n. 0 < n) }
        ensures written { IfOk result (λ n. Appends (held self.old) (held self.new) (take n bytes.now)) }
        ensures err { OnErr result (Keeps (held self.old) (held self.new)) };

    /// Whether lines may wait for those that come soon after them, to go in one write.
    fn may_wait(&self) -> bool {
        false
    }
}
