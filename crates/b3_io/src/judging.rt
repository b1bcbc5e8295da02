//! What a check line and the digest of its name say together.

ghost use Rattle.std.specs.Prelude.{◌≡◌};
ghost use Rattle.b3_io.specs.Checks.{verdict_of};
ghost use Rattle.b3_io.specs.declared.judging.Answer.TheVariants.{Digest};
ghost use Rattle.b3_io.specs.declared.judging.Verdict.TheVariants.{Good};

use b3_lines::Line;

/// The answer to the name of a check line.
#[derive(Clone, Copy, Debug, PartialEq, Eq)]
pub enum Answer {
    /// The name has this digest.
    Digest([u8; 32]),
    /// No such name is there.
    Missing,
    /// The name cannot be read.
    CannotRead,
}

/// What is said of a check line.
#[derive(Clone, Copy, Debug, PartialEq, Eq)]
pub enum Verdict {
    /// The digest of the name is that of the line.
    Good,
    /// It is another.
    Differs,
    /// No such name is there.
    Missing,
    /// The name cannot be read.
    Unreadable,
}

/// Judges a check line by the answer to its name.
pub fn judge(line: &Line, answer: &Answer) -> Verdict
    ensures verdict { result ≡ verdict_of line.now.digest answer.now }
    ensures good { result ≡ Good → answer.now ≡ Digest line.now.digest }
{
    match answer {
        Answer::Digest(found) if *found == line.digest => Verdict::Good,
        Answer::Digest(_) => Verdict::Differs,
        Answer::Missing => Verdict::Missing,
        Answer::CannotRead => Verdict::Unreadable,
    }
}
