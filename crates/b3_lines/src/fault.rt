//! Why a line is refused.

ghost use Rattle.std.specs.Prelude.{◌≡◌};
ghost use Rattle.b3_lines.specs.declared.fault.LineFault.TheVariants.{Memory};

use std::alloc::{AllocError, AllocFailed};
use thiserror::Error;

/// Why a line is refused, or a name to be written, with the number of the refusal. Of several
/// that hold, the one with the lowest number is answered.
#[derive(Clone, Copy, Debug, PartialEq, Eq, Error)]
#[error("{}", self.reason())]
pub enum LineFault {
    /// The line has no bytes.
    Empty = 1,
    /// The line is not UTF-8.
    NotText = 2,
    /// Behind its mark a plain line has fewer than 66 bytes, or a tagged one fewer than 76.
    Short = 3,
    /// One of the 64 bytes for the digits is no hex digit: the first of a plain line, the last of a tagged one.
    NotDigits = 4,
    /// The digits of a plain line are not followed by two spaces, or those of a tagged one not preceded by `) = `.
    NoSpaces = 5,
    /// The name is empty.
    NoName = 6,
    /// A backslash of a marked line is followed by none of a backslash, `n` and `r`.
    BadEscape = 7,
    /// The name holds NUL or U+FFFD.
    BadCharacter = 8,
    /// A growth was refused.
    Memory = 9,
}

impl LineFault {
    ghost use Rattle.b3_lines.specs.Reasons.{reason_of};

    /// The refusal in words, as a checker prints it.
    pub fn reason(&self) -> &'static str
        ensures { result.now ≡ reason_of self.now }
    {
        match self {
            LineFault::Empty => "empty line",
            LineFault::NotText => "not text",
            LineFault::Short => "short line",
            LineFault::NotDigits => "bad digits",
            LineFault::NoSpaces => "missing spaces",
            LineFault::NoName => "no name",
            LineFault::BadEscape => "bad escape",
            LineFault::BadCharacter => "bad character",
            LineFault::Memory => "out of memory",
        }
    }
}

impl From<AllocError> for LineFault {
    ghost from_gives = { λ _ fault. fault ≡ Memory };

    fn from(_: AllocError) -> LineFault {
        LineFault::Memory
    }
}

impl<T: Drop> From<AllocFailed<T>> for LineFault {
    ghost from_gives = { λ _ fault. fault ≡ Memory };

    fn from(_: AllocFailed<T>) -> LineFault {
        LineFault::Memory
    }
}
