//! What ends a run.

ghost use Rattle.std.specs.Prelude.{◌≡◌};
ghost use Rattle.b3_io.specs.Faults.{fault_text};
ghost use Rattle.b3_io.specs.declared.fault.RunFault.TheVariants.{Memory, WriteFault};

use crate::prefixed;
use crate::sink::SinkFailed;
use std::alloc::AllocError;
use thiserror::Error;

/// What ends a run, with the number of the fault, which is no status: a program that meets any of them
/// ends with 1.
#[derive(Clone, Copy, Debug, PartialEq, Eq, Error)]
#[error("{}", self.text())]
pub enum RunFault {
    /// The key cannot be read.
    ReadFault = 1,
    /// A sink failed.
    WriteFault = 2,
    /// A growth was refused.
    Memory = 3,
    /// The key is not 32 bytes.
    BadKey = 4,
    /// A file had not ended after as many reads as it may take, or a list has more bytes than it may
    /// have.
    EndlessInput = 5,
}

impl RunFault {
    /// The fault as the program prints it, without a line feed.
    pub fn text(&self) -> &'static str
        ensures { result.now ≡ fault_text self.now }
    {
        match self {
            RunFault::ReadFault => prefixed!("cannot read the key"),
            RunFault::WriteFault => prefixed!("cannot write"),
            RunFault::Memory => prefixed!("out of memory"),
            RunFault::BadKey => prefixed!("the key is not 32 bytes"),
            RunFault::EndlessInput => prefixed!("endless input"),
        }
    }
}

impl From<AllocError> for RunFault {
    ghost from_gives = { λ _ fault. fault ≡ Memory };

    fn from(_refused: AllocError) -> RunFault {
        Self::Memory
    }
}

impl From<SinkFailed> for RunFault {
    ghost from_gives = { λ _ fault. fault ≡ WriteFault };

    fn from(_failed: SinkFailed) -> RunFault {
        Self::WriteFault
    }
}
