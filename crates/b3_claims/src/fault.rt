//! Why claims, a plan, a board or a run of workers are refused.

ghost use Rattle.std.specs.Prelude.{◌≡◌};
ghost use Rattle.b3_claims.specs.declared.fault.BoardFault.TheVariants.{Memory};

use std::alloc::{AllocError, AllocFailed};
use thiserror::Error;

/// Why claims, a plan, a board or a run of workers are refused, with the number of the fault. Of several that hold, each call
/// says which comes; the numbers do not.
#[derive(Clone, Copy, Debug, PartialEq, Eq, Error)]
pub enum BoardFault {
    /// The grain is no power of two from 1 to 2^20.
    #[error("the grain is no power of two from 1 to 2^20")]
    BadGrain = 1,
    /// The spans are no cutting of the input into subtrees.
    #[error("the spans are no cutting of the input into subtrees")]
    BadCut = 2,
    /// The input has more than 2^30 bytes.
    #[error("the input has more than 2^30 bytes")]
    TooLarge = 3,
    /// There are more than 1,024 spans.
    #[error("there are more than 1,024 spans")]
    TooManySpans = 4,
    /// A growth was refused.
    #[error("out of memory")]
    Memory = 5,
    /// There are no workers, or more than 64.
    #[error("there are no workers, or more than 64")]
    BadWorkers = 8,
}

impl From<AllocError> for BoardFault {
    ghost from_gives = { λ _ fault. fault ≡ Memory };

    fn from(_: AllocError) -> BoardFault {
        BoardFault::Memory
    }
}

impl<T: Drop> From<AllocFailed<T>> for BoardFault {
    ghost from_gives = { λ _ fault. fault ≡ Memory };

    fn from(_: AllocFailed<T>) -> BoardFault {
        BoardFault::Memory
    }
}
