ghost use Rattle.std.specs.Prelude.{◌≡◌, ◌+◌, ◌-◌, ◌^◌, ◌<◌};

use crate::say::{say, say_line};
use b3_io::{RunFault, Sink, prefixed};
use std::alloc::AllocError;
use std::io;

/// The status of a run that failed.
pub const FAILURE: u8 = 1;

/// The status of a call whose words are not taken.
pub const USAGE: u8 = 2;

/// Why a call ends before it reads anything.
#[derive(Debug, Drop)]
pub enum Stop {
    /// A word is not text.
    NotText,
    /// A growth was refused.
    Memory,
    /// There are more files than a run may have.
    TooManyFiles,
    /// The words are not taken, and this says why.
    Refused(String),
    /// The words ask for this text: the help or the version.
    Asked(String),
}

impl Stop {
    ghost use Rattle.b3_io.specs.Runs.{sink_state};
    ghost use Rattle.b3_program.specs.Stops.{EndsBy};

    /// Says why, and answers the status. Help and version are no faults, unless they cannot be written.
    pub fn say<O: Sink, E: Sink>(&self, out: &mut O, err: &mut E) -> u8
        requires out { O.failures out.old < 2 ^ 64 - 1 }
        requires err { E.failures err.old < 2 ^ 64 - 1 }
        ensures { EndsBy self.now (sink_state O.Sink out.old) (sink_state E.Sink err.old)
            (sink_state O.Sink out.new) (sink_state E.Sink err.new) result }
    {
        match self {
            Stop::NotText => {
                say_line(err, prefixed!("an argument is not text"), "");
                USAGE
            }
            Stop::TooManyFiles => {
                say_line(err, prefixed!("too many files"), "");
                USAGE
            }
            Stop::Memory => {
                say_line(err, RunFault::Memory.text(), "");
                FAILURE
            }
            Stop::Refused(text) => {
                say(err, text.as_str());
                USAGE
            }
            Stop::Asked(text) => {
                if say(out, text.as_str()) {
                    return 0;
                }
                say_line(err, RunFault::WriteFault.text(), "");
                FAILURE
            }
        }
    }
}

impl From<AllocError> for Stop {
    ghost use Rattle.b3_program.specs.declared.stop.Stop.TheVariants.{Memory};

    ghost from_gives = { λ _ stop. stop ≡ Memory };

    fn from(_refused: AllocError) -> Stop {
        Stop::Memory
    }
}

impl From<io::Error> for Stop {
    ghost use Rattle.b3_program.specs.Stops.{IsStopForInput};

    ghost from_gives = { IsStopForInput };

    fn from(error: io::Error) -> Stop {
        if error.kind() == io::ErrorKind::InvalidData {
            return Stop::NotText;
        }
        Stop::Memory
    }
}
