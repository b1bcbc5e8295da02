//! What is asked of a run.

ghost use Rattle.std.specs.Prelude.{◌≡◌};
ghost use Rattle.b3_io.specs.Options.{check_limits, limits_of};

/// The greatest number of output bytes that a run writes of a digest.
pub const MAX_OUTPUT_LEN: u32 = 1_048_576;

/// What keys the hash.
#[derive(Debug, Drop, PartialEq, Eq)]
pub enum KeyChoice {
    /// No key.
    Plain,
    /// The 32 bytes of the name `-`, which is read before all names.
    Keyed,
    /// The content is key material, under this context.
    Derive(String),
}

/// What is written for a digest.
#[derive(Clone, Copy, Debug, PartialEq, Eq)]
pub enum Form {
    /// A plain check line: the digits and the name.
    Named,
    /// The digits and a line feed.
    Bare,
    /// The bytes alone.
    Raw,
    /// A tagged check line: the name and the digits.
    Tagged,
}

/// How a run hashes, and what it writes.
#[derive(Debug, Drop, PartialEq, Eq)]
pub struct SumOptions {
    /// What keys the hash.
    pub key: KeyChoice,
    /// The first byte of the output that is written.
    pub seek: u64,
    /// How many bytes of the output are written.
    pub length: u32,
    /// What is written for a digest.
    pub form: Form,
    /// How many workers may hash, each in a thread.
    pub workers: u32,
    /// How many reads a file may take.
    pub turns: u64,
    /// How many bytes a list may have. A run that sums names reads none.
    pub largest: u64,
}

/// How a run checks, and what it writes.
#[derive(Clone, Copy, Debug, PartialEq, Eq)]
pub struct CheckOptions {
    /// Whether nothing is written for a name whose digest is that of its line.
    pub quiet: bool,
    /// Whether a missing name is passed over. A list of which no name was verified fails then.
    pub ignore_missing: bool,
    /// Whether nothing is written at all: the status alone tells.
    pub status: bool,
    /// Whether a list without a check line fails.
    pub strict: bool,
    /// Whether the list is named where a line of it is malformed.
    pub warn: bool,
    /// How many workers may hash, each in a thread.
    pub workers: u32,
    /// How many reads a file may take.
    pub turns: u64,
    /// How many bytes a list may have.
    pub largest: u64,
}

/// How much of a file is read.
#[derive(Clone, Copy, Debug, PartialEq, Eq)]
pub struct Limits {
    /// How many reads a file may take.
    pub turns: u64,
    /// How many bytes a list may have.
    pub largest: u64,
}

impl SumOptions {
    /// How much of a file is read.
    pub fn limits(&self) -> Limits
        ensures { result ≡ limits_of self.now }
    {
        Limits {
            turns: self.turns,
            largest: self.largest,
        }
    }
}

impl CheckOptions {
    /// How much of a file is read.
    pub fn limits(&self) -> Limits
        ensures { result ≡ check_limits self.now }
    {
        Limits {
            turns: self.turns,
            largest: self.largest,
        }
    }
}
