ghost use Rattle.std.specs.Prelude.{◌≡◌, ◌==◌, ◌&&◌, ◌+◌, ◌^◌, ◌<◌};

use crate::judging::Verdict;
use crate::options::CheckOptions;

/// What a run counts: its names and lines, and the lists that failed.
#[derive(Clone, Copy, Debug, PartialEq, Eq)]
pub struct Tally {
    /// The names and lines that are ok.
    pub ok: u64,
    /// The names and lines that failed.
    pub failed: u64,
    /// The lists that cannot be read, and those that fail as a whole: where missing names are passed over
    /// and no name was verified, or where a check line is asked for and there is none.
    pub lists: u64,
    /// Those of the failed whose digest is not that of their line.
    pub differing: u64,
    /// Those of the failed that are no check lines.
    pub malformed: u64,
    /// The missing names that are passed over.
    pub missing: u64,
}

impl Tally {
    ghost use Rattle.b3_io.specs.Checks.{verdict_tally};
    ghost use Rattle.b3_io.specs.Tallies.{has_no_line, is_unverified, no_tally, status_of, tally_sum};

    /// Nothing is counted.
    pub fn none() -> Tally
        ensures { result ≡ no_tally }
    {
        Tally {
            ok: 0,
            failed: 0,
            lists: 0,
            differing: 0,
            malformed: 0,
            missing: 0,
        }
    }

    /// What is counted of a line, by its verdict.
    pub fn of_verdict(options: &CheckOptions, verdict: Verdict) -> Tally
        ensures { result ≡ verdict_tally options.now verdict }
    {
        let none = Tally::none();
        let failed = Tally { failed: 1, ..none };
        match verdict {
            Verdict::Good => Tally { ok: 1, ..none },
            Verdict::Differs => Tally {
                differing: 1,
                ..failed
            },
            Verdict::Missing if options.ignore_missing => Tally { missing: 1, ..none },
            Verdict::Missing | Verdict::Unreadable => failed,
        }
    }

    /// Adds what another tally counts.
    pub fn add(&mut self, other: &Tally)
        requires ok { self.old.ok + other.now.ok < 2 ^ 64 }
        requires failed { self.old.failed + other.now.failed < 2 ^ 64 }
        requires lists { self.old.lists + other.now.lists < 2 ^ 64 }
        requires differing { self.old.differing + other.now.differing < 2 ^ 64 }
        requires malformed { self.old.malformed + other.now.malformed < 2 ^ 64 }
        requires missing { self.old.missing + other.now.missing < 2 ^ 64 }
        ensures { self.new ≡ tally_sum self.old other.now }
    {
        self.ok += other.ok;
        self.failed += other.failed;
        self.lists += other.lists;
        self.differing += other.differing;
        self.malformed += other.malformed;
        self.missing += other.missing;
    }

    /// Whether no name was verified: the digest of none was compared.
    pub fn is_unverified(&self) -> bool
        ensures { result ≡ is_unverified self.now }
    {
        self.ok == 0 && self.differing == 0
    }

    /// Whether no line was a check line.
    pub fn has_no_line(&self) -> bool
        ensures { result ≡ has_no_line self.now }
    {
        self.ok == 0 && self.missing == 0 && self.failed == self.malformed
    }

    /// The status that a program ends with: 0 where neither a name nor a line nor a list failed, else 1.
    pub fn status(&self) -> u8
        ensures { result ≡ status_of self.now }
    {
        if self.failed == 0 && self.lists == 0 {
            0
        } else {
            1
        }
    }
}
