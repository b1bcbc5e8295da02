// Shares of a board's ledger of deposited chunks.

ghost use Rattle.std.specs.Prelude.{◌≡◌, ◌+◌, ◌<◌, ◌≤◌, ◌^◌};
ghost use Rattle.b3_board.specs.Shares.{grown};

use std::marker::{Model, PhantomData};
use std::sync::ledger;
use std::sync::ledger::{Blank, Book, Ledger};

const PARTS: u32 = 128;

// That the ledger is cut into 128 parts.
#[derive(Drop)]
pub(crate) struct Parts<L: Ledger> {
    of: PhantomData<L>,
    ghost all: { L.parts ≡ 128 },
}

/// Some of the 128 parts of a board's ledger, and the chunks that were deposited under them.
///
/// A share is of its board by its type. The chunks of all shares add up to what the board deposited, also
/// those of shares that were dropped.
#[derive(Drop)]
pub struct Share<L: Ledger> {
    parts: u32,
    chunks: u64,
    token: ledger::Share<L>,
    of: Parts<L>,
    ghost parts_are: { token.parts ≡ parts },
    ghost chunks_are: { token.amount ≡ chunks },
    ghost some: { 0 < parts },
    ghost few: { parts ≤ 128 },
}

impl<L: Ledger> Model for Share<L> {
    ghost use Rattle.b3_board.specs.Shares.{ShareState};

    ghost Value = { ShareState };

    ghost view = { λ share. record { parts = share.parts; chunks = share.chunks } };
}

impl<L: Ledger> Share<L> {
    /// How many of the 128 parts, at least one.
    pub fn parts(&self) -> u32
        ensures parts { result ≡ self.now.parts }
        ensures some { 0 < result }
        ensures few { result ≤ 128 }
    {
        self.parts
    }

    /// The number of chunks.
    pub fn chunks(&self) -> u64
        ensures { result ≡ self.now.chunks }
    {
        self.chunks
    }

    /// Hands over one part, and no chunks.
    pub fn split(&mut self) -> Share<L>
        requires { 2 ≤ self.old.parts }
        ensures given { result ≡ record { parts = 1; chunks = 0 } }
        ensures left { self.new.parts + 1 ≡ self.old.parts }
        ensures chunks { self.new.chunks ≡ self.old.chunks }
    {
        let token = self.token.split_off(1, 0);
        self.parts -= 1;
        Share {
            parts: 1,
            chunks: 0,
            token,
            of: Parts { of: PhantomData },
        }
    }

    /// Adds both numbers of the other share.
    pub fn join(&mut self, other: Share<L>)
        requires { self.old.chunks + other.chunks < 2 ^ 64 }
        ensures { self.new ≡ record { parts = self.old.parts + other.parts; chunks = self.old.chunks + other.chunks } }
    {
        let Share {
            parts,
            chunks,
            token,
            of: _,
        } = other;
        self.token.merge(token);
        self.parts += parts;
        self.chunks += chunks;
    }
}

// What a board keeps of its ledger: the number of deposited chunks, and the book that says the same of all
// shares.
#[derive(Drop)]
pub(crate) struct Account<L: Ledger> {
    pub(crate) chunks: u64,
    book: Book<L>,
    of: Parts<L>,
    ghost booked: { book.total ≡ chunks },
}

impl<L: Ledger> Account<L> {
    // Opens the ledger, with one share of all parts and no chunks.
    pub(crate) fn open(blank: Blank) -> (Account<L>, Share<L>)
        requires name { blank.name ≡ L.name }
        requires parts { blank.parts ≡ L.parts }
        requires whole { L.parts ≡ 128 }
        ensures chunks { result.0.chunks ≡ 0 }
        ensures share { result.1 ≡ record { parts = 128; chunks = 0 } }
    {
        let (book, token) = blank.open::<L>();
        let account = Account {
            chunks: 0,
            book,
            of: Parts { of: PhantomData },
        };
        let share = Share {
            parts: PARTS,
            chunks: 0,
            token,
            of: Parts { of: PhantomData },
        };
        (account, share)
    }

    // Adds deposited chunks to the account and to the share.
    pub(crate) fn credit(&mut self, share: &mut Share<L>, count: u64)
        requires { self.old.chunks + count < 2 ^ 64 }
        ensures chunks { self.new.chunks ≡ self.old.chunks + count }
        ensures share { share.new ≡ grown share.old count }
        ensures bound { share.new.chunks ≤ self.new.chunks }
    {
        self.book.audit(&mut share.token);
        self.book.add(&mut share.token, count);
        share.chunks += count;
        self.chunks += count;
    }

    // Changes nothing, and tells that a share of all parts has all deposited chunks.
    pub(crate) fn audit(&mut self, share: &mut Share<L>)
        requires { share.old.parts ≡ 128 }
        ensures all { share.new.chunks ≡ self.new.chunks }
        ensures share { share.new ≡ share.old }
        ensures chunks { self.new.chunks ≡ self.old.chunks }
    {
        self.book.audit(&mut share.token);
    }
}
