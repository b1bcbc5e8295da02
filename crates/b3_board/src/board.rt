// A board: what of an input's tree is open, and what was deposited.

ghost use Rattle.std.specs.Prelude.{◌≡◌, ◌↔◌, ℕ, List, ◌+◌, ◌<◌, ◌≤◌, ◌^◌, true, [], All, length, map, slice_get, Contains, Err, Some, IfErr, IfNone, IfOk, IfSome, IsOk, IsOkUnless, IsSome, IsTrue, OnErr, OnOk};
ghost use Rattle.b3_core.specs.Tree.{chunks, top};
ghost use Rattle.b3_core.specs.declared.spans.Span.{Span};
ghost use Rattle.b3_board.specs.BoardStates.{HasTopsOf, IsAscending, IsDeposit, IsLawful, IsOver, IsOwn, PiecesAreGreatest, begun, opened, piece_spans, size};
ghost use Rattle.b3_board.specs.Plans.{IsCutting, IsPlanOf};
ghost use Rattle.b3_board.specs.SpanHashers.{span_of};
ghost use Rattle.b3_board.specs.Shares.{grown};
ghost use Rattle.b3_board.specs.Spans.{IsRootOf, chunks_in, in_memory};
ghost use Rattle.b3_board.specs.declared.board.Refused.TheVariants.{NotOpen, OtherBytes};
ghost use Rattle.b3_claims.specs.declared.fault.BoardFault.TheVariants.{Memory};

use crate::backing::{Backing, InMemory, InSource, Unread};
use crate::entries::{Entry, KeptNode, count_open, find_open, nth_open, nth_piece, opened};
use crate::input_ledger::{Extent, InputLedger, OwnDone};
use crate::jobs::Done;
use crate::merging::{close_all, close_span, root_of};
use crate::plan::Plan;
use crate::root::Root;
use crate::share::{Account, Share};
use b3_claims::BoardFault;
use b3_core::Span;
use std::alloc::{AllocError, Global};
use std::marker::Model;
use std::sync::ledger::Blank;

/// A deposit that changed nothing, with what was to be deposited: refusals 6 and 7, the numbers after those
/// of `BoardFault`.
#[derive(Drop)]
pub enum Refused<'a> {
    /// The span is no open span of the board.
    NotOpen(Done<'a>),
    /// The span's bytes, the mode or the first chunk are not the board's.
    OtherBytes(Done<'a>),
}

/// A board over the input that its type names, which lies in memory ([`MemoryBoard`]) or is read from a source
/// ([`SourceBoard`]).
///
/// Whatever value of it anyone holds, its open spans and its pieces are disjoint subtrees of the input's
/// tree (BLAKE3 (2020), 2.1), each piece with the node that the standard defines, no two of them siblings,
/// and their chunks add up to the whole.
#[derive(Drop)]
pub struct Board<H: Backing, L: InputLedger> {
    backing: H,
    extent: Extent<L>,
    entries: Vec<Entry>,
    account: Account<L>,
    missed: bool,
}

impl<H: Backing, L: InputLedger> Model for Board<H, L> {
    ghost use Rattle.b3_board.specs.Entries.{KeepsBoard, open_spans, pieces};
    ghost use Rattle.b3_board.specs.BoardStates.{BoardState};

    ghost Value = { BoardState };

    ghost view = { λ board. record {
      input = L.input;
      mode = L.mode;
      first = L.first;
      open_spans = open_spans board.entries.items;
      pieces = pieces board.entries.items;
      book = board.account.chunks;
    } };

    ghost invariant = { λ board. KeepsBoard L.input L.mode L.first H.grain H.sure
        board.entries.items board.account.chunks board.missed };
}

/// A board over an input that lies in memory.
pub type MemoryBoard<'a, L> = Board<InMemory<'a, L>, L>;

/// A board over an input that is read from a source.
pub type SourceBoard<L> = Board<InSource<L>, L>;

impl<'a, L: InputLedger> Board<InMemory<'a, L>, L> {
    /// The board of the plan, with all its spans open, and a share with all 128 parts and no chunks.
    ///
    /// It takes all its memory here.
    pub fn new(
        alloc: Global,
        plan: &Plan<'a>,
        blank: Blank,
    ) -> Result<(MemoryBoard<'a, L>, Share<L>), BoardFault>
        requires name { blank.name ≡ L.name }
        requires parts { blank.parts ≡ L.parts }
        requires whole { L.parts ≡ 128 }
        requires own { IsPlanOf L.input L.mode L.first plan.now }
        ensures board { IfOk result (λ made. made.0 ≡ opened plan.now) }
        ensures share { IfOk result (λ made. made.1 ≡ record { parts = 128; chunks = 0 }) }
        ensures lawful { IfOk result (λ made. IsLawful made.0) }
        ensures only { IsOkUnless result Memory }
    {
        let backing = InMemory::new(plan.tree);
        let extent = Extent::new(plan.tree.input.len() as u64, plan.tree.mode);
        let made = Board::open(alloc, backing, extent, plan.spans(), blank)?;
        Ok(made)
    }

    /// Closes an open span with its node, and merges siblings as long as there are any.
    ///
    /// The span's bytes are compared with the board's, so that work of any origin can be taken.
    pub fn deposit(&mut self, done: Done<'a>, share: &mut Share<L>) -> Result<(), Refused<'a>>
        ensures ok { IsOk result ↔ (Contains self.old.open_spans done.entry.span × IsOwn self.old done.entry) }
        ensures not_open { ¬ Contains self.old.open_spans done.entry.span → result ≡ Err (NotOpen done.entry) }
        ensures other_bytes { Contains self.old.open_spans done.entry.span → ¬ IsOwn self.old done.entry
            → result ≡ Err (OtherBytes done.entry) }
        ensures step { OnOk result (IsDeposit self.old done.entry.span self.new) }
        ensures share { OnOk result (share.new ≡ grown share.old done.entry.span.count) }
        ensures unchanged { OnErr result (self.new ≡ self.old) }
        ensures share_unchanged { OnErr result (share.new ≡ share.old) }
        ensures lawful { IsLawful self.new }
        ensures tops { (all : List ℕ) → self.new.input ≡ in_memory all → HasTopsOf all self.new }
    {
        if !self.is_open(done.span) {
            return Err(Refused::NotOpen(done));
        }
        if !done.is_of(&self.backing.tree) {
            return Err(Refused::OtherBytes(done));
        }
        match self.deposit_own(OwnDone::of_done(done), share) {
            Ok(()) => Ok(()),
            Err(_) => unreachable!(),
        }
    }

    /// Hashes and closes every open span, and answers how many chunks these were.
    pub fn sweep(&mut self, share: &mut Share<L>) -> u64
        ensures waiting { result ≡ chunks_in self.old.open_spans }
        ensures none_open { self.new.open_spans ≡ [] }
        ensures book { self.new.book ≡ self.old.book + result }
        ensures share { share.new ≡ grown share.old result }
        ensures same_input { IsOver self.old.input self.old.mode self.old.first self.new }
        ensures lawful { IsLawful self.new }
        ensures tops { (all : List ℕ) → self.new.input ≡ in_memory all → HasTopsOf all self.new }
    {
        let count = close_all(self.entries.as_mut_slice(), &self.extent, &self.backing);
        self.account.credit(share, count);
        count
    }

    /// The input. Each piece has the top of its bytes in the piece's span.
    pub fn input(&self) -> &'a [u8]
        ensures input { self.now.input ≡ in_memory result.now }
        ensures tops { HasTopsOf result.now self.now }
    {
        self.backing.tree.input
    }

    /// Whether the plan has the board's input, mode and first chunk.
    pub fn is_over(&self, plan: &Plan<'a>) -> bool
        ensures { IsTrue result ↔ IsPlanOf self.now.input self.now.mode self.now.first plan.now }
    {
        self.backing.tree.is_same(&plan.tree)
    }
}

impl<H: Backing, L: InputLedger> Board<H, L> {
    // The board over the input that the ledger names, cut into these spans, which are all open, and a share with all
    // 128 parts and no chunks.
    pub(crate) fn open(
        alloc: Global,
        backing: H,
        extent: Extent<L>,
        spans: &[Span],
        blank: Blank,
    ) -> Result<(Board<H, L>, Share<L>), AllocError>
        requires name { blank.name ≡ L.name }
        requires parts { blank.parts ≡ L.parts }
        requires whole { L.parts ≡ 128 }
        requires cutting { IsCutting (chunks L.input.len) spans.now }
        requires few { All (λ span. span.count ≤ H.grain) spans.now }
        ensures board { IfOk result (λ made. made.0 ≡ begun L.input L.mode L.first spans.now) }
        ensures share { IfOk result (λ made. made.1 ≡ record { parts = 128; chunks = 0 }) }
        ensures lawful { IfOk result (λ made. IsLawful made.0) }
    {
        let entries = opened(alloc, spans)?;
        let (account, share) = Account::open(blank);
        let board = Board {
            backing,
            extent,
            entries,
            account,
            missed: false,
        };
        Ok((board, share))
    }

    // The same as `deposit` for work of what the board's type names: no byte is compared. Refused where the span is not
    // open; the work is handed back.
    pub(crate) fn deposit_own(
        &mut self,
        own: OwnDone<L>,
        share: &mut Share<L>,
    ) -> Result<(), OwnDone<L>>
        ensures ok { IsOk result ↔ Contains self.old.open_spans own.span }
        ensures handed_back { IfErr result (λ back. back ≡ own) }
        ensures step { OnOk result (IsDeposit self.old own.span self.new) }
        ensures share { OnOk result (share.new ≡ grown share.old own.span.count) }
        ensures unchanged { OnErr result (self.new ≡ self.old) }
        ensures share_unchanged { OnErr result (share.new ≡ share.old) }
        ensures lawful { IsLawful self.new }
    {
        let Some(place) = find_open(self.entries.as_slice(), own.span) else {
            return Err(own);
        };
        let node = own.node;
        let chaining_value = own.chaining_value;
        self.account.credit(share, own.span.count);
        let kept = KeptNode {
            node,
            chaining_value,
        };
        close_span(self.entries.as_mut_slice(), &self.extent, place, kept);
        Ok(())
    }

    // Deposits what was made of a span, or keeps in mind that its bytes could not be had. A deposit that is refused
    // changes nothing.
    pub(crate) fn deposit_or_miss(
        &mut self,
        made: Result<OwnDone<L>, Unread<H>>,
        share: &mut Share<L>,
    )
        ensures parts { share.new.parts ≡ share.old.parts }
        ensures grown { share.new.chunks ≤ share.old.chunks + (span_of made).count }
        ensures lawful { IsLawful self.new }
    {
        match made {
            Ok(own) => {
                let _refused = self.deposit_own(own, share);
            }
            Err(unread) => self.mark_missed(unread),
        }
    }

    // Keeps in mind that a span's bytes could not be had.
    fn mark_missed(&mut self, _unread: Unread<H>)
        ensures board { self.new ≡ self.old }
        ensures lawful { IsLawful self.new }
    {
        self.missed = true;
    }

    // Whether a span's bytes could not be had.
    pub(crate) fn has_missed(&self) -> bool
        ensures { IsTrue result → ¬ H.sure }
    {
        self.missed
    }

    // Whether the span is an open one.
    fn is_open(&self, span: Span) -> bool
        ensures open { IsTrue result ↔ Contains self.now.open_spans span }
        ensures inside { IsTrue result → span.first + span.count ≤ chunks L.input.len }
        ensures some { IsTrue result → 0 < span.count }
        ensures lawful { IsLawful self.now }
    {
        let Some(_place) = find_open(self.entries.as_slice(), span) else {
            return false;
        };
        true
    }

    // The first open span.
    pub(crate) fn next_open(&self) -> Option<Span>
        ensures open { IfSome result (λ span. Contains self.now.open_spans span) }
        ensures none { IfNone result (self.now.open_spans ≡ []) }
        ensures inside { IfSome result (λ span. span.first + span.count ≤ chunks L.input.len) }
        ensures some { IfSome result (λ span. 0 < span.count) }
        ensures few { IfSome result (λ span. span.count ≤ H.grain) }
    {
        nth_open(self.entries.as_slice(), 0)
    }

    /// Changes nothing, and tells that a share of all 128 parts has all deposited chunks.
    pub fn audit(&mut self, share: &mut Share<L>)
        requires { share.old.parts ≡ 128 }
        ensures all { share.new.chunks ≡ self.new.book }
        ensures board { self.new ≡ self.old }
        ensures share { share.new ≡ share.old }
    {
        self.account.audit(share);
    }

    /// The number of open spans.
    pub fn open_spans(&self) -> usize
        ensures { result ≡ length self.now.open_spans }
    {
        count_open(self.entries.as_slice())
    }

    /// The i-th open span, in ascending order.
    pub fn open_span(&self, i: usize) -> Option<Span>
        ensures span { result ≡ slice_get self.now.open_spans i }
        ensures ascending { IsAscending self.now.open_spans }
    {
        nth_open(self.entries.as_slice(), i)
    }

    /// The span of the i-th piece, in ascending order.
    ///
    /// The pieces are the greatest subtrees of deposited chunks.
    pub fn piece(&self, i: usize) -> Option<Span>
        ensures span { result ≡ slice_get (piece_spans self.now) i }
        ensures ascending { IsAscending (piece_spans self.now) }
        ensures greatest { PiecesAreGreatest self.now }
    {
        nth_piece(self.entries.as_slice(), i)
    }

    /// The number of deposited chunks.
    pub fn deposited(&self) -> u64
        ensures book { result ≡ self.now.book }
        ensures lawful { IsLawful self.now }
    {
        self.account.chunks
    }

    /// The number of chunks in open spans.
    pub fn waiting(&self) -> u64
        ensures open { result ≡ chunks_in self.now.open_spans }
        ensures all { self.now.book + result ≡ size self.now }
    {
        self.extent.size() - self.account.chunks
    }

    /// The root, once no span is open. It hashes nothing.
    pub fn root(&self) -> Option<Root>
        ensures there { IsSome result ↔ (self.now.open_spans ≡ []) }
        ensures kept { IfSome result (λ root. root.kept ≡ true) }
        ensures root { IfSome result (λ root. IsRootOf self.now.input self.now.mode self.now.first root.node) }
        ensures told { IfSome result (λ root. (all : List ℕ) → self.now.input.told ≡ Some all
            → root ≡ record { node = top self.now.mode self.now.first all; kept = true }) }
        ensures own { IsOver L.input L.mode L.first self.now }
        ensures lawful { IsLawful self.now }
    {
        let Some(node) = root_of(self.entries.as_slice(), &self.extent) else {
            return None;
        };
        Some(Root::of_board(node))
    }
}
