// Claims on indexes, each by one swap of a shared word, and the seats that claim.

ghost use Rattle.std.specs.Prelude.{◌≡◌, ℕ, ◌+◌, ◌<◌, ◌≤◌, [], length, IfOk, IsOkUnless};
ghost use Rattle.b3_claims.specs.declared.fault.BoardFault.TheVariants.{Memory};

use crate::claim_rule::{ClaimRule, Look, OnePart, Try, View};
use crate::fault::BoardFault;
use arrayvec::ArrayVec;
use atomic_table::Table;
use std::alloc::Global;
use std::marker::Model;

const PARTS: u32 = 128;

/// Words that threads share, one for each index below a count of at most 1,024. Each index is claimed at
/// most once, whatever the schedule.
#[derive(Drop)]
pub struct Claims {
    table: Table<(), View, usize, ClaimRule, Global>,
    ghost sized: { table.shared.table_id.words ≡ table.shared.key + 1 },
    ghost few: { table.shared.key ≤ 1024 },
}

impl Model for Claims {
    ghost use Rattle.b3_claims.specs.Seats.{ClaimsState};

    ghost Value = { ClaimsState };

    ghost view = { λ claims. record { count = claims.table.shared.key; table = claims.table.shared.table_id } };
}

/// A seat at some claims: some of their 128 parts, what it claimed, and, for contracts alone, which
/// indexes it has seen taken.
#[derive(Drop)]
pub struct Seat {
    token: atomic_table::Seat<(), View>,
    parts: u32,
    claimed: ArrayVec<u32, 1024>,
}

impl Model for Seat {
    ghost use Rattle.b3_claims.specs.Seats.{SeatState};
    ghost use Rattle.b3_claims.specs.ClaimRule.{KeepsSeat};

    ghost Value = { SeatState };

    ghost view = { λ seat. record { view = seat.token.me.0; table = seat.token.table_id } };

    ghost invariant = { λ seat. KeepsSeat seat.token.me seat.parts seat.claimed.items };
}

impl Seat {
    /// How many of the 128 parts, at least one.
    pub fn parts(&self) -> u32
        ensures parts { result ≡ self.now.view.parts }
        ensures some { 0 < result }
        ensures few { result ≤ 128 }
    {
        self.parts
    }

    /// The claimed indexes, in the order of claiming.
    pub fn claimed(&self) -> &[u32]
        ensures { result.now ≡ self.now.view.claimed }
    {
        self.claimed.as_slice()
    }
}

impl Claims {
    ghost use Rattle.b3_claims.specs.Claiming.{is_set, joined, newcomer, one_if, one_less, one_part, occurrences, tried};
    ghost use Rattle.b3_claims.specs.Seats.{IsSeatOf};

    /// Claims on the indexes below n, none of them taken, and the first seat, which has all 128 parts.
    ///
    /// It takes all its memory here.
    pub fn new(alloc: Global, n: usize) -> Result<(Claims, Seat), BoardFault>
        requires { (1 ≤ n) × (n ≤ 1024) }
        ensures count { IfOk result (λ made. made.0.count ≡ n) }
        ensures own { IfOk result (λ made. IsSeatOf made.0 made.1) }
        ensures seat { IfOk result (λ made. made.1.view ≡ newcomer n) }
        ensures only { IsOkUnless result Memory }
    {
        let words = vec![in alloc; 0u64; n + 1]?;
        let (table, token) = Table::of_words(alloc, words.as_slice(), &n)?;
        let seat = Seat {
            token,
            parts: PARTS,
            claimed: ArrayVec::new(),
        };
        Ok((Claims { table }, seat))
    }

    /// Tries to take index i by one swap of its word.
    ///
    /// True: it was free, and is now the last of the seat's list. False: it was taken, and the list is as it
    /// was. In both cases the seat has seen it, so it is taken for good.
    pub fn try_claim(&self, seat: &mut Seat, i: usize) -> bool
        requires index { i < self.now.count }
        requires own { IsSeatOf self.now seat.old }
        ensures own { IsSeatOf self.now seat.new }
        ensures view { seat.new.view ≡ tried seat.old.view i result }
    {
        let found = self.table.shared.swap::<Try>(&mut seat.token, i + 1, 1);
        let won = found == 0;
        if won {
            seat.claimed.push(i as u32);
        }
        won
    }

    /// Hands one part to a new seat, which has claimed nothing and has seen what the old one has.
    pub fn split(&self, seat: &mut Seat) -> Seat
        requires own { IsSeatOf self.now seat.old }
        requires parts { 2 ≤ seat.old.view.parts }
        ensures own { IsSeatOf self.now seat.new × IsSeatOf self.now result }
        ensures kept { seat.new.view ≡ one_less seat.old.view }
        ensures given { result.view ≡ one_part seat.old.view }
    {
        let token = self.table.shared.split_seat::<OnePart>(&mut seat.token);
        seat.parts -= 1;
        Seat {
            token,
            parts: 1,
            claimed: ArrayVec::new(),
        }
    }

    /// Adds the parts of the other seat, appends its list and unites what both have seen.
    pub fn join(&self, seat: &mut Seat, other: Seat)
        requires own { IsSeatOf self.now seat.old × IsSeatOf self.now other }
        ensures own { IsSeatOf self.now seat.new }
        ensures view { seat.new.view ≡ joined seat.old.view other.view }
        ensures few { length seat.new.view.claimed ≤ self.now.count }
    {
        let Seat {
            token,
            parts,
            claimed,
        } = other;
        self.table
            .shared
            .join_seat::<OnePart>(&mut seat.token, token);
        self.table.shared.load::<Look>(&mut seat.token, 0);
        seat.parts += parts;
        let _fits = seat.claimed.try_extend_from_slice(claimed.as_slice());
    }

    /// The list of a seat with all 128 parts: each index that is taken, once, and no other.
    pub fn close(self, seat: Seat) -> ArrayVec<u32, 1024>
        requires own { IsSeatOf self seat }
        requires parts { seat.view.parts ≡ 128 }
        ensures list { result.items ≡ seat.view.claimed }
        ensures once { (i : ℕ) → occurrences i result.items ≡ one_if (is_set seat.view.seen i) }
    {
        let Seat {
            mut token,
            parts: _,
            claimed,
        } = seat;
        self.table.shared.load::<Look>(&mut token, 0);
        claimed
    }
}
