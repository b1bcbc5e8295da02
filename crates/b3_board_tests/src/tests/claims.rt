// Claims by several seats, one after the other and in two threads.

ghost use Rattle.std.specs.Prelude.{◌≡◌, ◌<◌, ◌≤◌};
ghost use Rattle.b3_claims.specs.Seats.{HasSeenAll, IsSeatOf};

use super::asserts::{assert_same, assert_that_for};
use super::memory::last_growth;
use arrayvec::ArrayVec;
use b3_board::{BoardFault, Claims, Seat};
use std::alloc::Global;
use std::process::Abort;
use std::thread;
use std::thread::Threads;

// A claim, of which its caller compares the answer.
fn try_claim(claims: &Claims, seat: &mut Seat, i: usize) -> bool
    requires index { i < claims.now.count }
    requires own { IsSeatOf claims.now seat.old }
    ensures own { IsSeatOf claims.now seat.new }
    ensures parts { seat.new.view.parts ≡ seat.old.view.parts }
{
    claims.try_claim(seat, i)
}

// Whether a claim of `i` is taken, and what the seat has claimed then.
fn assert_claim(
    rt: &impl Abort,
    claims: &Claims,
    seat: &mut Seat,
    i: usize,
    is_taken: bool,
    claimed: &[u32],
)
    requires index { i < claims.now.count }
    requires own { IsSeatOf claims.now seat.old }
    ensures own { IsSeatOf claims.now seat.new }
    ensures parts { seat.new.view.parts ≡ seat.old.view.parts }
{
    assert_same(rt, try_claim(claims, seat, i), is_taken);
    assert_same(rt, seat.claimed(), claimed);
}

fn assert_seat(rt: &impl Abort, seat: &Seat, parts: u32, claimed: &[u32]) {
    assert_same(rt, (seat.parts(), seat.claimed()), (parts, claimed));
}

#[test]
fn three_seats_claim_in_turn(rt: HostRuntime) {
    let (claims, mut first) = Claims::new(rt.alloc(), 3).expect(&rt, "claims");
    assert_seat(&rt, &first, 128, &[]);
    let mut second = claims.split(&mut first);
    let mut third = claims.split(&mut first);
    assert_same(
        &rt,
        (first.parts(), second.parts(), third.parts()),
        (126, 1, 1),
    );
    assert_claim(&rt, &claims, &mut second, 2, true, &[2]);
    assert_claim(&rt, &claims, &mut second, 2, false, &[2]);
    assert_claim(&rt, &claims, &mut third, 2, false, &[]);
    assert_claim(&rt, &claims, &mut third, 0, true, &[0]);
    assert_claim(&rt, &claims, &mut first, 1, true, &[1]);
    claims.join(&mut first, second);
    claims.join(&mut first, third);
    assert_seat(&rt, &first, 128, &[1, 2, 0]);
    assert_same(&rt, claims.close(first).as_slice(), [1u32, 2, 0].as_slice());
}

fn claim_all(claims: &Claims, mut seat: Seat, n: usize) -> Seat
    requires count { claims.now.count ≡ n }
    requires own { IsSeatOf claims.now seat }
    ensures own { IsSeatOf claims.now result }
    ensures parts { result.view.parts ≡ seat.view.parts }
{
    for i in 0..n {
        try_claim(&claims, &mut seat, i);
    }
    seat
}

// Two threads try each index.
fn race<R: Threads + Abort>(rt: &R, alloc: Global, n: usize) -> ArrayVec<u32, 1024>
    requires { (1 ≤ n) × (n ≤ 1024) }
{
    let (claims, mut first) = Claims::new(alloc, n).expect(rt, "claims");
    let second = claims.split(&mut first);
    let (mut one, other) = thread::join(
        rt,
        || claim_all(&claims, first, n),
        || claim_all(&claims, second, n),
    );
    claims.join(&mut one, other);
    claims.close(one)
}

fn assert_all_once(rt: &impl Abort, mut list: ArrayVec<u32, 1024>, n: usize) {
    list.as_mut_slice().sort_unstable();
    assert_same(rt, list.len(), n);
    for (i, x) in list.iter().enumerate() {
        assert_same(rt, *x as usize, i);
    }
}

#[test]
fn claims_race(rt: HostRuntime) {
    assert_all_once(&rt, race(&rt, rt.alloc(), 1024), 1024);
    for _ in 0..1000usize {
        assert_all_once(&rt, race(&rt, rt.alloc(), 64), 64);
    }
}

// The growth may be refused: what is asserted holds all the same.
#[test]
fn a_refused_growth_makes_no_claims(rt: HostRuntime) {
    match Claims::new(rt.alloc(), 1024) {
        Ok((_claims, first)) => assert_same(&rt, first.parts(), 128),
        Err(fault) => assert_same(&rt, fault, BoardFault::Memory),
    }
    assert_that_for(
        &rt,
        "refused after the last call",
        last_growth(rt.alloc()).is_ok(),
    );
}
