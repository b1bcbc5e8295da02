// Inputs that are cut and deposited at random.

ghost use Rattle.std.specs.Prelude.{◌<◌};

use super::asserts::assert_that;
use super::memory::plan_by_cutting;
use super::{append, in_order, pattern, span};
use b3_core::{Span, left};
use std::alloc::Global;
use std::process::Abort;

// A generator of numbers that look random.
#[derive(Drop)]
pub struct Rng {
    pub state: u64,
}

impl Rng {
    // The next number below `bound`.
    pub fn below(&mut self, bound: u64) -> u64
        requires { 0 < bound }
        ensures { result < bound }
    {
        self.state = self
            .state
            .wrapping_mul(6364136223846793005)
            .wrapping_add(1442695040888963407);
        (self.state >> 33) % bound
    }
}

// Cuts a subtree into smaller ones, at random: one in `whole` is not cut further.
pub fn cut_at_random(rt: &impl Abort, alloc: Global, rng: &mut Rng, n: u64, whole: u64) -> Vec<Span>
    requires { 0 < whole }
{
    let mut cutting = Vec::new(alloc);
    let mut rest = Vec::new(alloc);
    append(rt, &mut rest, span(0, n));
    for _ in 0..4096usize {
        let Some(next) = rest.pop() else {
            break;
        };
        if next.count > 1 && rng.below(whole) > 0 {
            let count = left(next.count);
            assert_that(
                rt,
                next.first < 1 << 20 && count < next.count && next.count <= 1 << 20,
            );
            append(rt, &mut rest, span(next.first + count, next.count - count));
            append(rt, &mut rest, span(next.first, count));
        } else {
            append(rt, &mut cutting, next);
        }
    }
    cutting
}

// The numbers below `n`, in an order at random.
fn order_at_random(rt: &impl Abort, alloc: Global, rng: &mut Rng, n: usize) -> Vec<usize> {
    let mut order = Vec::with_capacity(alloc, n).expect(rt, "memory");
    for i in 0..n {
        let place = rng.below(i as u64 + 1) as usize;
        assert_that(rt, place <= order.len());
        order.insert(place, i).expect(rt, "memory");
    }
    order
}

// A length, and one in how many subtrees is not cut further. The first turn has 1,024 spans; of the others most
// are small, so that the test ends soon however it is compiled.
fn lengths_at_random(rng: &mut Rng, turn: usize) -> (usize, u64)
    ensures whole { 0 < result.1 }
{
    if turn == 0 {
        return (1 << 20, 1 << 32);
    }
    let greatest = if turn % 100 == 0 { 1 << 20 } else { 1 << 15 };
    let most = 1 + rng.below(greatest);
    let bound = 1 + rng.below(most);
    (1 + rng.below(bound) as usize, 8)
}

#[test]
fn random_cuttings_and_orders(rt: HostRuntime) {
    let alloc = rt.alloc();
    let input = pattern(&rt, alloc, 1024 * 1024);
    let mut rng = Rng { state: 1 };
    for turn in 0..1000usize {
        let (len, whole) = lengths_at_random(&mut rng, turn);
        assert_that(&rt, len <= input.len());
        let part = &input[..len];
        let n = b3_core::chunks(len as u64);
        let cutting = cut_at_random(&rt, alloc, &mut rng, n, whole);
        let plan = plan_by_cutting(&rt, alloc, part, &cutting);
        assert_that(&rt, turn > 0 || plan.len() == 1024);
        let order = order_at_random(&rt, alloc, &mut rng, plan.len());
        in_order(&rt, alloc, &plan, &order, 1);
    }
}
