// Work that is shared out among threads, all of which the calling thread starts: so each begins as early as it can, and
// what stands on its stack above the work is the same for all.

ghost use Rattle.std.specs.Prelude.{◌≡◌, ℕ, ◌+◌, ◌<◌, ◌≤◌, ◌^◌, length};
ghost use Rattle.std.specs.Fork.{AcceptsAt, AcceptsEach, ChangesAt, ChangesEach};
ghost use Rattle.b3_threads.specs.Threads.{AllFrom, ChangesFrom};
ghost use denote.Param.Send.{IsSync, IsSend};

use std::thread::{Threads, join_mut};

/// Calls `f(i, &mut s[i])` at each place, each in a thread of its own where one can be made, and the last in this one.
pub fn for_each_beside<R: Threads + Sync, T: Send, F: Fn(usize, &mut T) + Sync>(
    rt: &R,
    s: &mut [T],
    f: &F,
)
    requires accepts { AcceptsEach F.Fn f.now s.old }
    ensures each { ChangesEach F.Fn f.now s.old s.new }
    ensures len { length s.new ≡ length s.old }
{
    all_from(rt, f, 0, s);
}

#[cycle(chain)]
fn all_from<R: Threads + Sync, T: Send, F: Fn(usize, &mut T) + Sync>(
    rt: &R,
    f: &F,
    base: usize,
    s: &mut [T],
)
    requires { AllFrom (AcceptsAt F.Fn f.now) base s.old }
    ensures { ChangesFrom (ChangesAt F.Fn f.now) base s.old s.new }
{
    if s.len() < 2 {
        at_most_one(f, base, s);
        return;
    }
    let (first, rest) = s.split_at_mut(1);
    one_beside_rest(rt, f, base, first, rest);
}

// The first in a thread of its own, while this one starts those for the others. As it is not inlined, there is one frame of it
// for each thread that this one starts. It is a multiple of 32 bytes, since `one` moves what it takes and no copy of it is
// kept beside: so the vectors of the code on lanes lie in this thread as in those, however many there are.
#[cycle(chain)]
#[inline(never)]
fn one_beside_rest<R: Threads + Sync, T: Send, F: Fn(usize, &mut T) + Sync>(
    rt: &R,
    f: &F,
    base: usize,
    first: &mut [T],
    rest: &mut [T],
)
    requires one { length first.old ≡ 1 }
    requires first { AllFrom (AcceptsAt F.Fn f.now) base first.old }
    requires rest { AllFrom (AcceptsAt F.Fn f.now) (base + 1) rest.old }
    ensures first { ChangesFrom (ChangesAt F.Fn f.now) base first.old first.new }
    ensures rest { ChangesFrom (ChangesAt F.Fn f.now) (base + 1) rest.old rest.new }
{
    let next = base + 1;
    let mut one = move ||
        requires { IsSync F.row × IsSend T.row × (length first.now ≡ 1)
            × AllFrom (AcceptsAt F.Fn f.now) base first.now }
        ensures { ChangesFrom (ChangesAt F.Fn f.entry.now) base first.entry.now first.exit.now }
    { at_most_one(f, base, first) };
    let mut others = ||
        requires { IsSync R.row × IsSync F.row × IsSend T.row × AllFrom (AcceptsAt F.Fn f.now) next rest.now }
        ensures { ChangesFrom (ChangesAt F.Fn f.entry.now) next rest.entry.now rest.exit.now }
    { all_from(rt, f, next, rest) };
    join_mut(rt, &mut one, &mut others);
}

fn at_most_one<T, F: Fn(usize, &mut T)>(f: &F, base: usize, s: &mut [T])
    requires short { length s.old ≤ 1 }
    requires accepts { AllFrom (AcceptsAt F.Fn f.now) base s.old }
    ensures { ChangesFrom (ChangesAt F.Fn f.now) base s.old s.new }
{
    if s.is_empty() {
        return;
    }
    at_one(f, base, &mut s[0]);
}

fn at_one<T, F: Fn(usize, &mut T)>(f: &F, i: usize, it: &mut T)
    requires { AcceptsAt F.Fn f.now i it.old }
    ensures { ChangesAt F.Fn f.now i it.old it.new }
{
    f(i, it);
}
