// The rule of the claim words, and what each step on them tells the seat that makes it.

use atomic_table::{Join, Play, Split, TableRule};
use std::collections::LinkedList;

// What a seat knows: its parts, what it claimed in the order of claiming, and a row of which index it has
// seen taken. No value of it is made.
pub(crate) struct View {
    pub(crate) parts: u32,
    pub(crate) claimed: LinkedList<u32>,
    pub(crate) seen: LinkedList<bool>,
}

// The rule over a number of indexes. Word 0 is the spare one; the word of index i stands at place i + 1.
pub(crate) struct ClaimRule;

impl TableRule<(), View, usize> for ClaimRule {
    ghost use Rattle.b3_claims.specs.Claiming.{newcomer};
    ghost use Rattle.b3_claims.specs.ClaimRule.{AreLawful};

    ghost holds = { λ n s. AreLawful n s.words s.views };

    ghost first = { newcomer };
}

// A swap of an index's word by 1.
pub(crate) struct Try;

impl Play<(), View> for Try {
    ghost use Rattle.b3_claims.specs.ClaimRule.{Tried};

    ghost then = { Tried };
}

// A load of the spare word, which tells what the rule says of the own view.
pub(crate) struct Look;

impl Play<(), View> for Look {
    ghost use Rattle.b3_claims.specs.ClaimRule.{Told};

    ghost then = { Told };
}

// One part goes to a new seat, and comes back.
pub(crate) struct OnePart;

impl Split<View> for OnePart {
    ghost use Rattle.b3_claims.specs.Claiming.{one_less, one_part};

    ghost left = { one_less };

    ghost right = { one_part };
}

impl Join<View> for OnePart {
    ghost use Rattle.b3_claims.specs.Claiming.{joined};
    ghost use Rattle.b3_claims.specs.ClaimRule.{spent};

    ghost both = { joined };

    ghost spent = { spent };
}
