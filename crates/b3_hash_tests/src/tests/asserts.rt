// The assertions of the tests, each proved once: a macro's code is proved anew at each place.

ghost use Rattle.std.specs.Prelude.{◌≡◌, true};

use std::fmt::Debug;
use std::process::Abort;

/// Ends the process, unless the two are equal.
pub fn assert_same<T: PartialEq + Debug + Drop>(rt: &impl Abort, found: T, wanted: T)
    ensures { T.eq found wanted ≡ true }
{
    assert!(rt; found == wanted, "{found:?} is not {wanted:?}");
}

/// Ends the process, unless the two are equal: for one of several cases, which a failure names.
pub fn assert_same_for<C: Debug + Drop, T: PartialEq + Debug + Drop>(
    rt: &impl Abort,
    case: C,
    found: T,
    wanted: T,
)
    ensures { T.eq found wanted ≡ true }
{
    assert!(rt; found == wanted, "{case:?}: {found:?} is not {wanted:?}");
}

/// Ends the process, unless this holds.
pub fn assert_that(rt: &impl Abort, holds: bool)
    ensures { holds ≡ true }
{
    assert!(rt; holds);
}

/// Ends the process, unless this holds: for one of several cases, which a failure names.
pub fn assert_that_for<C: Debug + Drop>(rt: &impl Abort, case: C, holds: bool)
    ensures { holds ≡ true }
{
    assert!(rt; holds, "{case:?}");
}
