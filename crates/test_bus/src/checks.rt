//! Assertions of tests as functions, so that each is proved once and not wherever a test asserts. Each crate of tests has its
//! own: the gate takes a function that may abort in tests alone.
ghost use Rattle.std.specs.Prelude.{IsTrue};

use std::fmt::Debug;
use std::process::Abort;

/// Fails unless what was found is what was expected, and prints both.
pub(crate) fn same<R: Abort, T: PartialEq + Debug + Drop>(rt: &R, found: T, expected: T) {
    assert_eq!(rt; found, expected);
}

/// Fails unless this is so, and says what isn't.
pub(crate) fn holds<R: Abort>(rt: &R, is_so: bool, what: &str)
    ensures { IsTrue is_so }
{
    assert!(rt; is_so, "{what}");
}
