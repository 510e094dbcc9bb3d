//! Each check is a function with no contract, since a test is proved over all that is known where it stands: so what is
//! known of an answer is left behind here. The words say what of a test failed.
use std::fmt::Debug;
use std::process::Abort;

pub(crate) fn good<T, E: Debug>(rt: &impl Abort, what: &str, answer: Result<T, E>) -> T {
    answer.expect(rt, what)
}

pub(crate) fn same<T: PartialEq + Debug>(rt: &impl Abort, what: &str, found: &T, wanted: &T) {
    assert_eq!(rt; found, wanted, "{what}");
}

pub(crate) fn same_text(rt: &impl Abort, what: &str, found: &str, wanted: &str) {
    assert_eq!(rt; found, wanted, "{what}");
}
