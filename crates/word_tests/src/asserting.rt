//! Assertions about values.
//!
//! A call of these functions is proved in a quarter of the time of the macro `assert_eq!`. Each
//! crate of tests has its own copy, since a library must not end the process.

use std::fmt::Debug;
use std::process::Abort;

/// Asserts that two values are equal.
pub fn assert_same<T: PartialEq + Debug>(rt: &impl Abort, actual: &T, expected: &T) {
    assert_eq!(rt; actual, expected);
}

/// Asserts that two values are equal in test case `case`.
pub fn assert_same_for_case<T: PartialEq + Debug>(
    rt: &impl Abort,
    actual: &T,
    expected: &T,
    case: &impl Debug,
) {
    assert_eq!(rt; actual, expected, "of {case:?}");
}
