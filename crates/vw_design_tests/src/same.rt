//! Comparisons of what is found with what is wanted.
use std::process::Abort;

/// Asserts that what is found of a text is what is wanted.
pub fn assert_same(rt: &impl Abort, text: &[u8], found: &[u8], wanted: &[u8]) {
    assert_eq!(rt; found, wanted, "{text:?}");
}

/// Asserts that the number that is found of a text is the one that is wanted, or that there is none.
pub fn assert_number(rt: &impl Abort, text: &[u8], found: Option<u64>, wanted: Option<u64>) {
    assert_eq!(rt; found, wanted, "{text:?}");
}
