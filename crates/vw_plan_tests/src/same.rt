//! Assertions that many tests share. Each is proved once, and a call of one costs little.
use std::process::Abort;

/// Asserts that these bytes are found, of what a text names.
pub fn are_bytes(rt: &impl Abort, found: &[u8], wanted: &[u8], text: &[u8]) {
    assert_eq!(rt; found, wanted, "{text:?}");
}

/// Asserts that these numbers are found.
pub fn are_numbers(rt: &impl Abort, found: &[u32], wanted: &[u32]) {
    assert_eq!(rt; found, wanted);
}

/// Asserts that these numbers are found, or those.
pub fn are_either(rt: &impl Abort, found: &[u32], these: &[u32], those: &[u32]) {
    assert!(rt; found == these || found == those);
}

/// Asserts that these wide numbers are found.
pub fn are_wide_numbers(rt: &impl Abort, found: &[u64], wanted: &[u64]) {
    assert_eq!(rt; found, wanted);
}

/// Asserts that there are so many of something.
pub fn is_count(rt: &impl Abort, found: usize, wanted: usize) {
    assert_eq!(rt; found, wanted);
}
