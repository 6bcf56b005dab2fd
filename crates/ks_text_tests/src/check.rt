//! What was found is held against what was wanted. The assertions stand here, since one in the function of a test costs its proof
//! more than this call does.
use std::process::Abort;

/// What is said of a row is so.
pub(crate) fn check(rt: &impl Abort, row: &str, is_so: bool) {
    assert!(rt; is_so, "{row}");
}

/// A row has this text.
pub(crate) fn check_text(rt: &impl Abort, row: &str, found: &str, want: &str) {
    assert!(rt; found == want, "{row}: found {found}, wanted {want}");
}

/// A row has these bytes.
pub(crate) fn check_bytes(rt: &impl Abort, row: &str, found: &[u8], want: &[u8]) {
    assert!(rt; found == want, "{row}: found {found:?}, wanted {want:?}");
}

/// A text that is cut there, or comes in pieces of that size, has these bytes.
pub(crate) fn check_cut(rt: &impl Abort, size: usize, found: &[u8], want: &[u8]) {
    assert!(rt; found == want, "{size}: found {found:?}, wanted {want:?}");
}
