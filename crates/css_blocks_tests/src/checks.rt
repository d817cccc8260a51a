//! How a test ends where something isn't so. A call is less to prove than an assertion in its place.
use std::process::Abort;

/// Ends the test with the number of a row or a round where it isn't so.
pub(crate) fn check_row(rt: &impl Abort, row: usize, is_so: bool) {
    assert!(rt; is_so, "row {row}");
}
