//! What the tests compare by.

use std::alloc::AllocError;
use std::process::Abort;

/// The one place that stops, where a row does not hold, by its name.
pub fn expect(rt: &impl Abort, got: Result<bool, AllocError>, row: &str) {
    assert_eq!(rt; got, Ok(true), "{row}");
}
