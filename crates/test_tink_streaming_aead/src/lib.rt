//! Streams under the keys of a keyset and of a new handle, against a stream that Python made; and what a writer leaves that
//! is dropped.
#![tactic(auto)]

mod asked;
mod callers;
mod keysets;
mod one_of;
mod streams;
mod tests;

use std::alloc::Global;
use test_util::Verdict;

/// What all rows tell.
pub fn rows(alloc: Global) -> Verdict {
    let mut verdict = Verdict::new();
    tests::rows(alloc, &mut verdict);
    verdict
}
