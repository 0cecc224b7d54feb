//! Tests of primitives and of the registry.
#![tactic(auto)]

mod plain;
mod primitive_tests;
mod registry_tests;
mod stream_tests;

use std::alloc::Global;
use test_util::Verdict;

/// What all rows tell.
pub fn rows(alloc: Global) -> Verdict {
    let mut verdict = Verdict::new();
    primitive_tests::rows(alloc, &mut verdict);
    registry_tests::rows(alloc, &mut verdict);
    stream_tests::rows(alloc, &mut verdict);
    verdict
}
