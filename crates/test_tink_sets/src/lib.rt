//! Tests of sets.
#![tactic(auto)]

mod set_tests;

use std::alloc::Global;
use test_util::Verdict;

/// What all rows tell.
pub fn rows(alloc: Global) -> Verdict {
    let mut verdict = Verdict::new();
    set_tests::rows(alloc, &mut verdict);
    verdict
}
