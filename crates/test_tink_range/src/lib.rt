//! Ranges of streams of both kinds of keys, against slices of the text; damaged and failing objects; and what is measured
//! of large texts, against numbers and digests that Python made.
#![tactic(auto)]

mod callers;
mod large_callers;
mod large_tests;
mod range_tests;
mod support;

use std::alloc::Global;
use test_util::Verdict;

/// What all rows tell.
pub fn rows(alloc: Global) -> Verdict {
    let mut verdict = Verdict::new();
    large_tests::texts_are_measured(alloc, &mut verdict);
    range_tests::a_range_is_a_slice_or_refused(alloc, &mut verdict);
    verdict
}
