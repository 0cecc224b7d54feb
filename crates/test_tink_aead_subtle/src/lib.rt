//! Tests of the AEADs by AES under one key.
#![tactic(auto)]

mod asking;
mod composed_tests;
mod subtle_tests;

use std::alloc::Global;
use test_util::Verdict;

/// The answers of all rows.
pub fn rows(alloc: Global) -> Verdict {
    let mut verdict = Verdict::new();
    composed_tests::encrypts_and_authenticates(alloc, &mut verdict);
    subtle_tests::ciphertexts_are_those_of_the_specifications(alloc, &mut verdict);
    subtle_tests::sizes_are_taken_or_refused(alloc, &mut verdict);
    verdict
}
