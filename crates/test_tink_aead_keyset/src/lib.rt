//! Tests of keysets of AEADs, and of keysets under an AEAD's key.
#![tactic(auto)]

mod keyset_tests;
mod master_tests;

use std::alloc::Global;
use test_util::Verdict;

/// The answers of all rows.
pub fn rows(alloc: Global) -> Verdict {
    let mut verdict = Verdict::new();
    keyset_tests::texts_by_new_keys(alloc, &mut verdict);
    keyset_tests::keysets_are_as_the_rows_say(alloc, &mut verdict);
    master_tests::a_keyset_is_kept_in_memory_and_in_a_text(alloc, &mut verdict);
    verdict
}
