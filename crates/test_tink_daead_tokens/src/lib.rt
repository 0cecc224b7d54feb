//! Tests of deterministic AEADs and of signed tokens, by their public calls.
#![tactic(auto)]

mod daead;
mod tokens;

use std::alloc::Global;
use test_util::Verdict;

/// The answers of all rows.
pub fn rows(alloc: Global) -> Verdict {
    let mut verdict = Verdict::new();
    daead::keyset_tests::keys_and_keysets_are_as_the_rows_say(alloc, &mut verdict);
    daead::siv_tests::aes_siv_is_as_the_rows_say(alloc, &mut verdict);
    tokens::rows::tokens_are_as_the_rows_say(alloc, &mut verdict);
    verdict
}
