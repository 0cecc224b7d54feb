//! Tests of envelopes, and of the managers and templates of AEAD keys.
#![tactic(auto)]

mod envelope_tests;
mod key_manager_tests;
mod template_tests;

use std::alloc::Global;
use test_util::Verdict;

/// The answers of all rows.
pub fn rows(alloc: Global) -> Verdict {
    let mut verdict = Verdict::new();
    envelope_tests::envelopes_seal_open_and_refuse(alloc, &mut verdict);
    key_manager_tests::keys_and_formats_by_their_messages(alloc, &mut verdict);
    template_tests::templates_and_managers_are_registered_once(alloc, &mut verdict);
    verdict
}
