//! Tests of keysets in use, and of files of keys.
#![tactic(auto)]

mod key_file_tests;
mod keyset_tests;
mod manager_tests;

use std::alloc::Global;
use test_util::Verdict;

/// What all rows tell.
pub fn rows(alloc: Global) -> Verdict {
    let mut verdict = Verdict::new();
    keyset_tests::keysets_are_held_or_refused(alloc, &mut verdict);
    keyset_tests::a_handle_tells_no_key_material(alloc, &mut verdict);
    keyset_tests::a_manager_edits_its_keys(alloc, &mut verdict);
    keyset_tests::laws_can_be_called();
    keyset_tests::random_bytes_and_memory(alloc, &mut verdict);
    key_file_tests::files_of_keys_are_listed_and_edited(alloc, &mut verdict);
    key_file_tests::large_files_of_keys_are_refused(alloc, &mut verdict);
    manager_tests::a_manager_adds_keys(alloc, &mut verdict);
    manager_tests::a_key_is_added_or_the_keyset_is_left(alloc, &mut verdict);
    manager_tests::public_parts_are_of_private_keys(alloc, &mut verdict);
    verdict
}
