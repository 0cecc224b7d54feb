//! Tests of what builds the primitives of a keyset, of what wrapped primitives share, and of key managers by the types of
//! their keys.
#![tactic(auto)]

mod building_tests;
mod factory_tests;
mod key_type_tests;
mod test_keys;

use std::alloc::Global;
use test_util::Verdict;

/// What all rows tell.
pub fn rows(alloc: Global) -> Verdict {
    let mut verdict = Verdict::new();
    factory_tests::entries_are_asked_in_order(alloc, &mut verdict);
    factory_tests::a_handle_gives_a_set_of_one_sort(alloc, &mut verdict);
    building_tests::keysets_give_sets(alloc, &mut verdict);
    key_type_tests::a_manager_makes_and_builds_keys(alloc, &mut verdict);
    verdict
}
