//! Tests of runs, tokens, ranges and files of keys, over memory, and callers of the calls above a keyset.
#![tactic(auto)]

mod callers;
mod edited;
mod made_tests;
mod master_caller;
mod places;
mod saving_tests;
mod support;
mod task_tests;

use std::alloc::Global;
use test_util::Verdict;

/// The answers of all rows.
pub fn rows(alloc: Global) -> Verdict {
    let mut verdict = Verdict::new();
    callers::callers_do_what_they_say(alloc, &mut verdict);
    edited::edited_keysets_run(alloc, &mut verdict);
    task_tests::what_is_made_stands_whole_or_not_at_all(alloc, &mut verdict);
    task_tests::a_text_goes_into_a_sink_as_it_comes(alloc, &mut verdict);
    master_caller::the_caller_does_what_it_says(alloc, &mut verdict);
    made_tests::files_of_keys_are_made_to_the_byte(alloc, &mut verdict);
    saving_tests::files_of_keys_are_saved_whole_or_not_at_all(alloc, &mut verdict);
    saving_tests::files_under_masters_are_saved_whole_or_not_at_all(alloc, &mut verdict);
    saving_tests::a_master_has_aeads_alone(alloc, &mut verdict);
    verdict
}
