//! Segments of both kinds against those that Python made, and the limits of their keys, nonces and tags; writers and
//! readers of streams over memory that fails and moves few bytes, against streams that Python made, and callers whose
//! contracts follow from theirs.
#![tactic(auto)]

mod caller_tests;
mod kind_tests;
mod nonce_tests;
mod reader_tests;
mod segment_callers;
mod segment_tests;
mod writer_tests;

use std::alloc::Global;
use test_util::Verdict;

/// What all rows tell.
pub fn rows(alloc: Global) -> Verdict {
    let mut verdict = Verdict::new();
    segment_tests::segments_are_made_and_opened_by_gcm(alloc, &mut verdict);
    segment_tests::segments_are_made_and_opened_in_counter_mode(alloc, &mut verdict);
    segment_tests::segments_are_made_in_memory_and_in_place(alloc, &mut verdict);
    nonce_tests::limits_are_those_of_the_rows(alloc, &mut verdict);
    writer_tests::writers_answer_as_the_rows_say(alloc, &mut verdict);
    reader_tests::readers_give_the_text(alloc, &mut verdict);
    reader_tests::readers_refuse_what_is_changed(alloc, &mut verdict);
    reader_tests::readers_refuse_what_is_cut_or_small(alloc, &mut verdict);
    kind_tests::writers_and_readers_take_either_kind(alloc, &mut verdict);
    verdict
}
