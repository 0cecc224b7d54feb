//! Tests of keysets under a master key, and as they are, through what reads and writes them, and of the module paths of
//! Tink.
#![tactic(auto)]

mod binary_tests;
mod core_tests;
mod encrypted_tests;
mod ends;
mod fault_tests;
mod json_tests;
mod plain_tests;
mod stored;

use std::alloc::Global;
use test_util::Verdict;

/// What all rows tell.
pub fn rows(alloc: Global) -> Verdict {
    let mut verdict = Verdict::new();
    binary_tests::a_source_gives_its_keyset_and_no_more_than_67108864_bytes(alloc, &mut verdict);
    fault_tests::faults_come_through(alloc, &mut verdict);
    core_tests::calls_answer_as_the_rows_say(alloc, &mut verdict);
    encrypted_tests::keysets_go_through_memory(alloc, &mut verdict);
    stored::keysets_are_read_in_pieces_or_refused(alloc, &mut verdict);
    stored::keysets_are_written_in_pieces_or_refused(alloc, &mut verdict);
    verdict
}
