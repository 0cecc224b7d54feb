//! Which keys of streams are made, what they derive, and streams under one key, against bytes that Python made; and
//! that no damage of a small stream passes, of either kind: any bit exchanged, any cut, any segment repeated, moved
//! or dropped.
#![tactic(auto)]

mod callers;
mod damage_tests;
mod header_tests;
mod key_tests;
mod stream_tests;
mod streams;

use std::alloc::Global;
use test_util::Verdict;

/// What all rows tell.
pub fn rows(alloc: Global) -> Verdict {
    let mut verdict = Verdict::new();
    key_tests::keys_are_made_and_derive(alloc, &mut verdict);
    header_tests::a_header_gives_its_streams_cipher(alloc, &mut verdict);
    stream_tests::streams_are_as_the_rows_say(alloc, &mut verdict);
    damage_tests::no_damage_passes(alloc, &mut verdict);
    verdict
}
