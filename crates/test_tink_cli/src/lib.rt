//! Tests of the commands over a system in memory, by the words of their lines.
#![tactic(auto)]

mod callers;
mod known;
mod steps;
mod tables;

use std::alloc::Global;
use test_util::Verdict;

/// The answers of all rows.
pub fn rows(alloc: Global) -> Verdict {
    let mut verdict = Verdict::new();
    callers::callers_do_what_they_say(alloc, &mut verdict);
    tables::files_of_keys(alloc, &mut verdict);
    tables::streams(alloc, &mut verdict);
    tables::others(alloc, &mut verdict);
    verdict
}
