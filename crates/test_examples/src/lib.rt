//! Rows over the examples: tokens, backups, and a store.
#![tactic(auto)]

mod backups;
mod stores;
mod tokens;

use std::alloc::Global;
use test_util::Verdict;

/// The answers of all rows.
pub fn rows(alloc: Global) -> Verdict {
    let mut verdict = Verdict::new();
    tokens::tokens_outlive_a_rotation(alloc, &mut verdict);
    backups::backups_are_restored(alloc, &mut verdict);
    stores::values_are_bound_to_their_rows(alloc, &mut verdict);
    verdict
}
