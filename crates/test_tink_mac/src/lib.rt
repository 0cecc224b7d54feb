//! Tests of MACs, of their keys, and of those of a keyset.
#![tactic(auto)]

mod asked;
mod keys;
mod registering;
mod sizes;
mod vectors;
mod wrapped;

use std::alloc::Global;
use test_util::Verdict;

/// The answers of all rows.
pub fn rows(alloc: Global) -> Verdict {
    let mut verdict = Verdict::new();
    keys::rows(alloc, &mut verdict);
    registering::rows(alloc, &mut verdict);
    sizes::rows(alloc, &mut verdict);
    vectors::rows(alloc, &mut verdict);
    wrapped::rows(alloc, &mut verdict);
    verdict
}
