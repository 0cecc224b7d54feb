//! Tests of pseudorandom functions, of their keys, and of those of a keyset.
#![tactic(auto)]

mod asked;
mod keys;
mod registering;
mod sets;
mod sizes;
mod test_keys;
mod vectors;

use std::alloc::Global;
use test_util::Verdict;

/// The answers of all rows.
pub fn rows(alloc: Global) -> Verdict {
    let mut verdict = Verdict::new();
    keys::hmac_rows(alloc, &mut verdict);
    keys::rows(alloc, &mut verdict);
    registering::rows(alloc, &mut verdict);
    sets::rows(alloc, &mut verdict);
    sizes::rows(alloc, &mut verdict);
    vectors::rows(alloc, &mut verdict);
    verdict
}
