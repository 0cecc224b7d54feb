//! Which keys of streams build and of which formats keys are made, and the templates and what `init` registers, against
//! bytes that were spelled by hand.
#![tactic(auto)]

mod asked;
mod manager_tests;
mod template_tests;

use std::alloc::Global;
use test_util::Verdict;

/// What all rows tell.
pub fn rows(alloc: Global) -> Verdict {
    let mut verdict = Verdict::new();
    manager_tests::rows(alloc, &mut verdict);
    template_tests::rows(alloc, &mut verdict);
    verdict
}
