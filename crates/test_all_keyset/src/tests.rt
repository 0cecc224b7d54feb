//! One test a crate of rows. The rows are in libraries, so that one test program is linked with what they reach.

use std::process::Abort;
use test_util::Verdict;

// Stops where a row failed, and shows it.
fn hold(rt: &impl Abort, verdict: Verdict) {
    assert_eq!(rt; verdict.failure, None);
}

#[test]
fn registries(rt: HostRuntime) {
    hold(&rt, test_tink_registry::rows(rt.alloc()));
}

#[test]
fn sets(rt: HostRuntime) {
    hold(&rt, test_tink_sets::rows(rt.alloc()));
}

#[test]
fn keysets(rt: HostRuntime) {
    hold(&rt, test_tink_keysets::rows(rt.alloc()));
}

#[test]
fn keysets_through_ends(rt: HostRuntime) {
    hold(&rt, test_tink_keyset_io::rows(rt.alloc()));
}

#[test]
fn primitives_of_keysets(rt: HostRuntime) {
    hold(&rt, test_tink_factory::rows(rt.alloc()));
}
