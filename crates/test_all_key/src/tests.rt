//! One test a crate of rows. The rows are in libraries, so that one test program is linked with all primitives.

use std::process::Abort;
use test_util::Verdict;

// Stops where a row failed, and shows it.
fn hold(rt: &impl Abort, verdict: Verdict) {
    assert_eq!(rt; verdict.failure, None);
}

#[test]
fn prfs(rt: HostRuntime) {
    hold(&rt, test_tink_prf::rows(rt.alloc()));
}

#[test]
fn macs(rt: HostRuntime) {
    hold(&rt, test_tink_mac::rows(rt.alloc()));
}

#[test]
fn aeads_under_one_key(rt: HostRuntime) {
    hold(&rt, test_tink_aead_subtle::rows(rt.alloc()));
}

#[test]
fn aeads(rt: HostRuntime) {
    hold(&rt, test_tink_aead::rows(rt.alloc()));
}

#[test]
fn keysets_of_aeads(rt: HostRuntime) {
    hold(&rt, test_tink_aead_keyset::rows(rt.alloc()));
}

#[test]
fn deterministic_aeads_and_tokens(rt: HostRuntime) {
    hold(&rt, test_tink_daead_tokens::rows(rt.alloc()));
}
