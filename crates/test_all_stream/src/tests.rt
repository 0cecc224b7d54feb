//! One test a crate of rows. The rows are in libraries, so that one test program is linked with all that they reach.

use std::process::Abort;
use test_util::Verdict;

// Stops where a row failed, and shows it.
fn hold(rt: &impl Abort, verdict: Verdict) {
    assert_eq!(rt; verdict.failure, None);
}

#[test]
fn segments_writers_and_readers(rt: HostRuntime) {
    hold(&rt, test_tink_streaming_io::rows(rt.alloc()));
}

#[test]
fn keys_of_streams(rt: HostRuntime) {
    hold(&rt, test_tink_streaming_keys::rows(rt.alloc()));
}

#[test]
fn types_of_keys_of_streams(rt: HostRuntime) {
    hold(&rt, test_tink_streaming_managers::rows(rt.alloc()));
}

#[test]
fn streaming_aeads(rt: HostRuntime) {
    hold(&rt, test_tink_streaming_aead::rows(rt.alloc()));
}

#[test]
fn ranges_and_large_texts(rt: HostRuntime) {
    hold(&rt, test_tink_range::rows(rt.alloc()));
}
