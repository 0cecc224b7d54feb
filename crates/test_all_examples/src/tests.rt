//! One test a crate of rows. The rows are in libraries, so that one test program is linked with all that they reach.

use std::process::Abort;
use test_util::Verdict;

// Stops where a row failed, and shows it: its name, what it answered and what is wanted. The rows behind it are tried
// all the same.
fn hold(rt: &impl Abort, verdict: Verdict) {
    assert_eq!(rt; verdict.failure, None);
}

/// The examples: tokens and a store over a rotation, and backups that are restored whole and in part.
#[test]
fn examples(rt: HostRuntime) {
    hold(&rt, test_examples::rows(rt.alloc()));
}

/// The commands over files by their words, over a system in memory: the status of each, and the bytes of files and of
/// standard output after it.
#[test]
fn commands_over_memory(rt: HostRuntime) {
    hold(&rt, test_tink_cli::rows(rt.alloc()));
}
