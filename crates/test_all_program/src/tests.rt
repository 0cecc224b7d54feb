//! One test a crate of rows. The rows are in libraries, so that one test program is linked with all that they reach.
//!
//! Of all programs of tests this one is linked with most.

use std::process::Abort;
use test_util::Verdict;

// Stops where a row failed, and shows it: its name, what it answered and what is wanted. The rows behind it are tried
// all the same.
fn hold(rt: &impl Abort, verdict: Verdict) {
    assert_eq!(rt; verdict.failure, None);
}

/// The five tasks of docs/USING.md over one registry of all managers, the key of each template, and keysets that a
/// manager edited, to the byte.
///
/// `rt try --test` answers these rows and those of the next test without any proof.
#[test]
fn tasks(rt: HostRuntime) {
    hold(&rt, test_tink::rows(rt.alloc()));
}

/// Seals, opens, moves, tokens and ranges over memory: what each leaves in a place. Files of keys that are made,
/// rotated, wrapped and unwrapped, to the byte, and the state after a refusal.
#[test]
fn runs_and_files(rt: HostRuntime) {
    hold(&rt, test_tink_cli_files::rows(rt.alloc()));
}

/// The commands of the program by their words: what each is to write, its status, and the state after a refusal.
///
/// Its rows are texts. What fails is the first row that does not hold, with the way and the numbers in which it was
/// run. Step by step, under `rt try --test`, they came to no end in five minutes.
#[test]
fn the_program(rt: HostRuntime) {
    assert_eq!(rt; test_tink_program::rows(rt.alloc()), None);
}
