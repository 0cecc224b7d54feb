//! Each task over one registry of all managers.

use crate::edited::keysets_are_edited;
use crate::tasks::{Task, draws, is_done};
use crate::templates::templates_build;
use std::alloc::Global;
use test_util::Verdict;
use tink::{Draws, Managers, Registry, registry};

const TASKS: &[(&str, Task)] = &[
    ("a value is encrypted", Task::Encrypt),
    ("old data opens after a rotation", Task::Rotate),
    ("a MAC is of its message", Task::Mac),
    ("a keyset in JSON is encrypted", Task::Json),
    ("a stream is read in pieces", Task::Stream),
];

fn do_all(verdict: &mut Verdict, alloc: Global, registry: &Registry<Managers>, draws: &mut Draws) {
    for (row, task) in TASKS {
        verdict.expect(is_done(alloc, registry, draws, *task), Ok(true), row);
    }
    templates_build(alloc, verdict, registry, draws);
    keysets_are_edited(alloc, verdict, registry);
}

// The same by draws that are made.
fn draw_all(verdict: &mut Verdict, alloc: Global, registry: &Registry<Managers>) {
    match draws(alloc) {
        Ok(mut draws) => do_all(verdict, alloc, registry, &mut draws),
        Err(e) => verdict.expect(Err(e), Ok(true), "the draws"),
    }
}

/// The answers of all rows.
pub fn rows(alloc: Global) -> Verdict {
    let mut verdict = Verdict::new();
    match registry(alloc) {
        Ok(registry) => draw_all(&mut verdict, alloc, &registry),
        Err(e) => verdict.expect(Err(e), Ok(true), "the registry"),
    }
    verdict
}
