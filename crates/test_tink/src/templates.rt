//! The registry of all managers and templates.

use std::alloc::Global;
use test_util::{Verdict, succeeds};
use tink::keyset::Handle;
use tink::{Draws, Managers, Registry, TinkError};
use tink_proto::{KeyTemplate, Text};

// Whether a template makes a keyset whose one key builds.
fn builds(
    alloc: Global,
    registry: &Registry<Managers>,
    template: &KeyTemplate,
    draws: &mut Draws,
) -> Result<bool, TinkError> {
    match Handle::new(alloc, template, registry, draws) {
        Ok(keyset) => succeeds(keyset.primitives(alloc, registry)),
        Err(e) => Err(e),
    }
}

// Takes whether each of the named templates builds.
fn build(
    alloc: Global,
    verdict: &mut Verdict,
    registry: &Registry<Managers>,
    draws: &mut Draws,
    names: &[Text],
) {
    verdict.expect(Ok(names.len() == 26), Ok(true), "26 templates");
    for name in names {
        let builds = match registry.get_template_generator(name.as_str()) {
            Some(template) => builds(alloc, registry, template, draws),
            None => Ok(false),
        };
        verdict.expect(builds, Ok(true), "each template makes a key that builds");
    }
}

/// 26 templates have a name, and each of them makes a keyset that builds.
pub fn templates_build(
    alloc: Global,
    verdict: &mut Verdict,
    registry: &Registry<Managers>,
    draws: &mut Draws,
) {
    match registry.template_names(alloc) {
        Ok(names) => build(alloc, verdict, registry, draws, names.as_slice()),
        Err(e) => verdict.expect(Err(e), Ok(true), "the names of the templates"),
    }
}
