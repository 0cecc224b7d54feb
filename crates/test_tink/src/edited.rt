//! Keysets that a manager edited, to the byte. `test_tink_cli_files` seals and opens under them.

use std::alloc::Global;
use test_util::{
    Answer, Ask, CTR_4096, CTR_4096_AND_DESTROYED, CTR_4096_ROTATED, Verdict, bytes_of, draws_of,
    gives, handle, succeeds,
};
use tink::keyset::Manager;
use tink::streaming_aead::aes128_ctr_hmac_sha256_segment_4kb_key_template as template;
use tink::{Kind, Managers, Registry, TinkError};
use tink_proto::KeyTemplate;

// Sixteen nines for a key, and an id of 0.
const FEW: &[u8] = b"\
    \x09\x09\x09\x09\x09\x09\x09\x09\x09\x09\x09\x09\x09\x09\x09\x09\x00\x00\x00\x00";

// The same with an id of 0, one that is in use, and a fresh one.
const ENOUGH: &[u8] = b"\
    \x09\x09\x09\x09\x09\x09\x09\x09\x09\x09\x09\x09\x09\x09\x09\x09\x00\x00\x00\x00\
    \x01\x02\x03\x04\x0a\x0b\x0c\x0d";

// A manager, and of what it adds keys.
#[derive(Drop)]
struct Edits<'a> {
    manager: Manager,
    registry: &'a Registry<Managers>,
    template: KeyTemplate,
}

enum Step {
    // By these draws, as the primary key or not. The new id is the fresh one.
    Add(&'static [u8], bool),
    Count(usize),
    Destroy(u32),
    Delete(u32),
    // What the manager's keyset has as its encoding.
    Encoded(&'static [u8]),
}

const DESTROYED: &[(&str, Step, Answer)] = &[
    (
        "too few draws",
        Step::Add(FEW, false),
        Err(Kind::RandomFault),
    ),
    ("no key is added", Step::Count(1), Ok(true)),
    ("a key", Step::Add(ENOUGH, false), Ok(true)),
    ("it is added", Step::Count(2), Ok(true)),
    (
        "the primary key is not destroyed",
        Step::Destroy(0x01020304),
        Err(Kind::IsPrimary),
    ),
    (
        "no key of another id is deleted",
        Step::Delete(5),
        Err(Kind::KeyNotFound),
    ),
    ("it is destroyed", Step::Destroy(0x0a0b0c0d), Ok(true)),
    (
        "a key is added and destroyed",
        Step::Encoded(CTR_4096_AND_DESTROYED),
        Ok(true),
    ),
];

const ROTATED: &[(&str, Step, Answer)] = &[
    (
        "too few draws for a primary key",
        Step::Add(FEW, true),
        Err(Kind::RandomFault),
    ),
    ("no primary key is added", Step::Count(1), Ok(true)),
    ("a primary key", Step::Add(ENOUGH, true), Ok(true)),
    ("it is added as the primary one", Step::Count(2), Ok(true)),
    (
        "a primary key is added",
        Step::Encoded(CTR_4096_ROTATED),
        Ok(true),
    ),
];

impl Ask<Edits<'_>> for Step {
    fn answer(&self, alloc: Global, of: &mut Edits<'_>) -> Result<bool, TinkError> {
        match *self {
            Step::Add(draws, as_primary) => is_added(alloc, of, draws, as_primary),
            Step::Count(count) => Ok(of.manager.key_count() == count),
            Step::Destroy(id) => succeeds(of.manager.destroy(id)),
            Step::Delete(id) => succeeds(of.manager.delete(id)),
            Step::Encoded(want) => is_encoded(alloc, &of.manager, want),
        }
    }
}

// Whether a new key has the fresh id, or how it is refused.
fn is_added(
    alloc: Global,
    of: &mut Edits<'_>,
    draws: &[u8],
    as_primary: bool,
) -> Result<bool, TinkError> {
    let mut draws = draws_of(alloc, draws)?;
    let (manager, template) = (&mut of.manager, &of.template);
    match manager.add(alloc, template, of.registry, &mut draws, as_primary) {
        Ok(id) => Ok(id == 0x0a0b0c0d),
        Err(e) => Err(e),
    }
}

// Whether the manager's keyset has this encoding.
fn is_encoded(alloc: Global, manager: &Manager, want: &[u8]) -> Result<bool, TinkError> {
    match manager.handle(alloc) {
        Ok(keyset) => gives(bytes_of(alloc, &keyset), want),
        Err(e) => Err(e),
    }
}

// A manager of a keyset of one key.
fn new_edits(alloc: Global, registry: &Registry<Managers>) -> Result<Edits<'_>, TinkError> {
    let template = template(alloc)?;
    match handle(alloc, CTR_4096) {
        Ok(keyset) => Ok(Edits {
            manager: Manager::new_from_handle(keyset),
            registry,
            template,
        }),
        Err(e) => Err(e),
    }
}

/// A manager adds a primary key, or another one that it destroys, and the keyset is as it is to be.
pub fn keysets_are_edited(alloc: Global, verdict: &mut Verdict, registry: &Registry<Managers>) {
    verdict.walk_made(alloc, new_edits(alloc, registry), "a manager", DESTROYED);
    verdict.walk_made(alloc, new_edits(alloc, registry), "a manager", ROTATED);
}
