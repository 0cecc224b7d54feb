//! Adding keys, and public parts, over a registry of test keys.

use crate::keyset_tests::manager_of_handle;
use std::alloc::Global;
use test_util::{
    Answer, TestManager, URL, Verdict, bare, handle_of, key, registry_of, succeeds, template,
};
use tink_io::{Draws, Kind, TinkError};
use tink_keysets::keyset::insecure::keyset_material;
use tink_keysets::keyset::{Handle, Manager, law_managers_give_held};
use tink_proto::{Key, Keyset, KeysetInfo};
use tink_registry::Registry;

// A registry without managers, or with one of symmetric or of private keys.
enum Managed {
    Nothing,
    Symmetric,
    Private,
}

fn registry_with(alloc: Global, managed: &Managed) -> Result<Registry<TestManager>, TinkError> {
    match managed {
        Managed::Nothing => Ok(Registry::new(alloc)),
        Managed::Symmetric => registry_of(alloc, TestManager::new(URL)),
        Managed::Private => {
            let manager = TestManager {
                url: URL,
                private: true,
                any_length: false,
            };
            registry_of(alloc, manager)
        }
    }
}

// Sixteen bytes for a key, and then these.
fn draws_with(alloc: Global, ids: &[u8]) -> Result<Draws, TinkError> {
    let mut bytes = vec![in alloc; 9; 16]?;
    bytes.extend_from_slice(ids)?;
    Ok(Draws::new(bytes))
}

// The handle of one key.
fn handle_of_one(alloc: Global, primary: u32, only: Key) -> Result<Handle, TinkError> {
    handle_of(primary, vec![in alloc; only]?)
}

// The manager of one key of id 01020304, which is the primary one.
fn manager_of_one(alloc: Global) -> Result<Manager, TinkError> {
    let only = key(alloc, 1, 1, 0x01020304)?;
    manager_of_handle(handle_of_one(alloc, 0x01020304, only))
}

// The manager of a new handle, whose key has the id 01020304.
fn manager_of_new(alloc: Global, registry: &Registry<TestManager>) -> Result<Manager, TinkError> {
    law_managers_give_held(registry);
    let mut draws = draws_with(alloc, b"\x01\x02\x03\x04")?;
    match template(alloc, URL, &[], 1) {
        Ok(kt) => manager_of_handle(Handle::new(alloc, &kt, registry, &mut draws)),
        Err(e) => Err(e),
    }
}

// ---- adding keys

// What is asked of a manager.
enum Step {
    // A RAW key is added, which gets this id where these draws are left behind those of its bytes. All draws are taken.
    Add(&'static [u8], u32),
    // The same of a new primary TINK key.
    Rotate(&'static [u8], u32),
    // A new primary key by a template of the URL, the format and the prefix type.
    RotateBy(&'static str, &'static [u8], i32),
    // The primary id and the id of the last key.
    HasIds(u32, u32),
    // There are so many keys.
    Count(usize),
}

// What is told of the manager's keys.
fn info_of(alloc: Global, manager: &Manager) -> Result<KeysetInfo, TinkError> {
    let h = manager.handle(alloc)?;
    h.keyset_info(alloc)
}

fn has_ids(alloc: Global, manager: &Manager, primary: u32, last: u32) -> Result<bool, TinkError> {
    let info = info_of(alloc, manager)?;
    Ok(match info.key_info.as_slice().last() {
        Some(key) => info.primary_key_id == primary && key.key_id == last,
        None => false,
    })
}

// How a key is added.
enum How {
    Key,
    Primary,
    Rotation,
}

// The id of a new key by a template of the URL, the format and the prefix type.
fn add_key(
    alloc: Global,
    manager: &mut Manager,
    registry: &Registry<TestManager>,
    draws: &mut Draws,
    how: &How,
    by: (&str, &[u8], i32),
) -> Result<u32, TinkError> {
    match template(alloc, by.0, by.1, by.2) {
        Ok(kt) => match how {
            How::Key => manager.add(alloc, &kt, registry, draws, false),
            How::Primary => manager.add(alloc, &kt, registry, draws, true),
            How::Rotation => manager.rotate(alloc, &kt, registry, draws),
        },
        Err(e) => Err(e),
    }
}

// Whether a key got the id, or its refusal, and there are no draws left.
fn is_id(id: Result<u32, TinkError>, want: u32, left: usize) -> Result<bool, TinkError> {
    match id {
        Ok(id) => Ok(id == want && left == 0),
        Err(e) if left == 0 => Err(e),
        Err(_) => Ok(false),
    }
}

// Whether a new key gets the id, and takes all draws.
fn gets_id(
    alloc: Global,
    manager: &mut Manager,
    registry: &Registry<TestManager>,
    how: &How,
    ids: &[u8],
    want: u32,
) -> Result<bool, TinkError> {
    let prefix = if matches!(how, How::Rotation) { 1 } else { 3 };
    match draws_with(alloc, ids) {
        Ok(mut draws) => {
            let id = add_key(
                alloc,
                manager,
                registry,
                &mut draws,
                how,
                (URL, &[], prefix),
            );
            is_id(id, want, draws.left())
        }
        Err(e) => Err(e),
    }
}

fn does(
    alloc: Global,
    manager: &mut Manager,
    registry: &Registry<TestManager>,
    step: &Step,
    draws: &mut Draws,
) -> Result<bool, TinkError> {
    match step {
        Step::Add(ids, want) => gets_id(alloc, manager, registry, &How::Key, ids, *want),
        Step::Rotate(ids, want) => gets_id(alloc, manager, registry, &How::Rotation, ids, *want),
        Step::RotateBy(url, format, prefix) => {
            let by = (*url, *format, *prefix);
            succeeds(add_key(alloc, manager, registry, draws, &How::Rotation, by))
        }
        Step::HasIds(primary, last) => has_ids(alloc, manager, *primary, *last),
        Step::Count(n) => Ok(manager.key_count() == *n),
    }
}

type Row = (&'static str, Step, Answer);

const NO_DRAWS: Answer = Err(Kind::RandomFault);

// The steps of the manager of one key, with draws for a key and 512 zeros.
const OF_ONE: &[Row] = &[
    // A refused adding names its cause.
    (
        "an unknown URL",
        Step::RotateBy("x", b"\x07", 0),
        Err(Kind::UnsupportedKeyType),
    ),
    (
        "an unknown prefix type",
        Step::RotateBy(URL, b"\x07", 0),
        Err(Kind::UnknownPrefix),
    ),
    (
        "a format that is none",
        Step::RotateBy(URL, b"\x07", 4),
        Err(Kind::InvalidFormat),
    ),
    (
        "ids that are all 0",
        Step::RotateBy(URL, b"", 4),
        Err(Kind::NoFreshId),
    ),
    ("no more draws", Step::RotateBy(URL, b"", 4), NO_DRAWS),
    ("the one key after the refusals", Step::Count(1), Ok(true)),
    // Too few draws for an id leave the keys.
    (
        "the draws of an id that is in use",
        Step::Add(b"\x01\x02\x03\x04", 0),
        NO_DRAWS,
    ),
    ("the one key after too few draws", Step::Count(1), Ok(true)),
    // An id that is 0 or in use is passed over.
    (
        "ids of which the third is fresh",
        Step::Add(
            b"\x00\x00\x00\x00\x01\x02\x03\x04\x0a\x0b\x0c\x0d",
            0x0a0b0c0d,
        ),
        Ok(true),
    ),
    (
        "the ids with it",
        Step::HasIds(0x01020304, 0x0a0b0c0d),
        Ok(true),
    ),
];

// Those of the manager of a new handle.
const OF_NEW: &[Row] = &[
    ("a new handle has one key", Step::Count(1), Ok(true)),
    (
        "which is the primary one",
        Step::HasIds(0x01020304, 0x01020304),
        Ok(true),
    ),
    (
        "a new id",
        Step::Rotate(b"\x05\x06\x07\x08", 0x05060708),
        Ok(true),
    ),
    (
        "the ids after it",
        Step::HasIds(0x05060708, 0x05060708),
        Ok(true),
    ),
];

fn walk(
    verdict: &mut Verdict,
    alloc: Global,
    registry: &Registry<TestManager>,
    manager: &mut Manager,
    rows: &[Row],
) -> Result<(), TinkError> {
    let mut draws = draws_with(alloc, &[0; 512])?;
    for (row, step, want) in rows {
        let got = does(alloc, manager, registry, step, &mut draws);
        verdict.expect(got, *want, row);
    }
    Ok(())
}

fn walk_with(
    verdict: &mut Verdict,
    alloc: Global,
    registry: &Registry<TestManager>,
    manager: Result<Manager, TinkError>,
    rows: &[Row],
) -> Result<(), TinkError> {
    match manager {
        Ok(mut manager) => walk(verdict, alloc, registry, &mut manager, rows),
        Err(e) => Err(e),
    }
}

fn walk_all(
    verdict: &mut Verdict,
    alloc: Global,
    registry: &Registry<TestManager>,
) -> Result<(), TinkError> {
    walk_with(verdict, alloc, registry, manager_of_one(alloc), OF_ONE)?;
    walk_with(
        verdict,
        alloc,
        registry,
        manager_of_new(alloc, registry),
        OF_NEW,
    )
}

// Whether a RAW key of the id is added.
fn is_added(
    alloc: Global,
    registry: &Registry<TestManager>,
    manager: &mut Manager,
    id: u8,
    how: &How,
) -> bool {
    match draws_with(alloc, &[0, 0, 0, id]) {
        Ok(mut draws) => add_key(alloc, manager, registry, &mut draws, how, (URL, &[], 3)).is_ok(),
        Err(_) => false,
    }
}

const FOUR: &[(u8, How)] = &[
    (5, How::Key),
    (6, How::Primary),
    (7, How::Key),
    (8, How::Primary),
];

// Whether each call leaves the keys and the primary id or adds a key, and nearly all add one.
fn are_added_or_left(
    alloc: Global,
    registry: &Registry<TestManager>,
    manager: &mut Manager,
) -> Result<bool, TinkError> {
    let mut primary = 0x01020304;
    let mut last = 0x01020304;
    let mut count: usize = 1;
    let mut holds = true;
    for (id, how) in FOUR {
        if is_added(alloc, registry, manager, *id, how) {
            count = count.wrapping_add(1);
            last = *id as u32;
            primary = if matches!(how, How::Primary) {
                last
            } else {
                primary
            };
        }
        holds = holds && manager.key_count() == count && has_ids(alloc, manager, primary, last)?;
    }
    Ok(holds && 4 <= count)
}

pub fn a_manager_adds_keys(alloc: Global, verdict: &mut Verdict) {
    let walked = match registry_with(alloc, &Managed::Symmetric) {
        Ok(registry) => walk_all(verdict, alloc, &registry),
        Err(e) => Err(e),
    };
    verdict.expect(succeeds(walked), Ok(true), "a registry and managers");
}

// What is so of a manager of one key and a registry of symmetric keys.
fn four_are_added_or_left(alloc: Global) -> Result<bool, TinkError> {
    match (
        registry_with(alloc, &Managed::Symmetric),
        manager_of_one(alloc),
    ) {
        (Ok(registry), Ok(mut manager)) => are_added_or_left(alloc, &registry, &mut manager),
        _ => Err(TinkError::new(Kind::OutOfMemory)),
    }
}

/// A call that is refused for `OutOfMemory` leaves the keys and the primary id, and one that isn't adds a key.
pub fn a_key_is_added_or_the_keyset_is_left(alloc: Global, verdict: &mut Verdict) {
    let got = four_are_added_or_left(alloc);
    verdict.expect(got, Ok(true), "the keys and the ids");
}

// ---- public parts

// Whether a keyset has the primary id 7 and no secrets.
fn is_no_secret(material: Result<Keyset, TinkError>) -> Result<bool, TinkError> {
    match material {
        Ok(material) => {
            Ok(material.primary_key_id == 7 && Handle::new_with_no_secrets(material).is_ok())
        }
        Err(e) => Err(e),
    }
}

// Whether the public part of a handle is one.
fn public_is_no_secret(
    alloc: Global,
    registry: &Registry<TestManager>,
    h: &Handle,
) -> Result<bool, TinkError> {
    match h.public(alloc, registry) {
        Ok(public) => is_no_secret(keyset_material(alloc, &public)),
        Err(e) => Err(e),
    }
}

// The handle of one key of the id 7; of the material 0 it has a destroyed one of the id 8 without data.
fn handle_of_material(alloc: Global, material: i32) -> Result<Handle, TinkError> {
    if material == 0 {
        return handle_of_one(alloc, 7, bare(3, 8));
    }
    match key(alloc, material, 1, 7) {
        Ok(only) => handle_of_one(alloc, 7, only),
        Err(e) => Err(e),
    }
}

fn answer_row(alloc: Global, managed: &Managed, material: i32) -> Result<bool, TinkError> {
    let registry = registry_with(alloc, managed)?;
    match handle_of_material(alloc, material) {
        Ok(h) => public_is_no_secret(alloc, &registry, &h),
        Err(e) => Err(e),
    }
}

// The managers, and the material of a key; 0 is a destroyed key without data.
const PUBLIC_PARTS: &[(&str, Managed, i32, Answer)] = &[
    ("a private key", Managed::Private, 2, Ok(true)),
    (
        "a key without data",
        Managed::Private,
        0,
        Err(Kind::InvalidKeyset),
    ),
    (
        "a symmetric key",
        Managed::Private,
        1,
        Err(Kind::NotPrivate),
    ),
    (
        "a manager without public parts",
        Managed::Symmetric,
        2,
        Err(Kind::NoPrivateKeys),
    ),
    (
        "no manager",
        Managed::Nothing,
        2,
        Err(Kind::UnsupportedKeyType),
    ),
];

pub fn public_parts_are_of_private_keys(alloc: Global, verdict: &mut Verdict) {
    for (row, managed, material, want) in PUBLIC_PARTS {
        verdict.expect(answer_row(alloc, managed, *material), *want, row);
    }
}
