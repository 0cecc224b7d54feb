//! The primitives of a keyset of test keys.

ghost use Rattle.std.specs.Prelude.{Some, IsTrue, filter};
ghost use Rattle.std.specs.List.{list_all};
ghost use Rattle.keyset_model.specs.Keys.{is_enabled};
ghost use Rattle.keyset_model.specs.Validity.{is_well_formed};
ghost use Rattle.tink_set_builder.specs.Built.{GivesSet, IsSetOf, built_entry};
ghost use Rattle.tink_set_builder.specs.Given.{given_each};
ghost use Rattle.tink_sets.specs.Entries.{entry_of};

use std::alloc::Global;
use test_util::{Answer, TestKinds, TestManager, URL, Verdict, data_of, handle_of, registry_of};
use tink_io::{Kind, TinkError};
use tink_keysets::keyset::Handle;
use tink_primitives::Primitive;
use tink_proto::{Key, KeyData};
use tink_registry::{KeyManager, Registry};
use tink_set_builder::build_set;
use tink_sets::{Entry, PrimitiveSet};

// The manager of the test URL, which takes keys of any length or not.
pub fn manager(any_length: bool) -> TestManager {
    TestManager {
        url: URL,
        private: false,
        any_length,
    }
}

// The set of what the enabled keys build, with the primary entry of the id. The given manager alone decides each key
// for whose URL its `does_support` says true, and a registry's manager each other one.
pub fn set_of_keys<M: KeyManager>(
    alloc: Global,
    keys: &[Key],
    id: u32,
    registry: &Registry<M>,
    km: &M,
) -> Result<PrimitiveSet<M::Family>, TinkError>
    requires { IsTrue (list_all is_well_formed keys.now) }
    ensures { GivesSet (IsSetOf id) result (given_each
        (built_entry M.url M.supports M.builds entry_of registry.now.managers (Some km.now))
        (filter is_enabled keys.now)) }
{
    build_set(alloc, keys, id, registry, Some(km))
}

// Whether there is one entry, of the id and the key's value.
fn is_entry(entries: &[Entry<TestKinds>], id: u32, want: &[u8]) -> bool {
    match entries {
        [entry] => is_of(entry, id, want),
        _ => false,
    }
}

fn is_of(entry: &Entry<TestKinds>, id: u32, want: &[u8]) -> bool {
    match &entry.primitive {
        Primitive::Aead(aead) => entry.key_id == id && aead.key.as_slice() == want,
        _ => false,
    }
}

fn has_primary(set: &PrimitiveSet<TestKinds>, id: u32, want: &[u8]) -> bool {
    match &set.primary {
        Some(primary) => is_of(primary, id, want),
        None => false,
    }
}

// A key: its URL, its value and the number of its material, if it has data, and its status, its id and the number of its
// prefix type.
pub type KeyRow = (Option<(&'static str, &'static [u8], i32)>, i32, u32, i32);

fn data(alloc: Global, row: &KeyRow) -> Result<Option<KeyData>, TinkError> {
    match &row.0 {
        Some((url, value, material)) => Ok(Some(data_of(alloc, url, value, *material)?)),
        None => Ok(None),
    }
}

fn push(alloc: Global, keys: &mut Vec<Key>, row: &KeyRow) -> Result<(), TinkError> {
    let key_data = data(alloc, row)?;
    Ok(keys.push(Key {
        key_data,
        status: row.1,
        key_id: row.2,
        output_prefix_type: row.3,
    })?)
}

// The handle of the keys.
pub fn handle(alloc: Global, primary: u32, rows: &[KeyRow]) -> Result<Handle, TinkError> {
    let mut keys = Vec::new(alloc);
    for row in rows {
        push(alloc, &mut keys, row)?;
    }
    handle_of(primary, keys)
}

// By what the primitives are built: a registry of the manager, or the manager itself beside a registry of nothing. It
// takes keys of any length or not.
enum By {
    Registry(bool),
    Manager(bool),
}

fn build_set_by(alloc: Global, h: &Handle, by: &By) -> Result<PrimitiveSet<TestKinds>, TinkError> {
    match by {
        By::Registry(any_length) => match registry_of(alloc, manager(*any_length)) {
            Ok(registry) => h.primitives(alloc, &registry),
            Err(e) => Err(e),
        },
        By::Manager(any_length) => {
            let nothing: Registry<TestManager> = Registry::new(alloc);
            h.primitives_with_key_manager(alloc, &nothing, Some(&manager(*any_length)))
        }
    }
}

// Whether the enabled keys of four stand by their prefix.
fn are_four(set: &PrimitiveSet<TestKinds>) -> bool {
    is_entry(set.raw_entries(), 8, b"rr")
        && is_entry(
            set.entries_for_prefix(b"\x01\x00\x00\x00\x07"),
            7,
            b"\xaa\xbb",
        )
        && set.entries_for_prefix(b"\x01\x00\x00\x00\x09").is_empty()
        && has_primary(set, 7, b"\xaa\xbb")
}

// What a set has.
enum Has {
    // The enabled keys of FOUR.
    Four,
    // Two entries without a prefix.
    TwoRaws,
}

fn holds(set: Result<PrimitiveSet<TestKinds>, TinkError>, what: &Has) -> Result<bool, TinkError> {
    match set {
        Ok(set) => Ok(match what {
            Has::Four => are_four(&set),
            Has::TwoRaws => set.raw_entries().len() == 2,
        }),
        Err(e) => Err(e),
    }
}

fn answer_row(
    alloc: Global,
    keys: Result<Handle, TinkError>,
    by: &By,
    what: &Has,
) -> Result<bool, TinkError> {
    match keys {
        Ok(h) => holds(build_set_by(alloc, &h, by), what),
        Err(e) => Err(e),
    }
}

const INVALID: Answer = Err(Kind::InvalidKey);

const UNSUPPORTED: Answer = Err(Kind::UnsupportedKeyType);

// An enabled key of id 7 with a prefix.
const AABB: KeyRow = (Some((URL, b"\xaa\xbb", 1)), 1, 7, 1);

// A destroyed key without data, an enabled raw key of id 8, a disabled and an enabled key of ids 9 and 7 with a prefix.
const FOUR: &[KeyRow] = &[
    (None, 3, 8, 3),
    (Some((URL, b"rr", 1)), 1, 8, 3),
    (Some((URL, b"\xaa\xbb", 1)), 2, 9, 1),
    AABB,
];

// A RAW key of sixteen bytes.
const FIRST: KeyRow = (Some((URL, &[5; 16], 1)), 1, 7, 3);

// It and another one.
const NOTHING_OF_X: &[KeyRow] = &[FIRST, (Some(("x", b"", 1)), 1, 8, 3)];

const BYTE_OF_X: &[KeyRow] = &[FIRST, (Some(("x", b"v", 1)), 1, 8, 3)];

const NOTHING: &[KeyRow] = &[FIRST, (Some((URL, b"", 1)), 1, 8, 3)];

const BYTE: &[KeyRow] = &[FIRST, (Some((URL, b"v", 1)), 1, 8, 3)];

// The primary id, the keys, by what they are built, and what their set has.
const ROWS: &[(&str, u32, &[KeyRow], By, Has, Answer)] = &[
    (
        "enabled keys stand by their prefix",
        7,
        FOUR,
        By::Registry(true),
        Has::Four,
        Ok(true),
    ),
    // The first key that does not build refuses.
    (
        "no bytes of another URL",
        7,
        NOTHING_OF_X,
        By::Registry(false),
        Has::TwoRaws,
        INVALID,
    ),
    (
        "a byte of another URL",
        7,
        BYTE_OF_X,
        By::Registry(false),
        Has::TwoRaws,
        UNSUPPORTED,
    ),
    (
        "a byte of the URL",
        7,
        BYTE,
        By::Registry(false),
        Has::TwoRaws,
        INVALID,
    ),
    (
        "a keyset without its primary key",
        9,
        &[AABB],
        By::Registry(false),
        Has::TwoRaws,
        Err(Kind::InvalidKeyset),
    ),
    // A given manager decides alone.
    (
        "one that takes any length",
        7,
        NOTHING,
        By::Manager(true),
        Has::TwoRaws,
        Ok(true),
    ),
    (
        "one that does not",
        7,
        NOTHING,
        By::Manager(false),
        Has::TwoRaws,
        INVALID,
    ),
    (
        "one of another URL",
        7,
        BYTE_OF_X,
        By::Manager(true),
        Has::TwoRaws,
        UNSUPPORTED,
    ),
];

pub fn keysets_give_sets(alloc: Global, verdict: &mut Verdict) {
    for (row, primary, keys, by, what, want) in ROWS {
        let got = answer_row(alloc, handle(alloc, *primary, keys), by, what);
        verdict.expect(got, *want, row);
    }
}
