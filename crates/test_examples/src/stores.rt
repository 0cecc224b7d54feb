//! Rows of a store are encrypted again after a rotation. A value that was moved to another row is an error.

use example_keys::{add_key, retire};
use example_store::{StoreError, change_keys, create, get, put};
use sqlite::{Connection, MemStore, params};
use std::alloc::Global;
use test_util::{Verdict, draws_of, gives, succeeds};
use tink::aead::{AeadKind, WrappedAead};
use tink::keyset::Manager;
use tink::{Draws, Kind, Managers, Registry, TinkError};
use tink_proto::Bytes;

// A key and its id, two nonces, a second key and its id, and two nonces.
const RANDOM: &[u8] = b"\
    0123456789abcdef0123456789abcdefYYYYfirst nonce1second nonce\
    fedcba9876543210fedcba9876543210ZZZZthird nonce1fourth nonce";

/// What becomes of the rows of a store.
pub fn values_are_bound_to_their_rows(alloc: Global, verdict: &mut Verdict) {
    match tink::registry(alloc) {
        Ok(registry) => by_registry(alloc, verdict, &registry),
        Err(e) => verdict.expect(Err(e), Ok(true), "the registry of a store"),
    }
}

fn by_registry(alloc: Global, verdict: &mut Verdict, registry: &Registry<Managers>) {
    match draws_of(alloc, RANDOM) {
        Ok(mut draws) => by_draws(alloc, verdict, registry, &mut draws),
        Err(e) => verdict.expect(Err(e), Ok(true), "the random bytes of a store"),
    }
}

fn by_draws(
    alloc: Global,
    verdict: &mut Verdict,
    registry: &Registry<Managers>,
    draws: &mut Draws,
) {
    match Connection::open_in_memory(alloc) {
        Ok(mut store) => by_store(alloc, verdict, registry, draws, &mut store),
        Err(_) => verdict.expect(Ok(false), Ok(true), "a store in memory"),
    }
}

fn by_store(
    alloc: Global,
    verdict: &mut Verdict,
    registry: &Registry<Managers>,
    draws: &mut Draws,
    store: &mut Connection<MemStore>,
) {
    verdict.expect(done(create(store)), Ok(true), "a table");
    let mut keys = Manager::new(alloc);
    match add_key(alloc, registry, &mut keys, draws) {
        Ok(first) => by_keys(alloc, verdict, registry, draws, store, &mut keys, first),
        Err(e) => verdict.expect(Err(e), Ok(true), "a key of a store"),
    }
}

fn by_keys(
    alloc: Global,
    verdict: &mut Verdict,
    registry: &Registry<Managers>,
    draws: &mut Draws,
    store: &mut Connection<MemStore>,
    keys: &mut Manager,
    first: u32,
) {
    let filled = filled(alloc, registry, keys, draws, store);
    verdict.expect(filled, Ok(true), "two rows");
    let second = succeeds(add_key(alloc, registry, keys, draws));
    verdict.expect(second, Ok(true), "a second key");
    let changed = changed(alloc, registry, keys, draws, store);
    verdict.expect(changed, Ok(true), "each row encrypted again");
    let retired = succeeds(retire(keys, first));
    verdict.expect(retired, Ok(true), "the first key is disabled");
    let value = value_of(alloc, registry, keys, store, "anna", b"14 May");
    verdict.expect(value, Ok(true), "a row after the rotation");
    let value = value_of(alloc, registry, keys, store, "bert", b"9 November");
    verdict.expect(value, Ok(true), "the other row after it");
    verdict.expect(Ok(is_moved(store)), Ok(true), "a value that is moved");
    let value = value_of(alloc, registry, keys, store, "bert", b"14 May");
    verdict.expect(value, Err(Kind::DecryptFailed), "no key decrypts it there");
    let value = value_of(alloc, registry, keys, store, "anna", b"14 May");
    verdict.expect(value, Ok(true), "its own row stays");
    let value = value_of(alloc, registry, keys, store, "carl", b"");
    verdict.expect(value, Ok(false), "no such row");
}

// Two rows by the primary key.
fn filled(
    alloc: Global,
    registry: &Registry<Managers>,
    keys: &Manager,
    draws: &mut Draws,
    store: &mut Connection<MemStore>,
) -> Result<bool, TinkError> {
    match aead_of(alloc, registry, keys) {
        Ok(aead) => done(fill(alloc, &aead, draws, store)),
        Err(e) => Err(e),
    }
}

fn fill(
    alloc: Global,
    aead: &WrappedAead<AeadKind>,
    draws: &mut Draws,
    store: &mut Connection<MemStore>,
) -> Result<(), StoreError> {
    match put(alloc, store, aead, "anna", b"14 May", draws) {
        Ok(()) => put(alloc, store, aead, "bert", b"9 November", draws),
        Err(e) => Err(e),
    }
}

// All rows by the primary key.
fn changed(
    alloc: Global,
    registry: &Registry<Managers>,
    keys: &Manager,
    draws: &mut Draws,
    store: &mut Connection<MemStore>,
) -> Result<bool, TinkError> {
    match aead_of(alloc, registry, keys) {
        Ok(aead) => done(change_keys(alloc, store, &aead, draws)),
        Err(e) => Err(e),
    }
}

// Whether a row has this value.
fn value_of(
    alloc: Global,
    registry: &Registry<Managers>,
    keys: &Manager,
    store: &mut Connection<MemStore>,
    row: &str,
    want: &[u8],
) -> Result<bool, TinkError> {
    match aead_of(alloc, registry, keys) {
        Ok(aead) => is_value(get(alloc, store, &aead, row), want),
        Err(e) => Err(e),
    }
}

fn aead_of(
    alloc: Global,
    registry: &Registry<Managers>,
    keys: &Manager,
) -> Result<WrappedAead<AeadKind>, TinkError> {
    match keys.handle(alloc) {
        Ok(keyset) => tink::aead::new(alloc, &keyset, registry),
        Err(e) => Err(e),
    }
}

// Copies the ciphertext of one row into the other, as someone may who can write to the table.
fn is_moved(store: &mut Connection<MemStore>) -> bool {
    match store.query_row("SELECT value FROM entry WHERE name = ?1", params!["anna"]) {
        Ok(row) => is_copied(store, row.get(0)),
        Err(_) => false,
    }
}

fn is_copied(store: &mut Connection<MemStore>, ciphertext: Result<Vec<u8>, sqlite::Error>) -> bool {
    match ciphertext {
        Ok(ciphertext) => has_got(store, ciphertext.as_slice()),
        Err(_) => false,
    }
}

// Writes a ciphertext into the other row.
fn has_got(store: &mut Connection<MemStore>, ciphertext: &[u8]) -> bool {
    match store.execute(
        "UPDATE entry SET value = ?1 WHERE name = ?2",
        params![ciphertext, "bert"],
    ) {
        Ok(rows) => rows == 1,
        Err(_) => false,
    }
}

fn done(answer: Result<(), StoreError>) -> Result<bool, TinkError> {
    match answer {
        Ok(()) => Ok(true),
        Err(StoreError::Tink(e)) => Err(e),
        Err(StoreError::Sql(_)) => Ok(false),
    }
}

fn is_value(answer: Result<Bytes, StoreError>, want: &[u8]) -> Result<bool, TinkError> {
    match answer {
        Ok(value) => gives(Ok(value), want),
        Err(StoreError::Tink(e)) => Err(e),
        Err(StoreError::Sql(_)) => Ok(false),
    }
}
