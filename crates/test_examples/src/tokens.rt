//! A token is issued. Then the signing key is rotated, and the first one is disabled.

use example_tokens::{add_signing_key, issue, retire, user_of};
use std::alloc::Global;
use test_util::{Verdict, draws_of, gives, succeeds};
use tink::keyset::{Handle, Manager};
use tink::{Draws, Kind, Managers, Registry, TinkError};
use tink_proto::{Bytes, Text};

// Two keys of 32 bytes, each with an id behind it.
const RANDOM: &[u8] = b"0123456789abcdef0123456789abcdefYYYYfedcba9876543210fedcba9876543210ZZZZ";

/// What becomes of a token.
pub fn tokens_outlive_a_rotation(alloc: Global, verdict: &mut Verdict) {
    match tink::registry(alloc) {
        Ok(registry) => by_registry(alloc, verdict, &registry),
        Err(e) => verdict.expect(Err(e), Ok(true), "the registry"),
    }
}

fn by_registry(alloc: Global, verdict: &mut Verdict, registry: &Registry<Managers>) {
    match draws_of(alloc, RANDOM) {
        Ok(mut draws) => by_draws(alloc, verdict, registry, &mut draws),
        Err(e) => verdict.expect(Err(e), Ok(true), "the random bytes"),
    }
}

fn by_draws(
    alloc: Global,
    verdict: &mut Verdict,
    registry: &Registry<Managers>,
    draws: &mut Draws,
) {
    let mut keys = Manager::new(alloc);
    let first = succeeds(add_signing_key(alloc, registry, &mut keys, draws));
    verdict.expect(first, Ok(true), "a signing key");
    match token_of(alloc, registry, &keys) {
        Ok(token) => rotate(alloc, verdict, registry, draws, &mut keys, &token),
        Err(e) => verdict.expect(Err(e), Ok(true), "a token"),
    }
}

fn rotate(
    alloc: Global,
    verdict: &mut Verdict,
    registry: &Registry<Managers>,
    draws: &mut Draws,
    keys: &mut Manager,
    token: &Text,
) {
    let user = name(alloc, registry, keys, token.as_bytes());
    verdict.expect(user, Ok(true), "the user of a token");
    let second = succeeds(add_signing_key(alloc, registry, keys, draws));
    verdict.expect(second, Ok(true), "a second signing key");
    let user = name(alloc, registry, keys, token.as_bytes());
    verdict.expect(user, Ok(true), "the user after a rotation");
    let retired = succeeds(retire(keys, u32::from_be_bytes(*b"YYYY")));
    verdict.expect(retired, Ok(true), "the first key is disabled");
    let user = name(alloc, registry, keys, token.as_bytes());
    verdict.expect(user, Err(Kind::MacMismatch), "no key accepts the token");
    let user = name(alloc, registry, keys, b"no token");
    verdict.expect(user, Err(Kind::BadToken), "no token");
}

// A token of anna by the primary key.
fn token_of(
    alloc: Global,
    registry: &Registry<Managers>,
    keys: &Manager,
) -> Result<Text, TinkError> {
    match keys.handle(alloc) {
        Ok(keyset) => token_under(alloc, registry, &keyset),
        Err(e) => Err(e),
    }
}

fn token_under(
    alloc: Global,
    registry: &Registry<Managers>,
    keyset: &Handle,
) -> Result<Text, TinkError> {
    match tink::mac::new(alloc, keyset, registry) {
        Ok(mac) => issue(alloc, &mac, b"anna"),
        Err(e) => Err(e),
    }
}

// Whether the keys accept a token, and its user is anna.
fn name(
    alloc: Global,
    registry: &Registry<Managers>,
    keys: &Manager,
    token: &[u8],
) -> Result<bool, TinkError> {
    match keys.handle(alloc) {
        Ok(keyset) => gives(user_under(alloc, registry, &keyset, token), b"anna"),
        Err(e) => Err(e),
    }
}

fn user_under(
    alloc: Global,
    registry: &Registry<Managers>,
    keyset: &Handle,
    token: &[u8],
) -> Result<Bytes, TinkError> {
    match tink::mac::new(alloc, keyset, registry) {
        Ok(mac) => user_of(alloc, &mac, token),
        Err(e) => Err(e),
    }
}
