//! Tokens of users: a token names a user, and nobody without the keys can make one.
#![tactic(auto)]

ghost use Rattle.std.specs.Prelude.{Ok};
ghost use Rattle.keyset_model.specs.Edits as edits;
ghost use Rattle.tink_io.specs.Answering.{Answers};
ghost use Rattle.tink_keysets.specs.Editing.{Edits};
ghost use Rattle.tink_mac.specs.Tokens.{IsAccepted, IsSigning, IsVerifying};
ghost use Rattle.tink_sets.specs.Groups.{group_of};

use std::alloc::Global;
use tink::keyset::Manager;
use tink::mac::{WrappedMac, hmac_sha256_tag128_key_template};
use tink::{Draws, Mac, Managers, Registry, TinkError};
use tink_mac::tokens::{sign, verify};
use tink_proto::{Bytes, Text};

/// A token of `user`, signed by the primary key.
///
/// # Errors
/// `OutOfMemory`.
pub fn issue<P: Mac>(alloc: Global, mac: &WrappedMac<P>, user: &[u8]) -> Result<Text, TinkError>
    ensures { IsSigning P.computes mac.now.ps.primary user.now result }
{
    sign(alloc, mac, user)
}

/// The user of a token that an enabled key accepts.
///
/// # Errors
/// `BadToken` if the bytes are no token; `MacMismatch` if no key accepts it; `OutOfMemory`.
pub fn user_of<P: Mac>(alloc: Global, mac: &WrappedMac<P>, token: &[u8]) -> Result<Bytes, TinkError>
    ensures answer { IsVerifying P.verifies (group_of mac.now.ps.entries) token.now result }
    ensures accepted { (user : _) → IsAccepted P.verifies (group_of mac.now.ps.entries) token.now user
        → Answers result (Ok user) }
{
    verify(alloc, mac, token)
}

/// Adds a key, which signs from now on. Older keys still accept what they signed. Returns its id.
///
/// # Errors
/// `RandomFault` if too few random bytes are left; `NoFreshId`; `OutOfMemory`.
pub fn add_signing_key(
    alloc: Global,
    registry: &Registry<Managers>,
    keys: &mut Manager,
    draws: &mut Draws,
) -> Result<u32, TinkError> {
    match hmac_sha256_tag128_key_template(alloc) {
        Ok(template) => keys.rotate(alloc, &template, registry, draws),
        Err(e) => Err(e),
    }
}

/// Disables a key: it accepts nothing from now on.
///
/// # Errors
/// `IsPrimary` if the key signs; `KeyNotFound`; `WrongStatus` if it was destroyed.
pub fn retire(keys: &mut Manager, id: u32) -> Result<(), TinkError>
    ensures { Edits result keys.old keys.new (edits.disable keys.old id) }
{
    keys.disable(id)
}
