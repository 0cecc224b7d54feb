//! Tokens of a keyset's MACs.

ghost use Rattle.std.specs.Prelude.{◌≡◌, ◌++◌, ◌∷◌, Ok, List, ℕ, IfOk, IfErr, string_bytes};
ghost use Rattle.base64.specs.GeneralPurpose.{IsBytes};
ghost use Rattle.tink_io.specs.declared.error.Kind.TheVariants.{OutOfMemory};
ghost use Rattle.tink_io.specs.Answering.{Answers, made_of};
ghost use Rattle.tink_sets.specs.Groups.{group_of};
ghost use Rattle.tink_mac.specs.Wrapped.{any_verifies};
ghost use Rattle.tink_mac.specs.Tokens.{dot, spelled, IsAccepted, IsSigning, IsVerifying};

use crate::WrappedMac;
use crate::tokens::spelling::{halves, read};
use base64::engine::general_purpose::URL_SAFE_NO_PAD;
use std::alloc::Global;
use tink_io::{Kind, TinkError};
use tink_primitives::Mac;
use tink_proto::{Bytes, Text};

/// The token of `payload`: its spelling, a dot, and the spelling of the primary key's MAC of the payload's spelling.
/// Spellings are in base64url without padding (RFC 4648, section 5).
///
/// # Errors
/// As the primary key's MAC, which is `OutOfMemory` alone for the MACs of `tink_mac`.
pub fn sign<P: Mac>(alloc: Global, mac: &WrappedMac<P>, payload: &[u8]) -> Result<Text, TinkError>
    ensures answer { IsSigning P.computes mac.now.ps.primary payload.now result }
{
    let front = URL_SAFE_NO_PAD.encode(alloc, payload)?;
    let message = front.as_bytes();
    let tag = mac.compute_mac(alloc, message)?;
    with_mac(front, tag.as_slice())
}

// A spelling, a dot, and the spelling of a MAC.
fn with_mac(front: String, mac: &[u8]) -> Result<Text, TinkError>
    ensures text { IfOk result (λ t. t ≡ string_bytes front ++ dot ∷ spelled mac.now) }
    ensures cause { IfErr result (λ e. e.kind ≡ OutOfMemory) }
    ensures fit { IsBytes mac.now }
{
    let mut token = front;
    token.push('.')?;
    URL_SAFE_NO_PAD.encode_string(mac, &mut token)?;
    Ok(Text::from_string(token))
}

/// The payload of a token whose MAC a key of the keyset accepts.
///
/// # Errors
/// `BadToken` exactly where `token` is the token of no payload and MAC; `MacMismatch` exactly where it is one and no
/// key accepts its MAC. `OutOfMemory` may come in place of each.
pub fn verify<P: Mac>(alloc: Global, mac: &WrappedMac<P>, token: &[u8]) -> Result<Bytes, TinkError>
    ensures answer { IsVerifying P.verifies (group_of mac.now.ps.entries) token.now result }
    ensures succeeds { (p : List ℕ) → IsAccepted P.verifies (group_of mac.now.ps.entries) token.now p
        → Answers result (Ok p) }
{
    verify_token(alloc, mac, token)
}

// What `verify` answers. That it succeeds follows from this.
fn verify_token<P: Mac>(
    alloc: Global,
    mac: &WrappedMac<P>,
    token: &[u8],
) -> Result<Bytes, TinkError>
    ensures { IsVerifying P.verifies (group_of mac.now.ps.entries) token.now result }
{
    let Some((front, back)) = halves(token) else {
        return Err(TinkError::new(Kind::BadToken));
    };
    let payload = read(alloc, front)?;
    let tag = read(alloc, back)?;
    payload_if_accepted(alloc, mac, payload, &tag, front)
}

// A payload, where the MAC is accepted for its spelling.
fn payload_if_accepted<P: Mac>(
    alloc: Global,
    mac: &WrappedMac<P>,
    payload: Bytes,
    tag: &Bytes,
    front: &[u8],
) -> Result<Bytes, TinkError>
    ensures { Answers result
        (made_of (λ _. payload) (any_verifies P.verifies (group_of mac.now.ps.entries) tag.now front.now)) }
{
    match mac.verify_mac(alloc, tag.as_slice(), front) {
        Ok(()) => Ok(payload),
        Err(e) => Err(e),
    }
}
