//! Spellings of bytes, and the two sides of a token's dot.

ghost use Rattle.std.specs.Prelude.{◌≡◌, nat_eq, position, List, ℕ, MatchOption};
ghost use Rattle.tink_mac.specs.Reading.{IsRead, IsSplit};
ghost use Rattle.tink_mac.specs.Tokens.{dot, token_of};

use base64::DecodeAllocError;
use base64::engine::general_purpose::URL_SAFE_NO_PAD;
use std::alloc::Global;
use tink_io::{Kind, TinkError};
use tink_proto::Bytes;

// Where the first dot is.
fn first_dot(token: &[u8]) -> Option<usize>
    ensures { result ≡ position (λ c. nat_eq c dot) token.now }
{
    token.iter().position(|byte| *byte == b'.')
}

/// The bytes before the first dot of a token, and those behind it.
pub fn halves(token: &[u8]) -> Option<(&[u8], &[u8])>
    ensures { MatchOption result ((p m : List ℕ) → token.now ≡ token_of p m → ⊥)
        (λ h. IsSplit token.now h.0.now h.1.now) }
{
    match first_dot(token) {
        Some(at) => Some((&token[..at], &token[at + 1..])),
        None => None,
    }
}

/// The bytes that a text spells in base 64url without padding (RFC 4648, section 5).
///
/// # Errors
/// `BadToken` exactly if the text spells no bytes, or `OutOfMemory`.
pub fn read(alloc: Global, text: &[u8]) -> Result<Bytes, TinkError>
    ensures { IsRead text.now result }
{
    match URL_SAFE_NO_PAD.decode(alloc, text) {
        Ok(bytes) => Ok(Bytes::from_vec(bytes)),
        Err(DecodeAllocError::OutOfMemory) => Err(TinkError::new(Kind::OutOfMemory)),
        Err(DecodeAllocError::DecodeError(_)) => Err(TinkError::new(Kind::BadToken)),
    }
}
