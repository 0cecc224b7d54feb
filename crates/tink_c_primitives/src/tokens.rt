//! Signed tokens by the MACs of a file of keys.

ghost use Rattle.tink_c_bytes.specs.Delivered.{MadeBy};
ghost use Rattle.tink_c_primitives.specs.Tokens.{PayloadGives, PayloadRefuses, TokenGives, TokenRefuses};

use crate::loading::macs_in_file;
use std::alloc::Global;
use tink_io::TinkError;
use tink_mac::tokens::{sign, verify};
use tink_proto::Bytes;

/// The token of a payload by the primary key of a file of MACs.
///
/// # Errors
/// Those of `macs_in_file`.
pub fn token_sign(alloc: Global, file: &[u8], payload: &[u8]) -> Result<Bytes, TinkError>
    ensures { MadeBy (TokenGives file.now payload.now) (TokenRefuses file.now payload.now) result }
{
    let macs = macs_in_file(alloc, file)?;
    let token = sign(alloc, &macs, payload)?;
    Ok(Bytes::from_vec(token.into_string().into_bytes()))
}

/// The payload of a token whose MAC a key of a file of MACs accepts.
///
/// # Errors
/// Those of `macs_in_file`; then `BadToken` exactly if it is no token, and `MacMismatch` exactly if no key accepts its
/// MAC.
pub fn token_verify(alloc: Global, file: &[u8], token: &[u8]) -> Result<Bytes, TinkError>
    ensures { MadeBy (PayloadGives file.now token.now) (PayloadRefuses file.now token.now) result }
{
    let macs = macs_in_file(alloc, file)?;
    verify(alloc, &macs, token)
}
