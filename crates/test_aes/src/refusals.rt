//! Calls that are refused, and a caller of `seal_into` with a contract of its own.

ghost use Rattle.std.specs.Prelude.{◌≡◌, [], IfOk};
ghost use Rattle.standards.specs.Gcm.{gcm};

use crate::rows;
use crate::rows::Row;
use crate::seals::{Asked, Of};
use aes_block::Aes128;
use cipher::{BlockCipherEncrypt, KeyInit};
use gcm::{Gcm, GcmError};

// Four zeros under a key of zeros.
const SEALED: [u8; 20] =
    *b"\x03\x88\xda\xce\xa6\x89\x6c\x35\x5d\x1c\x29\x70\x9b\x9d\x0c\x49\x02\x23\x7f\x1b";

// A caller's use of `seal_into`: four bytes without associated data.
fn seal_four<C: BlockCipherEncrypt<16>>(
    g: &Gcm<C>,
    nonce: &[u8; 12],
    text: &[u8; 4],
) -> Result<[u8; 20], GcmError>
    ensures { IfOk result (λ sealed. sealed ≡ gcm (C.encrypts g.now.cipher) nonce.now [] text.now) }
{
    let mut out = [0u8; 20];
    g.seal_into(nonce, &[], text, &mut out)?;
    Ok(out)
}

/// Whether four zeros under a key of zeros are sealed so.
pub fn seals_four() -> bool {
    seal_four(&Gcm::new(Aes128::new(&[0; 16])), &[0; 12], &[0; 4]) == Ok(SEALED)
}

/// Four bytes, other data, short inputs, and changed bits.
pub const ROWS: &[Row] = &[
    Row("four bytes", rows::Asked::SealFour),
    Row(
        "other data",
        rows::Asked::Seal(Of::Gcm([0; 16]), Asked::Refuse(b"x", &SEALED)),
    ),
    Row(
        "15 bytes",
        rows::Asked::Seal(Of::Gcm([0; 16]), Asked::Refuse(b"", &[0; 15])),
    ),
    Row(
        "no bytes",
        rows::Asked::Seal(Of::GcmSiv([0; 16]), Asked::Refuse(b"", b"")),
    ),
    Row(
        "GCM, changes",
        rows::Asked::Seal(Of::Gcm([1; 16]), Asked::RefuseChanges),
    ),
    Row(
        "GCM-SIV, changes",
        rows::Asked::Seal(Of::LargeGcmSiv([1; 32]), Asked::RefuseChanges),
    ),
];
