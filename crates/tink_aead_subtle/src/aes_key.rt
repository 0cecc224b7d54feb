//! AES keys of 16 or 32 bytes.

ghost use Rattle.std.specs.Prelude.{◌≡◌, length, if◌then◌else◌, Ok, Err, MatchOption};
ghost use Rattle.tink_io.specs.Answering.{Answers, Tells};
ghost use Rattle.tink_io.specs.declared.error.Kind.TheVariants.{BadKeySize};
ghost use Rattle.tink_aead_subtle.specs.KeySizes.{is_aes_key_size, sized};

use std::alloc::Global;
use std::marker::Model;
use tink_io::{Kind, TinkError};
use tink_primitives::CloneIn;
use tink_proto::Bytes;

/// Whether an AES key of an AEAD may have this size: 16 or 32 bytes.
///
/// # Errors
/// `BadKeySize` exactly if the size is neither 16 nor 32.
pub fn validate_aes_key_size(size_in_bytes: usize) -> Result<(), TinkError>
    ensures { Tells result (if is_aes_key_size size_in_bytes then Ok tt else Err BadKeySize) }
{
    match size_in_bytes {
        16 | 32 => Ok(()),
        _ => Err(TinkError::new(Kind::BadKeySize)),
    }
}

/// A key of AES (FIPS 197) of 16 or 32 bytes. A contract sees its bytes.
#[derive(Drop)]
pub struct AesKey {
    bytes: Bytes,
}

impl Model for AesKey {
    ghost use Rattle.std.specs.Prelude.{List, ℕ, IsTrue, length};
    ghost use Rattle.tink_aead_subtle.specs.KeySizes.{is_aes_key_size};

    ghost Value = { List ℕ };

    ghost view = { λ k. k.bytes };

    ghost invariant = { λ k. IsTrue (is_aes_key_size (length k.bytes)) };
}

impl AesKey {
    /// The key of these bytes.
    ///
    /// # Errors
    /// `BadKeySize` if there are neither 16 nor 32 bytes. `OutOfMemory`.
    pub fn new(alloc: Global, key: &[u8]) -> Result<AesKey, TinkError>
        ensures { Answers result (sized key.now key.now) }
    {
        validate_aes_key_size(key.len())?;
        Ok(AesKey {
            bytes: Bytes::from_slice(alloc, key)?,
        })
    }

    /// The size of the key in bytes: 16 or 32.
    pub fn len(&self) -> usize
        ensures { result ≡ length self.now }
    {
        self.bytes.as_slice().len()
    }

    /// The key, if it has 16 bytes.
    pub fn small(&self) -> Option<&[u8; 16]>
        ensures { MatchOption result (length self.now ≡ 32) (λ key. (key.now ≡ self.now) × (length self.now ≡ 16)) }
    {
        match <&[u8; 16]>::try_from(self.bytes.as_slice()) {
            Ok(key) => Some(key),
            Err(_) => None,
        }
    }

    /// The key, which has 32 bytes.
    pub fn large(&self) -> &[u8; 32]
        requires { length self.now ≡ 32 }
        ensures { result.now ≡ self.now }
    {
        match <&[u8; 32]>::try_from(self.bytes.as_slice()) {
            Ok(key) => key,
            Err(_) => unreachable!(),
        }
    }
}

impl CloneIn for AesKey {
    fn try_clone(&self, alloc: Global) -> Result<Self, TinkError> {
        Ok(AesKey {
            bytes: self.bytes.try_clone(alloc)?,
        })
    }
}
