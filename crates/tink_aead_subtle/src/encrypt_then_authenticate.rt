//! Encryption and then a MAC.

ghost use Rattle.std.specs.Prelude.{◌≡◌, ◌<◌, ◌^◌, length, nat_le, if◌then◌else◌, Ok, Err, IfOk};
ghost use Rattle.tink_io.specs.Answering.{Answers, Replies, Tells};
ghost use Rattle.tink_io.specs.declared.error.Kind.TheVariants.{BadTagSize};
ghost use Rattle.tink_aead_subtle.specs.Composed.{authenticated, composed_decrypts, composed_encrypts, tagged};

use crate::ind_cpa::IndCpaCipher;
use std::alloc::{AllocError, Global};
use tink_io::{Draws, Kind, TinkError};
use tink_primitives::{Aead, CloneIn, Mac};
use tink_proto::Bytes;

// The least size of a tag in bytes.
const MIN_TAG_SIZE: usize = 10;

// More bytes of associated data than there are of which the number of bits fits 64 bits.
const TOO_MUCH_DATA: usize = 1 << 61;

/// An AEAD by a cipher and a MAC (draft-mcgrew-aead-aes-cbc-hmac-sha2-05, section 2.1). Its ciphertext is the
/// cipher's output and a tag of `tag_size` bytes. The tag is the MAC of the associated data, the cipher's
/// output, and the data's length in bits in eight bytes, high byte first.
#[derive(Drop)]
pub struct EncryptThenAuthenticate<C, M> {
    ind_cpa_cipher: C,
    mac: M,
    tag_size: usize,
}

impl<C: IndCpaCipher + Drop, M: Mac + Drop> EncryptThenAuthenticate<C, M> {
    /// The AEAD by this cipher and this MAC, whose tags have `tag_size` bytes.
    ///
    /// # Errors
    /// `BadTagSize` where `tag_size` is below 10.
    pub fn new(
        ind_cpa_cipher: C,
        mac: M,
        tag_size: usize,
    ) -> Result<EncryptThenAuthenticate<C, M>, TinkError>
        ensures { Tells result (if nat_le 10 tag_size
            then Ok (record { ind_cpa_cipher = ind_cpa_cipher; mac = mac; tag_size = tag_size })
            else Err BadTagSize) }
    {
        if tag_size < MIN_TAG_SIZE {
            return Err(TinkError::new(Kind::BadTagSize));
        }
        Ok(EncryptThenAuthenticate {
            ind_cpa_cipher,
            mac,
            tag_size,
        })
    }
}

// What the tag is over.
fn mac_input(alloc: Global, additional_data: &[u8], sealed: &[u8]) -> Result<Vec<u8>, AllocError>
    requires { length additional_data.now < 2 ^ 61 }
    ensures { IfOk result (λ message. message.items ≡ authenticated additional_data.now sealed.now) }
{
    let bits = 8 * additional_data.len() as u64;
    let mut message = additional_data.to_vec(alloc)?;
    message.extend_from_slice(sealed)?;
    message.extend_from_slice(&bits.to_be_bytes())?;
    Ok(message)
}

// The cipher's output with its tag behind it.
fn with_tag<M: Mac>(
    mac: &M,
    tag_size: usize,
    alloc: Global,
    additional_data: &[u8],
    sealed: Bytes,
) -> Result<Bytes, TinkError>
    ensures { Answers result (tagged (M.computes mac.now) tag_size additional_data.now sealed) }
{
    if additional_data.len() >= TOO_MUCH_DATA {
        return Err(TinkError::new(Kind::DataTooLong));
    }
    let message = mac_input(alloc, additional_data, sealed.as_slice())?;
    let tag = mac.compute_mac(alloc, &message)?;
    if tag.as_slice().len() != tag_size {
        return Err(TinkError::new(Kind::BadTagSize));
    }
    let mut out = sealed.into_vec();
    out.extend_from_slice(tag.as_slice())?;
    Ok(Bytes::from_vec(out))
}

impl<C: CloneIn, M: CloneIn> CloneIn for EncryptThenAuthenticate<C, M> {
    fn try_clone(&self, alloc: Global) -> Result<Self, TinkError> {
        Ok(EncryptThenAuthenticate {
            ind_cpa_cipher: self.ind_cpa_cipher.try_clone(alloc)?,
            mac: self.mac.try_clone(alloc)?,
            tag_size: self.tag_size,
        })
    }

    fn try_prepared(&self, alloc: Global) -> Result<Self, TinkError> {
        Ok(EncryptThenAuthenticate {
            ind_cpa_cipher: self.ind_cpa_cipher.try_prepared(alloc)?,
            mac: self.mac.try_prepared(alloc)?,
            tag_size: self.tag_size,
        })
    }
}

impl<C: IndCpaCipher, M: Mac> Aead for EncryptThenAuthenticate<C, M> {
    ghost use Rattle.tink_aead_subtle.specs.ComposedTold.{composed_decrypts_told, composed_encrypts_told};

    ghost encrypts = { λ a text aad draws.
        composed_encrypts (C.encrypts a.ind_cpa_cipher) (M.computes a.mac) a.tag_size text aad draws };

    ghost decrypts = { λ a input aad.
        composed_decrypts (C.decrypts a.ind_cpa_cipher) (M.verifies a.mac) a.tag_size input aad };

    /// # Errors
    /// Those of the cipher. Else `DataTooLong` if the number of bits of the associated data does not fit 64
    /// bits. Else those of the MAC. Else `BadTagSize` if its tag has not `tag_size` bytes. `OutOfMemory` may
    /// come in place of each.
    fn encrypt(
        &self,
        alloc: Global,
        plaintext: &[u8],
        additional_data: &[u8],
        draws: &mut Draws,
    ) -> Result<Bytes, TinkError> {
        let sealed = self.ind_cpa_cipher.encrypt(alloc, plaintext, draws)?;
        with_tag(&self.mac, self.tag_size, alloc, additional_data, sealed)
    }

    /// # Errors
    /// `TooShort` if the ciphertext has fewer than `tag_size` bytes. Else `DataTooLong` as for encryption.
    /// Else `MacMismatch` if the MAC does not accept the tag. Else those of the cipher. `OutOfMemory` may
    /// come in place of each. A text is given only where the MAC accepts the tag.
    fn decrypt(
        &self,
        alloc: Global,
        ciphertext: &[u8],
        additional_data: &[u8],
    ) -> Result<Bytes, TinkError> {
        if ciphertext.len() < self.tag_size {
            return Err(TinkError::new(Kind::TooShort));
        }
        if additional_data.len() >= TOO_MUCH_DATA {
            return Err(TinkError::new(Kind::DataTooLong));
        }
        let n = ciphertext.len() - self.tag_size;
        let message = mac_input(alloc, additional_data, &ciphertext[..n])?;
        self.mac.verify_mac(alloc, &ciphertext[n..], &message)?;
        self.ind_cpa_cipher.decrypt(alloc, &ciphertext[..n])
    }

    ghost encrypts_told = { λ a text aad draws.
        composed_encrypts_told (C.encrypts a.ind_cpa_cipher) (M.computes a.mac) a.tag_size text aad draws
        (C.encrypts_told a.ind_cpa_cipher text draws) (M.computes_told a.mac) };

    ghost decrypts_told = { λ a input aad.
        composed_decrypts_told (C.decrypts a.ind_cpa_cipher) (M.verifies a.mac) a.tag_size input aad
        (C.decrypts_told a.ind_cpa_cipher) (M.verifies_told a.mac) };
}
