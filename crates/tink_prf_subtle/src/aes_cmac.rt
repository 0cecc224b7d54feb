//! A pseudorandom function by CMAC (SP 800-38B) over AES (FIPS 197).

ghost use Rattle.std.specs.Prelude.{◌≡◌, ⊤, false, length, IsTrue, MatchOption};
ghost use Rattle.tink_io.specs.Answering.{Tells};
ghost use Rattle.tink_prf_subtle.specs.AesCmac.{aes_cmac_key, aes_cmac_output, aes_cmac_output_told, aes_cmac_params, cmac_of, is_aes_key_size};
ghost use Rattle.tink_prf_subtle.specs.AesVariants.{IsKeyed, FitsVariant, variant_key};

use aes_block::{Aes128, Aes192, Aes256};
use cipher::KeyInit;
use hash_keys::cmac_into;
use std::alloc::Global;
use std::marker::Model;
use tink_io::{Kind, TinkError};
use tink_primitives::{CloneIn, Prf};
use tink_proto::Bytes;

const RECOMMENDED_KEY_SIZE: usize = 32;

// The bytes of the longest key of AES.
const MOST_KEY_SIZE: usize = 32;

const AES_BLOCK_SIZE_IN_BYTES: usize = 16;

// AES under a key of each size.
#[derive(Drop)]
enum AesVariant {
    Aes128(Aes128),
    Aes192(Aes192),
    Aes256(Aes256),
}

impl AesVariant {
    // The cipher under a key, where there is one with keys of its size.
    fn new(key: &[u8]) -> Option<AesVariant>
        ensures { MatchOption result (is_aes_key_size (length key.now) ≡ false) (λ cipher. IsKeyed cipher key.now) }
    {
        if let Ok(cipher) = Aes128::new_from_slice(key) {
            return Some(AesVariant::Aes128(cipher));
        }
        if let Ok(cipher) = Aes192::new_from_slice(key) {
            return Some(AesVariant::Aes192(cipher));
        }
        match Aes256::new_from_slice(key) {
            Ok(cipher) => Some(AesVariant::Aes256(cipher)),
            Err(_) => None,
        }
    }

    // The CMAC of a text.
    fn cmac(&self, text: &[u8]) -> [u8; 16]
        requires { FitsVariant self.now }
        ensures { result ≡ cmac_of (variant_key self.now) text.now }
    {
        let mut out = [0u8; 16];
        match self {
            AesVariant::Aes128(cipher) => cmac_into(cipher, text, &mut out),
            AesVariant::Aes192(cipher) => cmac_into(cipher, text, &mut out),
            AesVariant::Aes256(cipher) => cmac_into(cipher, text, &mut out),
        }
        out
    }
}

/// AES-CMAC under a key of 16, 24 or 32 bytes, which contracts see as the key. An output is the first bytes of the CMAC
/// of the input (SP 800-38B, 6.2), at most 16. A prepared one keeps the key's schedule, which has 2 KiB. Any other makes
/// it in each call.
#[derive(Drop)]
pub struct AesCmacPrf {
    // The key, and zeros behind it.
    bytes: [u8; MOST_KEY_SIZE],
    size: usize,
    kept: Option<Box<AesVariant>>,
}

impl Model for AesCmacPrf {
    ghost use Rattle.std.specs.Prelude.{List, ℕ, IsTrue, take, ⊤, MatchOption};
    ghost use Rattle.tink_prf_subtle.specs.AesCmac.{is_aes_key_size};
    ghost use Rattle.tink_prf_subtle.specs.AesVariants.{IsKeyed};

    ghost Value = { List ℕ };

    ghost view = { λ prf. take prf.size prf.bytes };

    ghost invariant = { λ prf. IsTrue (is_aes_key_size prf.size)
        × MatchOption prf.kept ⊤ (λ cipher. IsKeyed cipher.value (take prf.size prf.bytes)) };
}

impl AesCmacPrf {
    /// AES-CMAC under a key. No memory is needed.
    ///
    /// # Errors
    /// `BadKeySize` exactly where the key has not 16, 24 or 32 bytes.
    pub fn new(_alloc: Global, key: &[u8]) -> Result<AesCmacPrf, TinkError>
        ensures { Tells result (aes_cmac_key key.now) }
    {
        match key.len() {
            16 | 24 | 32 => Ok(AesCmacPrf::of_bytes(key)),
            _ => Err(TinkError::new(Kind::BadKeySize)),
        }
    }

    // AES-CMAC under a key of one of the sizes.
    #[tactic(auto, using(std::proofs::lemmas::Bool::Decides::nat_tests))]
    fn of_bytes(key: &[u8]) -> AesCmacPrf
        requires { IsTrue (is_aes_key_size (length key.now)) }
        ensures { result ≡ key.now }
    {
        let mut bytes = [0u8; MOST_KEY_SIZE];
        bytes[..key.len()].copy_from_slice(key);
        AesCmacPrf {
            bytes,
            size: key.len(),
            kept: None,
        }
    }

    // The cipher under the key.
    #[tactic(auto, using(std::proofs::lemmas::Bool::Decides::nat_tests))]
    fn cipher(&self) -> AesVariant
        ensures { IsKeyed result self.now }
    {
        match AesVariant::new(&self.bytes[..self.size]) {
            Some(cipher) => cipher,
            None => unreachable!(),
        }
    }

    // The CMAC of a text.
    fn cmac(&self, text: &[u8]) -> [u8; 16]
        ensures { result ≡ cmac_of self.now text.now }
    {
        match &self.kept {
            Some(cipher) => cipher.cmac(text),
            None => self.cipher().cmac(text),
        }
    }

    // The cipher on the heap, if there is memory.
    fn kept_cipher(&self, alloc: Global) -> Option<Box<AesVariant>>
        ensures { MatchOption result ⊤ (λ cipher. IsKeyed cipher.value self.now) }
    {
        match Box::new(alloc, self.cipher()) {
            Ok(cipher) => Some(cipher),
            Err(_) => None,
        }
    }
}

/// Whether a key has the size that Tink makes AES-CMAC keys of.
///
/// # Errors
/// `BadKeySize` exactly where the size is not 32 bytes.
pub fn validate_aes_cmac_prf_params(key_size: usize) -> Result<(), TinkError>
    ensures { Tells result (aes_cmac_params key_size) }
{
    if key_size != RECOMMENDED_KEY_SIZE {
        return Err(TinkError::new(Kind::BadKeySize));
    }
    Ok(())
}

impl CloneIn for AesCmacPrf {
    // The copy holds its key alone.
    fn try_clone(&self, _alloc: Global) -> Result<Self, TinkError> {
        Ok(AesCmacPrf {
            bytes: self.bytes,
            size: self.size,
            kept: None,
        })
    }

    // Where there is no memory for the schedule, the copy works without it.
    fn try_prepared(&self, alloc: Global) -> Result<Self, TinkError> {
        Ok(AesCmacPrf {
            bytes: self.bytes,
            size: self.size,
            kept: self.kept_cipher(alloc),
        })
    }
}

impl Prf for AesCmacPrf {
    ghost computes = { aes_cmac_output };

    fn compute_prf(
        &self,
        alloc: Global,
        input: &[u8],
        output_length: usize,
    ) -> Result<Bytes, TinkError> {
        if output_length > AES_BLOCK_SIZE_IN_BYTES {
            return Err(TinkError::new(Kind::OutputTooLong));
        }
        let mut out = vec![in alloc; 0u8; output_length]?;
        let code = self.cmac(input);
        out.copy_from_slice(&code[..output_length]);
        Ok(Bytes::from_vec(out))
    }

    ghost computes_told = { aes_cmac_output_told };
}
