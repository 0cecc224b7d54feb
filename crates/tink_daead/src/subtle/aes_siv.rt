//! AES-SIV (RFC 5297).

ghost use Rattle.std.specs.Prelude.{◌≡◌, ◌+◌, ◌↔◌, ⊤, false, length, IsTrue, MatchOption};
ghost use Rattle.standards.specs.AesKeys.{aes};
ghost use Rattle.standards.specs.Siv.{s2v};
ghost use Rattle.tink_io.specs.Answering.{Answers, Tells};
ghost use Rattle.tink_daead.specs.AesSiv.{aes_siv, aes_siv_decrypts, aes_siv_decrypts_told, aes_siv_encrypts};
ghost use Rattle.tink_daead.specs.AesSiv.{is_siv_key_size, mac_half, siv_key, text_behind};
ghost use Rattle.tink_daead.specs.AesSivLaws.{DecryptsExactly, HasOneText, RefusesOthers, RefusesShort};
ghost use Rattle.tink_daead.specs.SivCiphers.{whole_key, FitsCiphers, AreKeyed};

use crate::subtle::siv::{SIV_SIZE, SivPair, pair_of};
use aes_block::{Aes128, Aes256};
use std::alloc::Global;
use std::marker::Model;
use tink_io::{Kind, TinkError};
use tink_primitives::{CloneIn, DeterministicAead};
use tink_proto::Bytes;

/// The size of the keys of a keyset in bytes.
pub const AES_SIV_KEY_SIZE: usize = 64;

// AES under the halves of a key of either size.
#[derive(Drop)]
enum SivCiphers {
    Aes128(SivPair<Aes128>),
    Aes256(SivPair<Aes256>),
}

impl SivCiphers {
    // The ciphers under the halves of a key, where it has one of the two sizes.
    fn new(key: &[u8]) -> Option<SivCiphers>
        ensures { MatchOption result (is_siv_key_size (length key.now) ≡ false) (λ ciphers. AreKeyed ciphers key.now) }
    {
        let n = key.len() / 2;
        if let Some(pair) = pair_of::<Aes128, 16>(&key[..n], &key[n..]) {
            return Some(SivCiphers::Aes128(pair));
        }
        match pair_of::<Aes256, 32>(&key[..n], &key[n..]) {
            Some(pair) => Some(SivCiphers::Aes256(pair)),
            None => None,
        }
    }

    // Fills `out` with V and the ciphertext.
    fn seal_into(&self, aad: &[u8], text: &[u8], out: &mut [u8])
        requires fits { FitsCiphers self.now }
        requires room { length out.old ≡ 16 + length text.now }
        ensures { out.new ≡ aes_siv (whole_key self.now) aad.now text.now }
    {
        match self {
            SivCiphers::Aes128(pair) => pair.seal_into(aad, text, out),
            SivCiphers::Aes256(pair) => pair.seal_into(aad, text, out),
        }
    }

    // Puts the text of a ciphertext into its place, and answers whether V is that of the text.
    fn open(&self, aad: &[u8], v: &[u8; SIV_SIZE], bytes: &mut [u8]) -> bool
        requires fits { FitsCiphers self.now }
        ensures text { bytes.new ≡ text_behind (whole_key self.now) v.now bytes.old }
        ensures value { IsTrue result ↔ (s2v (aes (mac_half (whole_key self.now))) aad.now bytes.new ≡ v.now) }
    {
        match self {
            SivCiphers::Aes128(pair) => pair.open(aad, v, bytes),
            SivCiphers::Aes256(pair) => pair.open(aad, v, bytes),
        }
    }

    // The text of which the input is the encryption.
    fn decrypt(&self, alloc: Global, input: &[u8], aad: &[u8]) -> Result<Bytes, TinkError>
        requires { FitsCiphers self.now }
        ensures { Answers result (aes_siv_decrypts (whole_key self.now) input.now aad.now) }
    {
        if input.len() < SIV_SIZE {
            return Err(TinkError::new(Kind::TooShort));
        }
        let mut text = input[SIV_SIZE..].to_vec(alloc)?;
        let mut v = [0u8; SIV_SIZE];
        v.copy_from_slice(&input[..SIV_SIZE]);
        if !self.open(aad, &v, &mut text) {
            return Err(TinkError::new(Kind::DecryptFailed));
        }
        Ok(Bytes::from_vec(text))
    }
}

/// AES-SIV (RFC 5297) under a key of 32 or 64 bytes, which contracts see as the key. The first half is the key of CMAC,
/// the second that of the counter mode. What it makes of a text is V, of 16 bytes, and the ciphertext.
///
/// Equal texts with equal associated data give equal bytes, and who sees two ciphertexts sees that. A prepared one keeps
/// the schedules of the halves, which have 4 KiB. Any other makes them in each call.
#[derive(Drop)]
pub struct AesSiv {
    // The key, and zeros behind it.
    bytes: [u8; AES_SIV_KEY_SIZE],
    size: usize,
    kept: Option<Box<SivCiphers>>,
}

impl Model for AesSiv {
    ghost use Rattle.std.specs.Prelude.{List, ℕ, IsTrue, take, ⊤, MatchOption};
    ghost use Rattle.tink_daead.specs.AesSiv.{is_siv_key_size};
    ghost use Rattle.tink_daead.specs.SivCiphers.{AreKeyed};

    ghost Value = { List ℕ };

    ghost view = { λ a. take a.size a.bytes };

    ghost invariant = { λ a. IsTrue (is_siv_key_size a.size)
        × MatchOption a.kept ⊤ (λ ciphers. AreKeyed ciphers.value (take a.size a.bytes)) };
}

impl AesSiv {
    /// The AEAD under this key. No memory is needed.
    ///
    /// # Errors
    /// `BadKeySize` exactly where the key has neither 32 nor 64 bytes.
    pub fn new(_alloc: Global, key: &[u8]) -> Result<AesSiv, TinkError>
        ensures { Tells result (siv_key key.now) }
    {
        match key.len() {
            32 | 64 => Ok(AesSiv::of_bytes(key)),
            _ => Err(TinkError::new(Kind::BadKeySize)),
        }
    }

    // The AEAD under a key of one of the sizes.
    #[tactic(auto, using(std::proofs::lemmas::Bool::Decides::nat_tests))]
    fn of_bytes(key: &[u8]) -> AesSiv
        requires { IsTrue (is_siv_key_size (length key.now)) }
        ensures { result ≡ key.now }
    {
        let mut bytes = [0u8; AES_SIV_KEY_SIZE];
        bytes[..key.len()].copy_from_slice(key);
        AesSiv {
            bytes,
            size: key.len(),
            kept: None,
        }
    }

    // The ciphers under the halves of the key.
    #[tactic(auto, using(std::proofs::lemmas::Bool::Decides::nat_tests))]
    fn ciphers(&self) -> SivCiphers
        ensures { AreKeyed result self.now }
    {
        match SivCiphers::new(&self.bytes[..self.size]) {
            Some(ciphers) => ciphers,
            None => unreachable!(),
        }
    }

    // They on the heap, if there is memory.
    fn kept_ciphers(&self, alloc: Global) -> Option<Box<SivCiphers>>
        ensures { MatchOption result ⊤ (λ ciphers. AreKeyed ciphers.value self.now) }
    {
        match Box::new(alloc, self.ciphers()) {
            Ok(ciphers) => Some(ciphers),
            Err(_) => None,
        }
    }
}

impl CloneIn for AesSiv {
    // The copy holds its key alone.
    fn try_clone(&self, _alloc: Global) -> Result<Self, TinkError> {
        Ok(AesSiv {
            bytes: self.bytes,
            size: self.size,
            kept: None,
        })
    }

    // Where there is no memory for the schedules, the copy works without them.
    fn try_prepared(&self, alloc: Global) -> Result<Self, TinkError> {
        Ok(AesSiv {
            bytes: self.bytes,
            size: self.size,
            kept: self.kept_ciphers(alloc),
        })
    }
}

impl DeterministicAead for AesSiv {
    ghost encrypts = { aes_siv_encrypts };

    ghost decrypts = { aes_siv_decrypts };

    /// V and the ciphertext (RFC 5297, 2.6): 16 bytes more than the text has. Empty associated data is one empty
    /// component.
    ///
    /// # Errors
    /// `OutOfMemory` alone.
    fn encrypt_deterministically(
        &self,
        alloc: Global,
        plaintext: &[u8],
        additional_data: &[u8],
    ) -> Result<Bytes, TinkError> {
        let mut out = vec![in alloc; 0u8; SIV_SIZE + plaintext.len()]?;
        match &self.kept {
            Some(ciphers) => ciphers.seal_into(additional_data, plaintext, &mut out),
            None => self
                .ciphers()
                .seal_into(additional_data, plaintext, &mut out),
        }
        Ok(Bytes::from_vec(out))
    }

    /// The text whose encryption with this associated data is `ciphertext` (RFC 5297, 2.7).
    ///
    /// # Errors
    /// `TooShort` exactly where it has fewer than 16 bytes, and else `DecryptFailed` exactly where it is the encryption
    /// of no text; `OutOfMemory`.
    fn decrypt_deterministically(
        &self,
        alloc: Global,
        ciphertext: &[u8],
        additional_data: &[u8],
    ) -> Result<Bytes, TinkError> {
        match &self.kept {
            Some(ciphers) => ciphers.decrypt(alloc, ciphertext, additional_data),
            None => self.ciphers().decrypt(alloc, ciphertext, additional_data),
        }
    }

    ghost encrypts_told = { λ _ _ _. tt };

    ghost decrypts_told = { aes_siv_decrypts_told };
}

/// AES-SIV decrypts an input to a text exactly if the input is the text's encryption with this data. The error is
/// `TooShort` exactly if the input has fewer than 16 bytes. It is `DecryptFailed` exactly if a longer input is the
/// encryption of no text. No input is the encryption of two.
pub fn law_aes_siv()
    ensures accepts { DecryptsExactly }
    ensures too_short { RefusesShort }
    ensures decrypt_failed { RefusesOthers }
    ensures one_text { HasOneText }
{}
