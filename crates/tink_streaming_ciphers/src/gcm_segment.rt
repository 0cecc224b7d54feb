//! Segments by AES-GCM.

ghost use Rattle.std.specs.Prelude.{◌≡◌, ◌⊎◌, ◌≤◌, ◌<◌, ◌-◌, ◌^◌, ℕ, List, [], length, take, OnOk, OnErr, IfErr};
ghost use Rattle.standards.specs.Gcm.{gcm};
ghost use Rattle.tink_io.specs.declared.error.Kind.TheVariants.{DecryptFailed};

use aes_block::{Aes128, Aes256};
use cipher::{BlockCipherEncrypt, KeyInit};
use gcm::Gcm;
use std::marker::Model;
use tink_io::{Kind, TinkError};
use tink_streaming_segment::{SegmentDecrypter, SegmentEncrypter};

/// The size of a nonce in bytes.
pub const AES_GCM_HKDF_NONCE_SIZE_IN_BYTES: usize = 12;

/// The size of the prefix of the nonces of one stream in bytes.
pub const AES_GCM_HKDF_NONCE_PREFIX_SIZE_IN_BYTES: usize = 7;

/// The size of the tag of each segment in bytes.
pub const AES_GCM_HKDF_TAG_SIZE_IN_BYTES: usize = 16;

/// Segments by AES-GCM (SP 800-38D) without associated data, under nonces of 12 bytes: the
/// ciphertext, and a tag of 16 bytes behind it.
///
/// A contract sees the key.
#[derive(Drop)]
pub struct GcmSegment {
    aead: SegmentAead,
}

// AES-GCM under a key of 16 or of 32 bytes, with the table of its hash key.
#[derive(Drop)]
enum SegmentAead {
    Small(Gcm<Aes128>),
    Large(Gcm<Aes256>),
}

impl Model for GcmSegment {
    ghost use Rattle.std.specs.Prelude.{ℕ, List};
    ghost use Rattle.tink_streaming_ciphers.specs.SegmentCiphers.{FitsAead, aead_key};

    ghost Value = { List ℕ };

    ghost view = { λ s. aead_key s.aead };

    ghost invariant = { λ s. FitsAead s.aead };
}

impl GcmSegment {
    /// Segments under an AES key of 16 or 32 bytes.
    pub fn new(aes_key: &[u8]) -> GcmSegment
        requires { (length aes_key.now ≡ 16) ⊎ (length aes_key.now ≡ 32) }
        ensures { result ≡ aes_key.now }
    {
        match Aes128::new_from_slice(aes_key) {
            Ok(cipher) => GcmSegment {
                aead: SegmentAead::Small(Gcm::new(cipher)),
            },
            Err(_) => large(aes_key),
        }
    }
}

// The same under a key of 32 bytes.
fn large(aes_key: &[u8]) -> GcmSegment
    requires { length aes_key.now ≡ 32 }
    ensures { result ≡ aes_key.now }
{
    match Aes256::new_from_slice(aes_key) {
        Ok(cipher) => GcmSegment {
            aead: SegmentAead::Large(Gcm::new(cipher)),
        },
        Err(_) => unreachable!(),
    }
}

impl SegmentEncrypter for GcmSegment {
    ghost use Rattle.stream_model.specs.Key.{gcm_segment};
    ghost use Rattle.stream_model.proofs.SegmentFacts.{gcm_segment_same, length-gcm_segment};

    ghost seg = { gcm_segment };

    ghost overhead_of = { λ s. 16 };

    ghost nonce_length = { λ s. 12 };

    ghost longer = { length-gcm_segment };

    ghost one_text = { gcm_segment_same };

    fn overhead(&self) -> usize {
        AES_GCM_HKDF_TAG_SIZE_IN_BYTES
    }

    fn encrypt_segment_in_place(&self, segment: &mut [u8], nonce: &[u8]) {
        match &self.aead {
            SegmentAead::Small(aead) => seal(aead, segment, nonce),
            SegmentAead::Large(aead) => seal(aead, segment, nonce),
        }
    }
}

impl SegmentDecrypter for GcmSegment {
    ghost use Rattle.stream_model.specs.Key.{gcm_segment};
    ghost use Rattle.stream_model.proofs.SegmentFacts.{gcm_segment_same, length-gcm_segment};

    ghost seg = { gcm_segment };

    ghost overhead_of = { λ s. 16 };

    ghost nonce_length = { λ s. 12 };

    ghost longer = { length-gcm_segment };

    ghost one_text = { gcm_segment_same };

    fn overhead(&self) -> usize {
        AES_GCM_HKDF_TAG_SIZE_IN_BYTES
    }

    // The tag is compared before anything is written.
    fn decrypt_segment_into(
        &self,
        segment: &[u8],
        nonce: &[u8],
        out: &mut [u8],
    ) -> Result<(), TinkError> {
        match &self.aead {
            SegmentAead::Small(aead) => open(aead, segment, nonce, out),
            SegmentAead::Large(aead) => open(aead, segment, nonce, out),
        }
    }
}

// Makes the segment of a text under a nonce in its place: `bytes` is the text and room for the tag.
fn seal<C: BlockCipherEncrypt<16>>(aead: &Gcm<C>, bytes: &mut [u8], nonce: &[u8])
    requires nonce { length nonce.now ≡ 12 }
    requires room { 16 ≤ length bytes.old }
    requires size { length bytes.old - 16 < 2 ^ 32 }
    ensures { bytes.new ≡ gcm (C.encrypts aead.now.cipher) nonce.now [] (take (length bytes.old - 16) bytes.old) }
{
    match aead.seal_in_place(nonce, &[], bytes) {
        Ok(()) => {}
        Err(_) => unreachable!(),
    }
}

// Writes the text of a segment under a nonce. `DecryptFailed` exactly where it is the segment of no
// text, and nothing is written then.
fn open<C: BlockCipherEncrypt<16>>(
    aead: &Gcm<C>,
    segment: &[u8],
    nonce: &[u8],
    out: &mut [u8],
) -> Result<(), TinkError>
    requires nonce { length nonce.now ≡ 12 }
    requires size { length segment.now - 16 < 2 ^ 32 }
    requires room { length out.old ≡ length segment.now - 16 }
    ensures ok { OnOk result (gcm (C.encrypts aead.now.cipher) nonce.now [] out.new ≡ segment.now) }
    ensures refused { OnErr result ((t : List ℕ) → gcm (C.encrypts aead.now.cipher) nonce.now [] t ≡ segment.now → ⊥) }
    ensures kept { OnErr result (out.new ≡ out.old) }
    ensures kind { IfErr result (λ e. e ≡ record { kind = DecryptFailed }) }
{
    match aead.open_into(nonce, &[], segment, out) {
        Ok(()) => Ok(()),
        Err(_) => Err(TinkError::new(Kind::DecryptFailed)),
    }
}
