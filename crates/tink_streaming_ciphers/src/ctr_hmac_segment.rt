ghost use Rattle.std.specs.Prelude.{◌≡◌, ◌⊎◌, ◌≤◌, ◌↔◌, ◌++◌, ℕ, List, length, take, IsTrue};
ghost use Rattle.hash_keys.specs.Hash.{digest_size, hmac_of};
ghost use Rattle.hash_keys.specs.Hashers.{IsHmacKey};
ghost use Rattle.tink_streaming_ciphers.specs.SegmentKeys.{segment_under, overhead_under};

use crate::segment_cipher::SegmentCipher;
use hash_keys::{Hash, HmacKey};
use std::marker::Model;
use tink_io::{Kind, TinkError};
use tink_streaming_segment::{SegmentDecrypter, SegmentEncrypter};

/// The size of a nonce in bytes.
pub const AES_CTR_HMAC_NONCE_SIZE_IN_BYTES: usize = 16;

/// The size of the prefix of the nonces of one stream in bytes.
pub const AES_CTR_HMAC_NONCE_PREFIX_SIZE_IN_BYTES: usize = 7;

/// The size of an HMAC key in bytes.
pub const AES_CTR_HMAC_KEY_SIZE_IN_BYTES: usize = 32;

// The bytes of the largest tag.
const MAX_TAG: usize = 64;

/// Segments in AES counter mode (SP 800-38A, section 6.5). Behind the ciphertext are the first bytes of an
/// HMAC (FIPS 198-1) over nonce and ciphertext.
///
/// A contract sees the two keys, the hash and the tag's bytes.
#[derive(Drop)]
pub struct CtrHmacSegment {
    cipher: SegmentCipher,
    hmac_key: [u8; 32],
    // of that key under the hash
    mac: HmacKey,
    tag_hash: Hash,
    tag_size: usize,
}

impl Model for CtrHmacSegment {
    ghost use Rattle.std.specs.Prelude.{◌≤◌};
    ghost use Rattle.hash_keys.specs.Hash.{digest_size};
    ghost use Rattle.hash_keys.specs.Hashers.{IsHmacKey};
    ghost use Rattle.tink_streaming_ciphers.specs.SegmentCiphers.{FitsCipher, cipher_key};
    ghost use Rattle.tink_streaming_ciphers.specs.SegmentKeys.{SegmentKeys};

    ghost Value = { SegmentKeys };

    ghost view = { λ s. record {
      aes_key = cipher_key s.cipher;
      hmac_key = s.hmac_key;
      hash = s.tag_hash;
      tag = s.tag_size;
    } };

    ghost invariant = { λ s. (s.tag_size ≤ digest_size s.tag_hash) × FitsCipher s.cipher
        × IsHmacKey s.mac s.tag_hash s.hmac_key };
}

impl CtrHmacSegment {
    /// Segments under an AES key of 16 or 32 bytes and an HMAC key of 32. Tags have `tag_size` bytes: ten at
    /// least and a digest of `tag_hash` at most.
    pub fn new(aes_key: &[u8], hmac_key: &[u8], tag_hash: Hash, tag_size: usize) -> CtrHmacSegment
        requires aes_key { (length aes_key.now ≡ 16) ⊎ (length aes_key.now ≡ 32) }
        requires hmac_key { length hmac_key.now ≡ 32 }
        requires low { 10 ≤ tag_size }
        requires high { tag_size ≤ digest_size tag_hash }
        ensures { result ≡ record { aes_key = aes_key.now; hmac_key = hmac_key.now; hash = tag_hash; tag = tag_size } }
    {
        let mut key = [0u8; 32];
        key.copy_from_slice(hmac_key);
        CtrHmacSegment {
            cipher: SegmentCipher::new(aes_key),
            hmac_key: key,
            mac: HmacKey::new(tag_hash, hmac_key),
            tag_hash,
            tag_size,
        }
    }
}

impl SegmentEncrypter for CtrHmacSegment {
    ghost use Rattle.stream_model.proofs.SegmentFacts.{length-ctr_hmac_segment, ctr_hmac_segment_same};

    ghost seg = { segment_under };

    ghost overhead_of = { overhead_under };

    ghost nonce_length = { λ s. 16 };

    ghost longer = { λ e n t. length-ctr_hmac_segment e.hash e.tag e.aes_key e.hmac_key n t };

    ghost one_text = { λ d n t u e. ctr_hmac_segment_same d.hash d.tag d.aes_key d.hmac_key n t u e };

    fn overhead(&self) -> usize {
        self.tag_size
    }

    fn encrypt_segment_in_place(&self, segment: &mut [u8], nonce: &[u8]) {
        let n = segment.len() - self.tag_size;
        self.cipher
            .apply_in_place(&block_of(nonce), &mut segment[..n]);
        let tag = tag_of(&self.mac, self.tag_size, nonce, &segment[..n]);
        segment[n..].copy_from_slice(&tag[..self.tag_size]);
    }
}

impl SegmentDecrypter for CtrHmacSegment {
    ghost use Rattle.stream_model.proofs.SegmentFacts.{length-ctr_hmac_segment, ctr_hmac_segment_same};

    ghost seg = { segment_under };

    ghost overhead_of = { overhead_under };

    ghost nonce_length = { λ s. 16 };

    ghost longer = { λ d n t. length-ctr_hmac_segment d.hash d.tag d.aes_key d.hmac_key n t };

    ghost one_text = { λ d n t u e. ctr_hmac_segment_same d.hash d.tag d.aes_key d.hmac_key n t u e };

    fn overhead(&self) -> usize {
        self.tag_size
    }

    // The tag is compared before anything is written, in a time that may tell where it differs.
    fn decrypt_segment_into(
        &self,
        segment: &[u8],
        nonce: &[u8],
        out: &mut [u8],
    ) -> Result<(), TinkError> {
        if segment.len() < self.tag_size {
            return Err(TinkError::new(Kind::DecryptFailed));
        }
        let n = segment.len() - self.tag_size;
        let tag = tag_of(&self.mac, self.tag_size, nonce, &segment[..n]);
        if !is_same(&segment[n..], &tag[..self.tag_size]) {
            return Err(TinkError::new(Kind::DecryptFailed));
        }
        out.copy_from_slice(&segment[..n]);
        self.cipher.apply_in_place(&block_of(nonce), out);
        Ok(())
    }
}

// The nonce as the first counter block.
fn block_of(nonce: &[u8]) -> [u8; 16]
    requires { length nonce.now ≡ 16 }
    ensures { result ≡ nonce.now }
{
    let mut block = [0u8; 16];
    block.copy_from_slice(nonce);
    block
}

fn is_same(a: &[u8], b: &[u8]) -> bool
    ensures { IsTrue result ↔ (a.now ≡ b.now) }
{
    a == b
}

// The first bytes of HMAC over nonce and ciphertext, as the first of the result.
fn tag_of(mac: &HmacKey, size: usize, nonce: &[u8], ciphertext: &[u8]) -> [u8; MAX_TAG]
    requires { size ≤ digest_size mac.now.hash }
    ensures { (h : Hash) (key : List ℕ) → IsHmacKey mac.now h key
        → take size result ≡ take size (hmac_of h key (nonce.now ++ ciphertext.now)) }
{
    let mut tag = [0u8; MAX_TAG];
    mac.tag_into(nonce, ciphertext, &[], &mut tag[..size]);
    tag
}
