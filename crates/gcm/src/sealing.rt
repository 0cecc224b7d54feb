//! GCM (SP 800-38D) with nonces of 12 bytes and tags of 16.

ghost use Rattle.std.specs.Prelude.{◌≡◌, ◌≤◌, ◌<◌, ◌+◌, ◌-◌, ◌*◌, ◌^◌, length, replicate, take};
ghost use Rattle.std.specs.Int.{w128, from_be_bytes};
ghost use Rattle.standards.specs.Gcm.{first_block, gcm, gcm_tag, gcm_text};
ghost use Rattle.gcm.specs.Answers.{IsOpened, IsSealed, IsTried};
ghost use Rattle.gcm.specs.Limits.{MOST_GCM};

use crate::bytes::{is_same, xor_of};
use crate::counter::apply_keystream;
use crate::errors::{GcmError, GcmResult};
use crate::hashing::{ghash_key, hash_of};
use crate::limits::check_lengths;
use crate::long_hash_key::LongHashKey;
use crate::order::{ByteOrder, counter_after};
use cipher::BlockCipherEncrypt;

// The most bytes of a text (5.2.1.1), two blocks less than the counter has.
const MOST_TEXT: usize = (1 << 36) - 32;

/// GCM (SP 800-38D) under a cipher with blocks of 16 bytes.
#[derive(Drop)]
pub struct Gcm<C: BlockCipherEncrypt<16>> {
    cipher: C,
    // of the hash subkey H (6.4)
    subkey: LongHashKey,
    ghost subkey_of: { subkey ≡ from_be_bytes w128 (C.encrypts cipher (replicate 16 0)) },
}

// The first counter block, under which the tag is sealed (7.1, step 2).
fn first_block(nonce: &[u8]) -> [u8; 16]
    requires { length nonce.now ≡ 12 }
    ensures { result ≡ first_block nonce.now }
{
    let mut block = [0u8; 16];
    block[..12].copy_from_slice(nonce);
    block[15] = 1;
    block
}

// The text under the counter blocks from 2 on, in its place (7.1, step 3).
fn apply_text<C: BlockCipherEncrypt<16>>(c: &C, nonce: &[u8], bytes: &mut [u8])
    requires nonce { length nonce.now ≡ 12 }
    requires text { length bytes.old ≤ 2 ^ 36 }
    ensures { bytes.new ≡ gcm_text (C.encrypts c.now) nonce.now bytes.old }
{
    let block = counter_after(ByteOrder::BigEndian, &first_block(nonce), 1);
    apply_keystream(c, ByteOrder::BigEndian, &block, bytes);
}

// The tag of data and ciphertext (7.1, steps 1 and 4 to 6).
fn tag_of<C: BlockCipherEncrypt<16>>(
    g: &Gcm<C>,
    nonce: &[u8],
    aad: &[u8],
    ciphertext: &[u8],
) -> [u8; 16]
    requires nonce { length nonce.now ≡ 12 }
    ensures { result ≡ gcm_tag (C.encrypts g.now.cipher) nonce.now aad.now ciphertext.now }
{
    let mut mask = first_block(nonce);
    g.cipher.encrypt_block(&mut mask);
    let sum = hash_of(ByteOrder::BigEndian, &g.subkey, aad, ciphertext);
    xor_of(&sum, &mask)
}

// Ciphertext and tag of a text whose blocks are counted, in its place: `bytes` is the text and room for the tag.
fn seal_here<C: BlockCipherEncrypt<16>>(g: &Gcm<C>, nonce: &[u8], aad: &[u8], bytes: &mut [u8])
    requires nonce { length nonce.now ≡ 12 }
    requires room { 16 ≤ length bytes.old }
    requires text { length bytes.old - 16 ≤ 2 ^ 36 }
    ensures { bytes.new ≡ gcm (C.encrypts g.now.cipher) nonce.now aad.now (take (length bytes.old - 16) bytes.old) }
{
    let n = bytes.len() - 16;
    apply_text(&g.cipher, nonce, &mut bytes[..n]);
    let tag = tag_of(g, nonce, aad, &bytes[..n]);
    bytes[n..].copy_from_slice(&tag);
}

// The same of a text that stands elsewhere.
fn seal<C: BlockCipherEncrypt<16>>(
    g: &Gcm<C>,
    nonce: &[u8],
    aad: &[u8],
    text: &[u8],
    out: &mut [u8],
)
    requires nonce { length nonce.now ≡ 12 }
    requires text { length text.now ≤ 2 ^ 36 }
    requires room { length out.old ≡ length text.now + 16 }
    ensures { out.new ≡ gcm (C.encrypts g.now.cipher) nonce.now aad.now text.now }
{
    out[..text.len()].copy_from_slice(text);
    seal_here(g, nonce, aad, out);
}

// Opens what has no more blocks than are counted: false where no text is sealed so, and then nothing is written.
fn open<C: BlockCipherEncrypt<16>>(
    g: &Gcm<C>,
    nonce: &[u8],
    aad: &[u8],
    sealed: &[u8],
    out: &mut [u8],
) -> bool
    requires nonce { length nonce.now ≡ 12 }
    requires sealed { length sealed.now ≤ 2 ^ 36 }
    requires room { length out.old ≡ length sealed.now - 16 }
    ensures { IsTried (gcm (C.encrypts g.now.cipher) nonce.now aad.now) sealed.now out.old out.new result }
{
    if sealed.len() < 16 {
        return false;
    }
    let n = out.len();
    let tag = tag_of(g, nonce, aad, &sealed[..n]);
    if !is_same(&tag, &sealed[n..]) {
        return false;
    }
    out.copy_from_slice(&sealed[..n]);
    apply_text(&g.cipher, nonce, out);
    true
}

impl<C: BlockCipherEncrypt<16>> Gcm<C> {
    /// GCM under this cipher, with the tables of its hash subkey, 16 KiB.
    pub fn new(c: C) -> Gcm<C>
        ensures { result.cipher ≡ c }
    {
        let mut key = [0u8; 16];
        c.encrypt_block(&mut key);
        Gcm {
            cipher: c,
            subkey: LongHashKey::new(&ghash_key(&key)),
        }
    }

    /// Writes the ciphertext of `text` and its tag of 16 bytes into `out` (7.1). The nonce has 12 bytes, and
    /// `aad` is the associated data. A nonce serves once under each key.
    ///
    /// # Errors
    /// `DataTooLong` where `aad` has more than 2^36 bytes, and else `TextTooLong` where `text` has more than
    /// 2^36 - 32. `out` is then as before.
    pub fn seal_into(&self, nonce: &[u8], aad: &[u8], text: &[u8], out: &mut [u8]) -> GcmResult
        requires nonce { length nonce.now ≡ 12 }
        requires room { length out.old ≡ length text.now + 16 }
        ensures { IsSealed (gcm (C.encrypts self.now.cipher) nonce.now aad.now) MOST_GCM
            aad.now text.now out.old out.new result }
    {
        check_lengths(aad.len(), text.len(), MOST_TEXT)?;
        seal(self, nonce, aad, text, out);
        Ok(())
    }

    /// Makes the ciphertext and the tag of a text in its place, under a nonce of 12 bytes and with the associated data
    /// `aad` (7.1). `bytes` is the text and 16 bytes behind it, whatever these are. A nonce serves once under each key.
    ///
    /// # Errors
    /// Those of `seal_into`. `bytes` is then as before.
    pub fn seal_in_place(&self, nonce: &[u8], aad: &[u8], bytes: &mut [u8]) -> GcmResult
        requires nonce { length nonce.now ≡ 12 }
        requires room { 16 ≤ length bytes.old }
        ensures { IsSealed (gcm (C.encrypts self.now.cipher) nonce.now aad.now) MOST_GCM
            aad.now (take (length bytes.old - 16) bytes.old) bytes.old bytes.new result }
    {
        check_lengths(aad.len(), bytes.len() - 16, MOST_TEXT)?;
        seal_here(self, nonce, aad, bytes);
        Ok(())
    }

    /// Writes the one text whose encryption is `sealed` into `out` (7.2). `out` has 16 bytes less, or none if
    /// `sealed` is shorter than 16 bytes.
    ///
    /// # Errors
    /// `DataTooLong` if `aad` has more than 2^36 bytes. Else `TextTooLong` if `sealed` has more than 2^36 - 16. Else
    /// `DecryptFailed` if it is the encryption of no text. `out` is then as before.
    pub fn open_into(&self, nonce: &[u8], aad: &[u8], sealed: &[u8], out: &mut [u8]) -> GcmResult
        requires nonce { length nonce.now ≡ 12 }
        requires room { length out.old ≡ length sealed.now - 16 }
        ensures { IsOpened (gcm (C.encrypts self.now.cipher) nonce.now aad.now) MOST_GCM
            aad.now sealed.now out.old out.new result }
    {
        check_lengths(aad.len(), sealed.len().saturating_sub(16), MOST_TEXT)?;
        if !open(self, nonce, aad, sealed, out) {
            return Err(GcmError::DecryptFailed);
        }
        Ok(())
    }
}
