//! GCM-SIV (RFC 8452).

ghost use Rattle.std.specs.Prelude.{◌≡◌, ◌≤◌, ◌<◌, ◌+◌, ◌-◌, ◌*◌, ◌/◌, ◌^◌, ◌++◌, length, take};
ghost use Rattle.std.specs.Int.{w32, w128, from_le_bytes, to_le_bytes};
ghost use Rattle.standards.specs.Ghash.{times_x};
ghost use Rattle.standards.specs.GcmSiv.{authentication_key, counter_block, derived, encryption_key, gcm_siv};
ghost use Rattle.gcm.specs.Answers.{IsOpened, IsSealed, IsTried};
ghost use Rattle.gcm.specs.Limits.{MOST_GCM_SIV};
ghost use Rattle.gcm.specs.Siv.{IsSivKeySize, cipher_of, sealed_under, tag_under};

use crate::bytes::{is_same, xor_of};
use crate::counter::apply_keystream;
use crate::errors::{GcmError, GcmResult};
use crate::hash_key::HashKey;
use crate::hashing::{hashed_once, polyval_key};
use crate::limits::check_lengths;
use crate::opened::hashed_as_opened;
use crate::order::ByteOrder;
use cipher::{BlockCipherEncrypt, KeyInit};
use std::marker::PhantomData;

// The most bytes of a text (6).
const MOST_TEXT: usize = 1 << 36;

/// GCM-SIV (RFC 8452) under a key of K bytes, 16 or 32. C makes ciphers with blocks of 16 bytes from keys of this
/// size.
#[derive(Drop)]
pub struct GcmSiv<C, const K: usize> {
    key: [u8; K],
    ciphers: PhantomData<C>,
    ghost key_size: { IsSivKeySize K },
}

// What is made for one nonce (4).
#[derive(Drop)]
struct MessageKeys<C> {
    authentication: [u8; 16],
    // of the authentication key
    element: HashKey,
    cipher: C,
    ghost element_of: { element ≡ times_x (from_le_bytes w128 authentication) },
}

// Half of the cipher's block of a number and the nonce (4).
fn derived_piece<C: BlockCipherEncrypt<16>>(c: &C, nonce: &[u8], number: u32) -> [u8; 8]
    requires { length nonce.now ≡ 12 }
    ensures { result ≡ take 8 (C.encrypts c.now (to_le_bytes w32 number ++ nonce.now)) }
{
    let mut block = [0u8; 16];
    block[..4].copy_from_slice(&number.to_le_bytes());
    block[4..].copy_from_slice(nonce);
    c.encrypt_block(&mut block);
    let mut piece = [0u8; 8];
    piece.copy_from_slice(&block[..8]);
    piece
}

// Fills a key with pieces, the first of them from this number (4).
fn derive_into<C: BlockCipherEncrypt<16>>(c: &C, nonce: &[u8], first: u32, key: &mut [u8])
    requires nonce { length nonce.now ≡ 12 }
    requires pieces { IsSivKeySize (length key.old) }
    requires first { first < 256 }
    ensures { key.new ≡ derived (C.encrypts c.now) nonce.now first (length key.old / 8) }
{
    for i in 0..key.len() / 8 {
        let piece = derived_piece(c, nonce, first + i as u32);
        key[8 * i..8 * i + 8].copy_from_slice(&piece);
    }
}

// The tag from POLYVAL of data and text: the nonce is added and the top bit of byte 15 cleared (4).
fn tag_of<C: BlockCipherEncrypt<16>>(c: &C, sum: &[u8; 16], nonce: &[u8]) -> [u8; 16]
    requires { length nonce.now ≡ 12 }
    ensures { result ≡ tag_under (C.encrypts c.now) sum.now nonce.now }
{
    let mut tag = xor_of(sum, nonce);
    tag[15] &= 0x7f;
    c.encrypt_block(&mut tag);
    tag
}

// The first counter block of a tag: the top bit of byte 15 is set (4).
fn counter_block(tag: &[u8; 16]) -> [u8; 16]
    ensures { result ≡ counter_block tag.now }
{
    let mut block = *tag;
    block[15] |= 0x80;
    block
}

// Ciphertext and tag under the keys of the nonce.
fn seal<C: BlockCipherEncrypt<16>>(
    keys: &MessageKeys<C>,
    nonce: &[u8],
    aad: &[u8],
    text: &[u8],
    out: &mut [u8],
)
    requires nonce { length nonce.now ≡ 12 }
    requires text { length text.now ≤ 2 ^ 36 }
    requires room { length out.old ≡ length text.now + 16 }
    ensures { out.new ≡ sealed_under (C.encrypts keys.now.cipher) keys.now.authentication nonce.now aad.now text.now }
{
    let n = text.len();
    let sum = hashed_once(ByteOrder::LittleEndian, &keys.element, aad, text);
    let tag = tag_of(&keys.cipher, &sum, nonce);
    out[..n].copy_from_slice(text);
    apply_keystream(
        &keys.cipher,
        ByteOrder::LittleEndian,
        &counter_block(&tag),
        &mut out[..n],
    );
    out[n..].copy_from_slice(&tag);
}

// Opens under the keys of the nonce: false where no text is sealed so, and then nothing is written.
fn open<C: BlockCipherEncrypt<16>>(
    keys: &MessageKeys<C>,
    nonce: &[u8],
    aad: &[u8],
    sealed: &[u8],
    out: &mut [u8],
) -> bool
    requires nonce { length nonce.now ≡ 12 }
    requires sealed { length sealed.now ≤ 2 ^ 36 + 16 }
    requires room { length out.old ≡ length sealed.now - 16 }
    ensures { IsTried (sealed_under (C.encrypts keys.now.cipher) keys.now.authentication nonce.now aad.now)
        sealed.now out.old out.new result }
{
    if sealed.len() < 16 {
        return false;
    }
    let n = out.len();
    let mut tag = [0u8; 16];
    tag.copy_from_slice(&sealed[n..]);
    let block = counter_block(&tag);
    let sum = hashed_as_opened(&keys.cipher, &block, &keys.element, aad, &sealed[..n]);
    if !is_same(&tag_of(&keys.cipher, &sum, nonce), &tag) {
        return false;
    }
    out.copy_from_slice(&sealed[..n]);
    apply_keystream(&keys.cipher, ByteOrder::LittleEndian, &block, out);
    true
}

impl<C: KeyInit<K> + BlockCipherEncrypt<16> + Drop, const K: usize> GcmSiv<C, K> {
    /// GCM-SIV under this key, of 16 or 32 bytes.
    pub fn new(key: &[u8; K]) -> GcmSiv<C, K>
        requires { IsSivKeySize K }
        ensures { result.key ≡ key.now }
    {
        GcmSiv {
            key: *key,
            ciphers: PhantomData,
        }
    }

    fn message_keys(&self, nonce: &[u8]) -> MessageKeys<C>
        requires { length nonce.now ≡ 12 }
        ensures authentication { result.authentication
            ≡ authentication_key (C.encrypts (C.keyed self.now.key)) nonce.now }
        ensures cipher { result.cipher
            ≡ C.keyed (encryption_key (cipher_of C.keyed C.encrypts) self.now.key nonce.now) }
    {
        let c = C::new(&self.key);
        let mut authentication = [0u8; 16];
        derive_into(&c, nonce, 0, &mut authentication);
        let mut encryption = [0u8; K];
        derive_into(&c, nonce, 2, &mut encryption[..]);
        MessageKeys {
            authentication,
            element: polyval_key(&authentication),
            cipher: C::new(&encryption),
        }
    }

    /// Writes the ciphertext of `text` and its tag of 16 bytes into `out` (4). The nonce has 12 bytes, and `aad`
    /// is the associated data.
    ///
    /// # Errors
    /// `DataTooLong` where `aad` has more than 2^36 bytes, and else `TextTooLong` where `text` has. `out` is then as
    /// before.
    pub fn seal_into(&self, nonce: &[u8], aad: &[u8], text: &[u8], out: &mut [u8]) -> GcmResult
        requires nonce { length nonce.now ≡ 12 }
        requires room { length out.old ≡ length text.now + 16 }
        ensures { IsSealed (gcm_siv (cipher_of C.keyed C.encrypts) self.now.key nonce.now aad.now) MOST_GCM_SIV
            aad.now text.now out.old out.new result }
    {
        check_lengths(aad.len(), text.len(), MOST_TEXT)?;
        seal(&self.message_keys(nonce), nonce, aad, text, out);
        Ok(())
    }

    /// Writes the one text whose encryption is `sealed` into `out` (5). `out` has 16 bytes less, or none if
    /// `sealed` is shorter than 16 bytes. The body makes the text twice: for the tag, and to write it.
    ///
    /// # Errors
    /// `DataTooLong` if `aad` has more than 2^36 bytes. Else `TextTooLong` if `sealed` has more than 2^36 + 16. Else
    /// `DecryptFailed` if it is the encryption of no text. `out` is then as before.
    pub fn open_into(&self, nonce: &[u8], aad: &[u8], sealed: &[u8], out: &mut [u8]) -> GcmResult
        requires nonce { length nonce.now ≡ 12 }
        requires room { length out.old ≡ length sealed.now - 16 }
        ensures { IsOpened (gcm_siv (cipher_of C.keyed C.encrypts) self.now.key nonce.now aad.now) MOST_GCM_SIV
            aad.now sealed.now out.old out.new result }
    {
        check_lengths(aad.len(), sealed.len().saturating_sub(16), MOST_TEXT)?;
        if !open(&self.message_keys(nonce), nonce, aad, sealed, out) {
            return Err(GcmError::DecryptFailed);
        }
        Ok(())
    }
}
