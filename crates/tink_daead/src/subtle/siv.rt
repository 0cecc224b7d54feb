//! SIV (RFC 5297) over any cipher with blocks of 16 bytes.

ghost use Rattle.std.specs.Prelude.{◌≡◌, ⊤, ◌+◌, ◌↔◌, length, IsTrue, MatchOption};
ghost use Rattle.std.specs.Int.{w128};
ghost use Rattle.standards.specs.Counter.{ctr, plus_be};
ghost use Rattle.standards.specs.Siv.{s2v, siv, siv_counter};
ghost use Rattle.cipher_stream.specs.ByteStream.{HasRoom, bytes_from, to_come};
ghost use Rattle.cipher_stream.specs.Keystream.{xored};

use cipher::{BlockCipherEncrypt, InnerIvInit, KeyInit};
use cipher_stream::{StreamCipher, StreamCipherCore, StreamCipherCoreWrapper};
use ctr::{CtrCore, flavors};
use hash_keys::s2v_into;

/// The bytes of the synthetic initialization vector V (RFC 5297, section 2.6).
pub const SIV_SIZE: usize = 16;

// What the first counter block keeps of two bytes of V (2.6).
const KEPT_BITS: u8 = 0x7f;

/// A cipher under each of two keys: the first computes V, the second encrypts (RFC 5297, section 2.6).
#[derive(Drop)]
pub struct SivPair<C> {
    /// The cipher that computes V.
    pub mac: C,
    /// The cipher of the counter mode.
    pub counter: C,
}

/// The ciphers under two keys, if each key has the cipher's size in bytes.
pub fn pair_of<C: KeyInit<K> + Drop, const K: usize>(
    mac: &[u8],
    counter: &[u8],
) -> Option<SivPair<C>>
    ensures some { MatchOption result (length mac.now ≡ K → length counter.now ≡ K → ⊥)
        (λ pair. (pair.mac ≡ C.keyed mac.now) × (pair.counter ≡ C.keyed counter.now)) }
    ensures sized { MatchOption result ⊤ (λ _. (length mac.now ≡ K) × (length counter.now ≡ K)) }
{
    match (C::new_from_slice(mac), C::new_from_slice(counter)) {
        (Ok(mac), Ok(counter)) => Some(SivPair { mac, counter }),
        _ => None,
    }
}

// The first counter block of V: two of its bits are cleared (2.6).
fn counter_block(v: &[u8; SIV_SIZE]) -> [u8; SIV_SIZE]
    ensures { result ≡ siv_counter v.now }
{
    let mut block = *v;
    block[8] &= KEPT_BITS;
    block[12] &= KEPT_BITS;
    block
}

// By the cipher over a core.
fn apply_core<T: StreamCipherCore<16>>(core: T, bytes: &mut [u8])
    requires { HasRoom 16 (T.remaining core) 0 (length bytes.old) }
    ensures { bytes.new ≡ xored (to_come (bytes_from 16 (T.keystream core) 0)) bytes.old }
{
    let mut cipher = StreamCipherCoreWrapper::from_core(core);
    cipher.apply_keystream(bytes);
}

// Puts the bytes in counter mode from a block on, which counts as a whole, in their place (2.5).
fn apply_counter_mode<C: BlockCipherEncrypt<16>>(c: &C, block: &[u8; 16], bytes: &mut [u8])
    ensures { bytes.new ≡ ctr (C.encrypts c.now) (plus_be w128) block.now bytes.old }
{
    let core = CtrCore::<&C, flavors::Ctr128BE, 16>::inner_iv_init(c, block);
    apply_core(core, bytes);
}

// Whether these are the same bytes, compared as one number.
fn is_same(a: &[u8; SIV_SIZE], b: &[u8; SIV_SIZE]) -> bool
    ensures { IsTrue result ↔ (a.now ≡ b.now) }
{
    u128::from_be_bytes(*a) ^ u128::from_be_bytes(*b) == 0
}

impl<C: BlockCipherEncrypt<16>> SivPair<C> {
    /// Fills `out` with V (16 bytes) and the plaintext in counter mode (RFC 5297, section 2.6).
    pub fn seal_into(&self, aad: &[u8], text: &[u8], out: &mut [u8])
        requires { length out.old ≡ 16 + length text.now }
        ensures { out.new ≡ siv (C.encrypts self.now.mac) (C.encrypts self.now.counter) aad.now text.now }
    {
        let mut v = [0u8; SIV_SIZE];
        s2v_into(&self.mac, aad, text, &mut v);
        out[..SIV_SIZE].copy_from_slice(&v);
        self.encrypt_into(&v, text, &mut out[SIV_SIZE..]);
    }

    // Fills `out` with the text in counter mode under V.
    fn encrypt_into(&self, v: &[u8; SIV_SIZE], text: &[u8], out: &mut [u8])
        requires { length out.old ≡ length text.now }
        ensures { out.new ≡ ctr (C.encrypts self.now.counter) (plus_be w128) (siv_counter v.now) text.now }
    {
        out.copy_from_slice(text);
        apply_counter_mode(&self.counter, &counter_block(v), out);
    }

    /// Writes the plaintext of a ciphertext into its place, and answers whether V is that of the plaintext (RFC 5297,
    /// section 2.7).
    pub fn open(&self, aad: &[u8], v: &[u8; SIV_SIZE], bytes: &mut [u8]) -> bool
        ensures text { bytes.new ≡ ctr (C.encrypts self.now.counter) (plus_be w128) (siv_counter v.now) bytes.old }
        ensures value { IsTrue result ↔ (s2v (C.encrypts self.now.mac) aad.now bytes.new ≡ v.now) }
    {
        apply_counter_mode(&self.counter, &counter_block(v), bytes);
        let mut own = [0u8; SIV_SIZE];
        s2v_into(&self.mac, aad, bytes, &mut own);
        is_same(&own, v)
    }
}
