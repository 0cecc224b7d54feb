//! The parts of a key of streams, without its main key.

ghost use Rattle.std.specs.Prelude.{◌≡◌, ◌⊎◌, ◌≤◌, ◌<◌, ◌+◌, [], Ok, length, nat_le};
ghost use Rattle.stream_model.specs.Key.{IsTag, IsUsable, StreamKey, derived_bytes_of, first_segment, fronted, header_length, nonce_size, nonce_size_of, overhead, overhead_of};
ghost use Rattle.tink_core_subtle.specs.Hashes.{hash_named};
ghost use Rattle.tink_io.specs.Answering.{Tells};
ghost use Rattle.tink_streaming_keys.specs.StreamingKeys.{Derives, IsDerived, cipher_of, deriving_hash, empty_key, is_key_size, kind_of, with_main};

use hash_keys::Hash;
use std::marker::Model;
use stream_model::derive_keys;
use tink_io::{Kind, TinkError};
use tink_proto::HashType;
use tink_streaming_ciphers::{
    AES_CTR_HMAC_KEY_SIZE_IN_BYTES, AES_CTR_HMAC_NONCE_SIZE_IN_BYTES,
    AES_GCM_HKDF_NONCE_SIZE_IN_BYTES, AES_GCM_HKDF_TAG_SIZE_IN_BYTES, CtrHmacSegment, GcmSegment,
    StreamSegment,
};

// The bytes of all derived keys at most.
const MAX_KEYS: usize = 64;

/// How segments are made: in counter mode with the first bytes of an HMAC, by a hash and a number
/// of bytes, or by GCM.
#[derive(Clone, Copy, Debug, PartialEq, Eq)]
pub enum SegmentParams {
    CtrHmac(Hash, usize),
    Gcm,
}

impl SegmentParams {
    // The bytes that a segment has more than its text.
    fn overhead(&self) -> usize
        requires { IsTag (kind_of self.now) }
        ensures value { result ≡ overhead_of (kind_of self.now) }
        ensures few { result ≤ 64 }
    {
        match self {
            SegmentParams::CtrHmac(hash, tag) => (*tag).min(hash.digest_size()),
            SegmentParams::Gcm => AES_GCM_HKDF_TAG_SIZE_IN_BYTES,
        }
    }

    // The bytes of a nonce.
    fn nonce_size(&self) -> usize
        ensures { result ≡ nonce_size_of (kind_of self.now) }
    {
        match self {
            SegmentParams::CtrHmac(_, _) => AES_CTR_HMAC_NONCE_SIZE_IN_BYTES,
            SegmentParams::Gcm => AES_GCM_HKDF_NONCE_SIZE_IN_BYTES,
        }
    }
}

/// The hashes of a key of streams and its sizes in bytes, which contracts see as a key with an
/// empty main key. A hash that is unknown is kept.
#[derive(Drop)]
pub struct StreamParams {
    hkdf_alg: HashType,
    derived: usize,
    cipher: SegmentParams,
    segment: u32,
    offset: u32,
}

impl Model for StreamParams {
    ghost use Rattle.stream_model.specs.Key.{StreamKey, IsUsable};
    ghost use Rattle.tink_core_subtle.specs.Hashes.{hash_named};
    ghost use Rattle.tink_streaming_keys.specs.StreamingKeys.{empty_key, kind_of};

    ghost Value = { StreamKey };

    ghost view = { λ p. empty_key (hash_named p.hkdf_alg) p.derived (kind_of p.cipher) p.segment p.offset };

    ghost invariant = { λ p. IsUsable (empty_key (hash_named p.hkdf_alg) p.derived
        (kind_of p.cipher) p.segment p.offset) };
}

impl StreamParams {
    /// These hashes and sizes in bytes, which leave the first segment room for some text.
    pub fn new(
        hkdf_alg: HashType,
        derived: usize,
        cipher: SegmentParams,
        segment: u32,
        offset: u32,
    ) -> StreamParams
        requires derived { (derived ≡ 16) ⊎ (derived ≡ 32) }
        requires tag { IsTag (kind_of cipher) }
        requires room { offset + derived + 8 + overhead_of (kind_of cipher) < segment }
        ensures value { result ≡ empty_key (hash_named hkdf_alg) derived (kind_of cipher) segment offset }
        ensures usable { IsUsable result }
    {
        StreamParams {
            hkdf_alg,
            derived,
            cipher,
            segment,
            offset,
        }
    }

    // The bytes that are derived: an AES key, and for HMAC a key of 32.
    fn derived_bytes(&self) -> usize
        ensures value { result ≡ derived_bytes_of self.now.kind self.now.derived }
        ensures few { result ≤ 64 }
    {
        match self.cipher {
            SegmentParams::CtrHmac(_, _) => self.derived + AES_CTR_HMAC_KEY_SIZE_IN_BYTES,
            SegmentParams::Gcm => self.derived,
        }
    }

    /// The same hashes and sizes.
    pub fn same(&self) -> StreamParams
        ensures { result ≡ self.now }
    {
        StreamParams {
            hkdf_alg: self.hkdf_alg,
            derived: self.derived,
            cipher: self.cipher,
            segment: self.segment,
            offset: self.offset,
        }
    }
}

/// Whether a main key may have `main` bytes and the AES keys derived from it `derived` bytes: 16 or 32, and no more
/// than `main`, which is 16 at least.
pub fn is_key_size(main: usize, derived: usize) -> bool
    ensures { result ≡ is_key_size main derived }
{
    let is_aes_size = derived == 16 || derived == 32;
    16 <= main && derived <= main && is_aes_size
}

/// Whether a first segment of `segment` bytes has no room for text.
pub fn is_small(derived: usize, cipher: SegmentParams, segment: u32, offset: u32) -> bool
    requires derived { derived ≤ 32 }
    requires tag { IsTag (kind_of cipher) }
    ensures { result ≡ nat_le segment (offset + derived + 8 + overhead_of (kind_of cipher)) }
{
    let least = u64::from(offset) + derived as u64 + 8 + cipher.overhead() as u64;
    u64::from(segment) <= least
}

// The hash by which HKDF derives keys.
fn deriving_hash(hash: HashType) -> Result<Hash, TinkError>
    ensures { Tells result (deriving_hash (hash_named hash)) }
{
    match hash {
        HashType::UnknownHash => Err(TinkError::new(Kind::UnknownHash)),
        HashType::Sha1 => Ok(Hash::Sha1),
        HashType::Sha224 => Err(TinkError::new(Kind::UnsupportedHash)),
        HashType::Sha256 => Ok(Hash::Sha256),
        HashType::Sha384 => Ok(Hash::Sha384),
        HashType::Sha512 => Ok(Hash::Sha512),
    }
}

// The cipher of segments under derived keys, the AES key first.
fn cipher_under(params: &StreamParams, keys: &[u8]) -> StreamSegment
    requires { length keys.now ≡ derived_bytes_of params.now.kind params.now.derived }
    ensures { result ≡ cipher_of params.now.kind params.now.derived keys.now }
{
    match params.cipher {
        SegmentParams::CtrHmac(hash, tag) => StreamSegment::CtrHmac(CtrHmacSegment::new(
            &keys[..params.derived],
            &keys[params.derived..],
            hash,
            tag,
        )),
        SegmentParams::Gcm => StreamSegment::Gcm(GcmSegment::new(keys)),
    }
}

// The cipher of segments under the keys that HKDF derives by a hash.
fn derived_cipher(
    params: &StreamParams,
    hash: Hash,
    main_key: &[u8],
    salt: &[u8],
    aad: &[u8],
) -> StreamSegment
    requires { deriving_hash params.now.hkdf_hash ≡ Ok hash }
    ensures { IsDerived (with_main main_key.now params.now) aad.now salt.now result }
{
    let size = params.derived_bytes();
    let mut keys = [0u8; MAX_KEYS];
    derive_keys(hash, main_key, salt, aad, &mut keys[..size]);
    cipher_under(params, &keys[..size])
}

/// A key of streams, from which HKDF derives the keys of each stream's segments (RFC 5869).
pub trait DerivesStreams {
    // the key as streams see it
    ghost key_of: { Self → StreamKey };

    /// The bytes from which keys are derived.
    fn main_key(&self) -> &[u8]
        ensures { result.now ≡ (key_of self.now).main };

    /// The hashes and sizes.
    fn params(&self) -> &StreamParams
        ensures value { key_of self.now
            ≡ fronted (key_of self.now).out (with_main (key_of self.now).main result.now) }
        ensures usable { IsUsable (key_of self.now) };

    /// The output prefix, which is before the header of a stream.
    fn output_prefix(&self) -> &[u8]
        ensures { result.now ≡ (key_of self.now).out };

    /// The bytes of a stream's header: a byte, a salt and a prefix of seven.
    final fn header_length(&self) -> usize
        ensures value { result ≡ header_length (key_of self.now) }
        ensures usable { IsUsable (key_of self.now) }
    {
        self.params().derived + 8
    }

    /// The bytes of a whole segment.
    final fn segment_size(&self) -> u32
        ensures value { result ≡ (key_of self.now).segment }
        ensures usable { IsUsable (key_of self.now) }
    {
        self.params().segment
    }

    /// The bytes of the first segment, which is shorter by the header and by what it leaves free.
    final fn first_segment_size(&self) -> u32
        ensures value { result ≡ first_segment (key_of self.now) }
        ensures usable { IsUsable (key_of self.now) }
    {
        let params = self.params();
        params.segment - params.derived as u32 - 8 - params.offset
    }

    /// The bytes that a segment has more than its text.
    final fn overhead(&self) -> usize
        ensures value { result ≡ overhead (key_of self.now) }
        ensures usable { IsUsable (key_of self.now) }
    {
        self.params().cipher.overhead()
    }

    /// The bytes of the derived AES key, and of a salt: 16 or 32.
    final fn derived_key_size(&self) -> usize
        ensures value { result ≡ (key_of self.now).derived }
        ensures usable { IsUsable (key_of self.now) }
    {
        self.params().derived
    }

    /// The bytes of a nonce.
    final fn nonce_size(&self) -> usize
        ensures value { result ≡ nonce_size (key_of self.now) }
    {
        self.params().cipher.nonce_size()
    }

    /// The cipher of a stream's segments, under the keys that HKDF derives with `salt` and with
    /// the associated data as info.
    ///
    /// # Errors
    /// `UnknownHash` exactly where HKDF's hash is unknown, `UnsupportedHash` exactly where it is
    /// SHA-224.
    final fn derive(&self, salt: &[u8], aad: &[u8]) -> Result<StreamSegment, TinkError>
        ensures { Derives (key_of self.now) aad.now salt.now result }
    {
        let params = self.params();
        let hash = deriving_hash(params.hkdf_alg)?;
        Ok(derived_cipher(params, hash, self.main_key(), salt, aad))
    }
}

impl<T: DerivesStreams> DerivesStreams for &T {
    ghost key_of = { λ k. T.key_of k.now };

    fn main_key(&self) -> &[u8] {
        T::main_key(*self)
    }

    fn params(&self) -> &StreamParams {
        T::params(*self)
    }

    fn output_prefix(&self) -> &[u8] {
        T::output_prefix(*self)
    }
}
