//! The keys of streams in counter mode with HMAC.

ghost use Rattle.std.specs.Prelude.{◌≡◌};
ghost use Rattle.loading_model.specs.Building as building;
ghost use Rattle.tink_io.specs.Answering.{Answers, made_of, or_refused};
ghost use Rattle.tink_io.specs.declared.error.Kind.TheVariants.{InvalidKey};
ghost use Rattle.tink_primitives.specs.declared.primitive.Primitive.TheVariants as sorts;
ghost use Rattle.tink_key_manager.specs.Manager.{made_if};
ghost use Rattle.tink_key_manager.specs.ManagerLaws.{made_if_told};
ghost use Rattle.tink_streaming_keys.specs.declared.stream_kind.StreamKind.TheVariants as kinds;
ghost use Rattle.tink_streaming_managers.specs.KeyTypes as keys;
ghost use Rattle.tink_streaming_managers.specs.KeyTypeLaws.{made_or_invalid_told};

use crate::key_sizes::{are_key_sizes, hash_numbered, type_of};
use hash_keys::Hash;
use std::alloc::Global;
use tink_core_subtle::random::get_random_bytes;
use tink_io::{Draws, Kind, TinkError};
use tink_key_manager::{KeyType, SymmetricKeyManager};
use tink_primitives::Primitive;
use tink_proto_keys::{
    AesCtrHmacStreamingKey, AesCtrHmacStreamingKeyFormat, AesCtrHmacStreamingParams,
};
use tink_streaming_keys::{AesCtrHmac, StreamKind, StreamKinds};

/// The version of keys of streams in counter mode with HMAC.
pub const AES_CTR_HMAC_KEY_VERSION: u32 = 0;

/// The URL of keys of streams in counter mode with HMAC.
pub const AES_CTR_HMAC_TYPE_URL: &str =
    "type.googleapis.com/google.crypto.tink.AesCtrHmacStreamingKey";

/// The type of keys of streams in AES counter mode (SP 800-38A, section 6.5) with HMAC (FIPS 198-1) and HKDF
/// (RFC 5869). A key builds exactly if these facts hold. Its version is 0, and it has 16 or 32 bytes. There
/// are params and params of HMAC, and each names a hash. The derived AES key has 16 or 32 bytes and no more
/// than the key. The tag has from 10 bytes to a digest. The first segment has room for a header, a tag and
/// some text. A format makes a key exactly where the same holds of its version, params and key size.
pub struct AesCtrHmacKeys;

/// The manager of keys of streams in counter mode with HMAC.
pub type AesCtrHmacKeyManager = SymmetricKeyManager<AesCtrHmacKeys>;

/// What params name: hashes, and sizes in bytes.
#[derive(Clone, Copy)]
pub struct CtrHmacSizes {
    /// The hash of HKDF.
    pub hkdf_hash: Hash,
    /// The bytes of a derived AES key.
    pub derived: u32,
    /// The hash of HMAC.
    pub tag_hash: Hash,
    /// The bytes of a tag.
    pub tag: u32,
    /// The bytes of a segment.
    pub segment: u32,
}

// What params name, where there are params and params of HMAC, and each names a hash.
fn ctr_hmac_named(params: &Option<AesCtrHmacStreamingParams>) -> Option<CtrHmacSizes>
    ensures { result ≡ keys.ctr_hmac_named params.now }
{
    let Some(params) = params else {
        return None;
    };
    let Some(hmac) = &params.hmac_params else {
        return None;
    };
    let Some(hkdf_hash) = hash_numbered(params.hkdf_hash_type) else {
        return None;
    };
    let Some(tag_hash) = hash_numbered(hmac.hash) else {
        return None;
    };
    Some(CtrHmacSizes {
        hkdf_hash,
        derived: params.derived_key_size,
        tag_hash,
        tag: hmac.tag_size,
        segment: params.ciphertext_segment_size,
    })
}

// Whether a main key of so many bytes makes streams with these sizes.
fn is_streaming(main: usize, sizes: CtrHmacSizes) -> bool
    ensures { result ≡ building.is_streaming main sizes.derived sizes.tag_hash sizes.tag sizes.segment }
{
    let least = u64::from(sizes.derived) + 7 + u64::from(sizes.tag) + 2;
    are_key_sizes(main, sizes.derived)
        && 10 <= sizes.tag
        && sizes.tag as usize <= sizes.tag_hash.digest_size()
        && least <= u64::from(sizes.segment)
}

// The key with these sizes.
fn sized_key(alloc: Global, main: &[u8], sizes: CtrHmacSizes) -> Result<AesCtrHmac, TinkError>
    ensures { Answers result (or_refused InvalidKey (keys.ctr_hmac_sized main.now sizes)) }
{
    if !is_streaming(main.len(), sizes) {
        return Err(TinkError::new(Kind::InvalidKey));
    }
    AesCtrHmac::new(
        alloc,
        main,
        type_of(sizes.hkdf_hash),
        sizes.derived as usize,
        type_of(sizes.tag_hash),
        sizes.tag as usize,
        sizes.segment,
        0,
    )
}

/// The key of a message.
///
/// # Errors
/// `InvalidKey` exactly where the message builds no key of this type; `OutOfMemory`.
pub fn ctr_hmac_streaming_key(
    alloc: Global,
    key: &AesCtrHmacStreamingKey,
) -> Result<AesCtrHmac, TinkError>
    ensures { Answers result (or_refused InvalidKey (building.streaming_of key.now)) }
{
    if key.version != AES_CTR_HMAC_KEY_VERSION {
        return Err(TinkError::new(Kind::InvalidKey));
    }
    match ctr_hmac_named(&key.params) {
        Some(sizes) => sized_key(alloc, key.key_value.as_slice(), sizes),
        None => Err(TinkError::new(Kind::InvalidKey)),
    }
}

// Whether a format makes keys.
fn is_accepted(format: &AesCtrHmacStreamingKeyFormat) -> bool
    ensures { result ≡ keys.is_ctr_hmac_format format.now }
{
    if format.version != AES_CTR_HMAC_KEY_VERSION {
        return false;
    }
    match ctr_hmac_named(&format.params) {
        Some(sizes) => is_streaming(format.key_size as usize, sizes),
        None => false,
    }
}

impl KeyType for AesCtrHmacKeys {
    type Family = StreamKinds;

    type Key = AesCtrHmacStreamingKey;

    type Format = AesCtrHmacStreamingKeyFormat;

    ghost url = { building.aes_ctr_hmac_url };

    ghost built = { λ k. made_of (λ key. sorts.StreamingAead (kinds.CtrHmac key))
        (or_refused InvalidKey (building.streaming_of k)) };

    ghost made = { λ f draws. made_if (keys.is_ctr_hmac_format f) f.key_size (keys.new_ctr_hmac_key f) draws };

    fn url() -> &'static str {
        AES_CTR_HMAC_TYPE_URL
    }

    fn build(
        alloc: Global,
        key: AesCtrHmacStreamingKey,
    ) -> Result<Primitive<StreamKinds>, TinkError> {
        let built = ctr_hmac_streaming_key(alloc, &key)?;
        Ok(Primitive::StreamingAead(StreamKind::CtrHmac(built)))
    }

    fn make(
        alloc: Global,
        format: AesCtrHmacStreamingKeyFormat,
        draws: &mut Draws,
    ) -> Result<AesCtrHmacStreamingKey, TinkError> {
        if !is_accepted(&format) {
            return Err(TinkError::new(Kind::InvalidFormat));
        }
        let key_value = get_random_bytes(alloc, draws, format.key_size as usize)?;
        Ok(AesCtrHmacStreamingKey {
            version: AES_CTR_HMAC_KEY_VERSION,
            params: format.params,
            key_value,
        })
    }

    ghost built_told = { λ k. made_or_invalid_told (λ key. sorts.StreamingAead (kinds.CtrHmac key))
        (building.streaming_of k) };

    ghost made_told = { λ f draws. made_if_told (keys.is_ctr_hmac_format f) f.key_size
        (keys.new_ctr_hmac_key f) draws };
}
