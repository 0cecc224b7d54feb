//! The keys of streams by AES-GCM.

ghost use Rattle.std.specs.Prelude.{◌≡◌};
ghost use Rattle.loading_model.specs.Building as building;
ghost use Rattle.tink_io.specs.Answering.{Answers, made_of, or_refused};
ghost use Rattle.tink_io.specs.declared.error.Kind.TheVariants.{InvalidKey};
ghost use Rattle.tink_primitives.specs.declared.primitive.Primitive.TheVariants as sorts;
ghost use Rattle.tink_key_manager.specs.Manager.{made_if};
ghost use Rattle.tink_key_manager.specs.ManagerLaws.{made_if_told};
ghost use Rattle.tink_streaming_keys.specs.declared.stream_kind.StreamKind.TheVariants as kinds;
ghost use Rattle.tink_streaming_managers.specs.KeyTypes as keys;
ghost use Rattle.tink_streaming_managers.specs.KeyTypeLaws.{made_or_invalid_told};

use crate::key_sizes::{are_key_sizes, hash_numbered, type_of};
use hash_keys::Hash;
use std::alloc::Global;
use tink_core_subtle::random::get_random_bytes;
use tink_io::{Draws, Kind, TinkError};
use tink_key_manager::{KeyType, SymmetricKeyManager};
use tink_primitives::Primitive;
use tink_proto_keys::{
    AesGcmHkdfStreamingKey, AesGcmHkdfStreamingKeyFormat, AesGcmHkdfStreamingParams,
};
use tink_streaming_keys::{AesGcmHkdf, StreamKind, StreamKinds};

/// The version of keys of streams by AES-GCM.
pub const AES_GCM_HKDF_KEY_VERSION: u32 = 0;

/// The URL of keys of streams by AES-GCM.
pub const AES_GCM_HKDF_TYPE_URL: &str =
    "type.googleapis.com/google.crypto.tink.AesGcmHkdfStreamingKey";

/// The type of keys of streams by AES-GCM (SP 800-38D) and HKDF (RFC 5869). A key builds exactly if these
/// facts hold. Its version is 0, and it has 16 or 32 bytes. There are params that name a hash. The derived
/// AES key has 16 or 32 bytes and no more than the key. The first segment has room for a header, a tag of 16
/// bytes and some text. A format of whatever version makes a key exactly where the same holds of its params
/// and key size.
pub struct AesGcmHkdfKeys;

/// The manager of keys of streams by AES-GCM.
pub type AesGcmHkdfKeyManager = SymmetricKeyManager<AesGcmHkdfKeys>;

/// What params name: a hash, and sizes in bytes.
#[derive(Clone, Copy)]
pub struct GcmHkdfSizes {
    /// The hash of HKDF.
    pub hkdf_hash: Hash,
    /// The bytes of a derived AES key.
    pub derived: u32,
    /// The bytes of a segment.
    pub segment: u32,
}

// What params name, where there are params that name a hash.
fn gcm_hkdf_named(params: &Option<AesGcmHkdfStreamingParams>) -> Option<GcmHkdfSizes>
    ensures { result ≡ keys.gcm_hkdf_named params.now }
{
    let Some(params) = params else {
        return None;
    };
    let Some(hkdf_hash) = hash_numbered(params.hkdf_hash_type) else {
        return None;
    };
    Some(GcmHkdfSizes {
        hkdf_hash,
        derived: params.derived_key_size,
        segment: params.ciphertext_segment_size,
    })
}

// Whether a main key of so many bytes makes streams with these sizes.
fn is_streaming(main: usize, sizes: GcmHkdfSizes) -> bool
    ensures { result ≡ building.is_gcm_streaming main sizes.derived sizes.segment }
{
    let least = u64::from(sizes.derived) + 25;
    are_key_sizes(main, sizes.derived) && least <= u64::from(sizes.segment)
}

// The key with these sizes.
fn sized_key(alloc: Global, main: &[u8], sizes: GcmHkdfSizes) -> Result<AesGcmHkdf, TinkError>
    ensures { Answers result (or_refused InvalidKey (keys.gcm_hkdf_sized main.now sizes)) }
{
    if !is_streaming(main.len(), sizes) {
        return Err(TinkError::new(Kind::InvalidKey));
    }
    AesGcmHkdf::new(
        alloc,
        main,
        type_of(sizes.hkdf_hash),
        sizes.derived as usize,
        sizes.segment,
        0,
    )
}

// The key of a message.
fn streaming_key(alloc: Global, key: &AesGcmHkdfStreamingKey) -> Result<AesGcmHkdf, TinkError>
    ensures { Answers result (or_refused InvalidKey (building.gcm_hkdf_of key.now)) }
{
    if key.version != AES_GCM_HKDF_KEY_VERSION {
        return Err(TinkError::new(Kind::InvalidKey));
    }
    match gcm_hkdf_named(&key.params) {
        Some(sizes) => sized_key(alloc, key.key_value.as_slice(), sizes),
        None => Err(TinkError::new(Kind::InvalidKey)),
    }
}

// Whether a format makes keys.
fn is_accepted(format: &AesGcmHkdfStreamingKeyFormat) -> bool
    ensures { result ≡ keys.is_gcm_hkdf_format format.now }
{
    match gcm_hkdf_named(&format.params) {
        Some(sizes) => is_streaming(format.key_size as usize, sizes),
        None => false,
    }
}

impl KeyType for AesGcmHkdfKeys {
    type Family = StreamKinds;

    type Key = AesGcmHkdfStreamingKey;

    type Format = AesGcmHkdfStreamingKeyFormat;

    ghost url = { building.aes_gcm_hkdf_url };

    ghost built = { λ k. made_of (λ key. sorts.StreamingAead (kinds.GcmHkdf key))
        (or_refused InvalidKey (building.gcm_hkdf_of k)) };

    ghost made = { λ f draws. made_if (keys.is_gcm_hkdf_format f) f.key_size (keys.new_gcm_hkdf_key f) draws };

    fn url() -> &'static str {
        AES_GCM_HKDF_TYPE_URL
    }

    fn build(
        alloc: Global,
        key: AesGcmHkdfStreamingKey,
    ) -> Result<Primitive<StreamKinds>, TinkError> {
        let built = streaming_key(alloc, &key)?;
        Ok(Primitive::StreamingAead(StreamKind::GcmHkdf(built)))
    }

    fn make(
        alloc: Global,
        format: AesGcmHkdfStreamingKeyFormat,
        draws: &mut Draws,
    ) -> Result<AesGcmHkdfStreamingKey, TinkError> {
        if !is_accepted(&format) {
            return Err(TinkError::new(Kind::InvalidFormat));
        }
        let key_value = get_random_bytes(alloc, draws, format.key_size as usize)?;
        Ok(AesGcmHkdfStreamingKey {
            version: AES_GCM_HKDF_KEY_VERSION,
            params: format.params,
            key_value,
        })
    }

    ghost built_told = { λ k. made_or_invalid_told (λ key. sorts.StreamingAead (kinds.GcmHkdf key))
        (building.gcm_hkdf_of k) };

    ghost made_told = { λ f draws. made_if_told (keys.is_gcm_hkdf_format f) f.key_size
        (keys.new_gcm_hkdf_key f) draws };
}
