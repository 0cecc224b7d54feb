//! The keys of AES in counter mode with HMAC.

ghost use Rattle.std.specs.Prelude.{◌≡◌};
ghost use Rattle.tink_io.specs.Answering.{Answers, Replies, made_of};
ghost use Rattle.tink_primitives.specs.declared.primitive.Primitive.TheVariants as sorts;
ghost use Rattle.tink_aead.specs.declared.aead_kind.AeadKind.TheVariants as kinds;
ghost use Rattle.tink_core_subtle.specs.Random.{takes_bytes};
ghost use Rattle.tink_aead.specs.ComposedKeys.{are_ctr_params, composed_built, composed_made, composed_url, ctr_built};
ghost use Rattle.tink_aead.specs.ComposedKeys.{is_composed_format, mac_built, tag_size_of, with_hmac_key};
ghost use Rattle.tink_aead.specs.ComposedKeyLaws.{composed_built_told, composed_made_told};

use crate::subtle::{
    AES_BLOCK_SIZE_IN_BYTES, AES_CTR_MIN_IV_SIZE, AesCtr, EncryptThenAuthenticate,
    validate_aes_key_size,
};
use crate::versioned_key::is_versioned_key;
use crate::{AeadKind, AeadKinds};
use std::alloc::Global;
use tink_core_subtle::random::get_random_bytes;
use tink_io::{Draws, Kind, TinkError};
use tink_key_manager::{KeyType, SymmetricKeyManager};
use tink_mac::subtle::Hmac;
use tink_mac::{are_hmac_params, hmac_by_params};
use tink_primitives::Primitive;
use tink_proto_keys::{
    AesCtrHmacAeadKey, AesCtrHmacAeadKeyFormat, AesCtrKey, AesCtrKeyFormat, AesCtrParams, HmacKey,
    HmacKeyFormat,
};

/// The version of keys of AES in counter mode with HMAC, and of their parts.
pub const AES_CTR_HMAC_AEAD_KEY_VERSION: u32 = 0;

/// The URL of keys of AES in counter mode with HMAC.
pub const AES_CTR_HMAC_AEAD_TYPE_URL: &str =
    "type.googleapis.com/google.crypto.tink.AesCtrHmacAeadKey";

/// The type of keys of AES in counter mode (SP 800-38A, section 6.5) with HMAC (FIPS 198-1). A key builds
/// exactly if three facts hold. Its version and those of its parts are 0. The AES key has 16 or 32 bytes and
/// params with vectors of 12 to 16 bytes. The HMAC key builds an `Hmac`. A format makes a key exactly where
/// the same holds of its sizes and params; the AES key is drawn first.
pub struct AesCtrHmacAeadKeys;

/// The manager of keys of AES in counter mode with HMAC.
pub type AesCtrHmacAeadKeyManager = SymmetricKeyManager<AesCtrHmacAeadKeys>;

// Whether there are params, with vectors of 12 to 16 bytes.
fn are_ctr_params(params: &Option<AesCtrParams>) -> bool
    ensures { result ≡ are_ctr_params params.now }
{
    match params {
        Some(params) => {
            let iv_size = params.iv_size as usize;
            AES_CTR_MIN_IV_SIZE <= iv_size && iv_size <= AES_BLOCK_SIZE_IN_BYTES
        }
        None => false,
    }
}

// The cipher of a key.
fn ctr_of(alloc: Global, key: &Option<AesCtrKey>) -> Result<AesCtr, TinkError>
    ensures { Answers result (ctr_built key.now) }
{
    let Some(key) = key else {
        return Err(TinkError::new(Kind::InvalidKey));
    };
    if !is_versioned_key(key.version, key.key_value.as_slice()) || !are_ctr_params(&key.params) {
        return Err(TinkError::new(Kind::InvalidKey));
    }
    match &key.params {
        Some(params) => AesCtr::new(alloc, key.key_value.as_slice(), params.iv_size as usize),
        None => Err(TinkError::new(Kind::InvalidKey)),
    }
}

// The MAC of a key.
fn mac_of(alloc: Global, key: &Option<HmacKey>) -> Result<Hmac, TinkError>
    ensures { Answers result (mac_built key.now) }
{
    let Some(key) = key else {
        return Err(TinkError::new(Kind::InvalidKey));
    };
    if key.version != AES_CTR_HMAC_AEAD_KEY_VERSION {
        return Err(TinkError::new(Kind::InvalidKey));
    }
    hmac_by_params(alloc, &key.params, key.key_value.as_slice())
}

// The size of the tags of a key.
fn tag_size_of(key: &Option<HmacKey>) -> usize
    ensures { result ≡ tag_size_of key.now }
{
    match key {
        Some(key) => match &key.params {
            Some(params) => params.tag_size as usize,
            None => 0,
        },
        None => 0,
    }
}

// The cipher and the MAC of a key.
fn composed_of(
    alloc: Global,
    key: &AesCtrHmacAeadKey,
) -> Result<EncryptThenAuthenticate<AesCtr, Hmac>, TinkError>
    ensures { Answers result (composed_built key.now) }
{
    if key.version != AES_CTR_HMAC_AEAD_KEY_VERSION {
        return Err(TinkError::new(Kind::InvalidKey));
    }
    let cipher = ctr_of(alloc, &key.aes_ctr_key)?;
    match mac_of(alloc, &key.hmac_key) {
        Ok(mac) => EncryptThenAuthenticate::new(cipher, mac, tag_size_of(&key.hmac_key)),
        Err(e) => Err(e),
    }
}

// Whether keys of a cipher and of a MAC are made of these formats.
fn is_composed_format(a: &AesCtrKeyFormat, h: &HmacKeyFormat) -> bool
    ensures { result ≡ is_composed_format a.now h.now }
{
    validate_aes_key_size(a.key_size as usize).is_ok()
        && are_ctr_params(&a.params)
        && are_hmac_params(&h.params, h.key_size)
}

// A new key of the formats of its parts.
fn make_of_parts(
    alloc: Global,
    a: AesCtrKeyFormat,
    h: HmacKeyFormat,
    draws: &mut Draws,
) -> Result<AesCtrHmacAeadKey, TinkError>
    ensures { Replies result (with_hmac_key a h (takes_bytes a.key_size draws.old)) draws.old draws.new }
{
    let aes_key = get_random_bytes(alloc, draws, a.key_size as usize)?;
    match get_random_bytes(alloc, draws, h.key_size as usize) {
        Ok(hmac_key) => Ok(AesCtrHmacAeadKey {
            version: AES_CTR_HMAC_AEAD_KEY_VERSION,
            aes_ctr_key: Some(AesCtrKey {
                version: AES_CTR_HMAC_AEAD_KEY_VERSION,
                params: a.params,
                key_value: aes_key,
            }),
            hmac_key: Some(HmacKey {
                version: AES_CTR_HMAC_AEAD_KEY_VERSION,
                params: h.params,
                key_value: hmac_key,
            }),
        }),
        Err(e) => Err(e),
    }
}

impl KeyType for AesCtrHmacAeadKeys {
    type Family = AeadKinds;

    type Key = AesCtrHmacAeadKey;

    type Format = AesCtrHmacAeadKeyFormat;

    ghost url = { composed_url };

    ghost built = { λ k. made_of (λ a. sorts.Aead (kinds.AesCtrHmac a)) (composed_built k) };

    ghost made = { composed_made };

    fn url() -> &'static str {
        "type.googleapis.com/google.crypto.tink.AesCtrHmacAeadKey"
    }

    fn build(alloc: Global, key: AesCtrHmacAeadKey) -> Result<Primitive<AeadKinds>, TinkError> {
        match composed_of(alloc, &key) {
            Ok(aead) => Ok(Primitive::Aead(AeadKind::AesCtrHmac(aead))),
            Err(e) => Err(e),
        }
    }

    fn make(
        alloc: Global,
        format: AesCtrHmacAeadKeyFormat,
        draws: &mut Draws,
    ) -> Result<AesCtrHmacAeadKey, TinkError> {
        let (Some(a), Some(h)) = (format.aes_ctr_key_format, format.hmac_key_format) else {
            return Err(TinkError::new(Kind::InvalidFormat));
        };
        if !is_composed_format(&a, &h) {
            return Err(TinkError::new(Kind::InvalidFormat));
        }
        make_of_parts(alloc, a, h, draws)
    }

    ghost built_told = { λ k. composed_built_told (λ a. sorts.Aead (kinds.AesCtrHmac a)) k };

    ghost made_told = { composed_made_told };
}
