//! The keys of AES-GCM-SIV.

ghost use Rattle.tink_primitives.specs.declared.primitive.Primitive.TheVariants as sorts;
ghost use Rattle.tink_key_manager.specs.Manager.{built_if, made_if};
ghost use Rattle.tink_key_manager.specs.ManagerLaws.{built_if_told, made_if_told};
ghost use Rattle.tink_aead.specs.declared.aead_kind.AeadKind.TheVariants as kinds;
ghost use Rattle.tink_aead_subtle.specs.KeySizes.{is_aes_key_size};
ghost use Rattle.tink_aead.specs.KeyTypes.{gcm_siv_url, is_versioned_key, new_gcm_siv_key};

use crate::subtle::{AesGcmSiv, validate_aes_key_size};
use crate::versioned_key::is_versioned_key;
use crate::{AeadKind, AeadKinds};
use std::alloc::Global;
use tink_core_subtle::random::get_random_bytes;
use tink_io::{Draws, Kind, TinkError};
use tink_key_manager::{KeyType, SymmetricKeyManager};
use tink_primitives::Primitive;
use tink_proto_keys::{AesGcmSivKey, AesGcmSivKeyFormat};

/// The version of AES-GCM-SIV keys.
pub const AES_GCM_SIV_KEY_VERSION: u32 = 0;

/// The URL of AES-GCM-SIV keys.
pub const AES_GCM_SIV_TYPE_URL: &str = "type.googleapis.com/google.crypto.tink.AesGcmSivKey";

/// The type of AES-GCM-SIV keys (RFC 8452). A key builds exactly where its version is 0 and it has 16 or 32
/// bytes. A format makes a key exactly where its key size is one of these.
pub struct AesGcmSivKeys;

/// The manager of AES-GCM-SIV keys.
pub type AesGcmSivKeyManager = SymmetricKeyManager<AesGcmSivKeys>;

impl KeyType for AesGcmSivKeys {
    type Family = AeadKinds;

    type Key = AesGcmSivKey;

    type Format = AesGcmSivKeyFormat;

    ghost url = { gcm_siv_url };

    ghost built = { λ k. built_if (is_versioned_key k.version k.key_value)
        (sorts.Aead (kinds.AesGcmSiv (record { key = k.key_value }))) };

    ghost made = { λ f draws. made_if (is_aes_key_size f.key_size) f.key_size new_gcm_siv_key draws };

    fn url() -> &'static str {
        "type.googleapis.com/google.crypto.tink.AesGcmSivKey"
    }

    fn build(alloc: Global, key: AesGcmSivKey) -> Result<Primitive<AeadKinds>, TinkError> {
        if !is_versioned_key(key.version, key.key_value.as_slice()) {
            return Err(TinkError::new(Kind::InvalidKey));
        }
        match AesGcmSiv::new(alloc, key.key_value.as_slice()) {
            Ok(aead) => Ok(Primitive::Aead(AeadKind::AesGcmSiv(aead))),
            Err(e) => Err(e),
        }
    }

    fn make(
        alloc: Global,
        format: AesGcmSivKeyFormat,
        draws: &mut Draws,
    ) -> Result<AesGcmSivKey, TinkError> {
        if validate_aes_key_size(format.key_size as usize).is_err() {
            return Err(TinkError::new(Kind::InvalidFormat));
        }
        match get_random_bytes(alloc, draws, format.key_size as usize) {
            Ok(key_value) => Ok(AesGcmSivKey {
                version: AES_GCM_SIV_KEY_VERSION,
                key_value,
            }),
            Err(e) => Err(e),
        }
    }

    ghost built_told = { λ k. built_if_told (is_versioned_key k.version k.key_value) _ };

    ghost made_told = { λ f draws. made_if_told (is_aes_key_size f.key_size) f.key_size new_gcm_siv_key draws };
}
