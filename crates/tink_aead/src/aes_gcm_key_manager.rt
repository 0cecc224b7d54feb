//! The keys of AES-GCM.

ghost use Rattle.tink_primitives.specs.declared.primitive.Primitive.TheVariants as sorts;
ghost use Rattle.tink_key_manager.specs.Manager.{built_if, made_if};
ghost use Rattle.tink_key_manager.specs.ManagerLaws.{built_if_told, made_if_told};
ghost use Rattle.tink_aead.specs.declared.aead_kind.AeadKind.TheVariants as kinds;
ghost use Rattle.tink_aead_subtle.specs.KeySizes.{is_aes_key_size};
ghost use Rattle.tink_aead.specs.KeyTypes.{gcm_url, is_versioned_key, new_gcm_key};

use crate::subtle::{AesGcm, validate_aes_key_size};
use crate::versioned_key::is_versioned_key;
use crate::{AeadKind, AeadKinds};
use std::alloc::Global;
use tink_core_subtle::random::get_random_bytes;
use tink_io::{Draws, Kind, TinkError};
use tink_key_manager::{KeyType, SymmetricKeyManager};
use tink_primitives::Primitive;
use tink_proto_keys::{AesGcmKey, AesGcmKeyFormat};

/// The version of AES-GCM keys.
pub const AES_GCM_KEY_VERSION: u32 = 0;

/// The URL of AES-GCM keys.
pub const AES_GCM_TYPE_URL: &str = "type.googleapis.com/google.crypto.tink.AesGcmKey";

/// The type of AES-GCM keys (SP 800-38D). A key builds exactly where its version is 0 and it has 16 or 32
/// bytes. A format makes a key exactly where its key size is one of these.
pub struct AesGcmKeys;

/// The manager of AES-GCM keys.
pub type AesGcmKeyManager = SymmetricKeyManager<AesGcmKeys>;

impl KeyType for AesGcmKeys {
    type Family = AeadKinds;

    type Key = AesGcmKey;

    type Format = AesGcmKeyFormat;

    ghost url = { gcm_url };

    ghost built = { λ k. built_if (is_versioned_key k.version k.key_value)
        (sorts.Aead (kinds.AesGcm (record { key = k.key_value }))) };

    ghost made = { λ f draws. made_if (is_aes_key_size f.key_size) f.key_size new_gcm_key draws };

    fn url() -> &'static str {
        "type.googleapis.com/google.crypto.tink.AesGcmKey"
    }

    fn build(alloc: Global, key: AesGcmKey) -> Result<Primitive<AeadKinds>, TinkError> {
        if !is_versioned_key(key.version, key.key_value.as_slice()) {
            return Err(TinkError::new(Kind::InvalidKey));
        }
        match AesGcm::new(alloc, key.key_value.as_slice()) {
            Ok(aead) => Ok(Primitive::Aead(AeadKind::AesGcm(aead))),
            Err(e) => Err(e),
        }
    }

    fn make(
        alloc: Global,
        format: AesGcmKeyFormat,
        draws: &mut Draws,
    ) -> Result<AesGcmKey, TinkError> {
        if validate_aes_key_size(format.key_size as usize).is_err() {
            return Err(TinkError::new(Kind::InvalidFormat));
        }
        match get_random_bytes(alloc, draws, format.key_size as usize) {
            Ok(key_value) => Ok(AesGcmKey {
                version: AES_GCM_KEY_VERSION,
                key_value,
            }),
            Err(e) => Err(e),
        }
    }

    ghost built_told = { λ k. built_if_told (is_versioned_key k.version k.key_value) _ };

    ghost made_told = { λ f draws. made_if_told (is_aes_key_size f.key_size) f.key_size new_gcm_key draws };
}
