//! The keys of AES-CMAC.

ghost use Rattle.std.specs.Prelude.{◌≡◌};
ghost use Rattle.tink_io.specs.Answering.{Answers, made_of};
ghost use Rattle.tink_primitives.specs.declared.primitive.Primitive.TheVariants as sorts;
ghost use Rattle.tink_key_manager.specs.Manager.{made_if};
ghost use Rattle.tink_key_manager.specs.ManagerLaws.{made_if_told};
ghost use Rattle.tink_mac.specs.declared.mac_kind.MacKind.TheVariants as kinds;
ghost use Rattle.tink_mac.specs.KeyTypes.{are_cmac_params, cmac_built, cmac_by_params, cmac_url, new_cmac_key};
ghost use Rattle.tink_mac.specs.KeyTypeLaws.{cmac_built_told};

use crate::subtle::{AesCmac, validate_cmac_params};
use crate::{MacKind, MacKinds};
use std::alloc::Global;
use tink_core_subtle::random::get_random_bytes;
use tink_io::{Draws, Kind, TinkError};
use tink_key_manager::{KeyType, SymmetricKeyManager};
use tink_primitives::Primitive;
use tink_proto_keys::{AesCmacKey, AesCmacKeyFormat, AesCmacParams};

/// The version of AES-CMAC keys.
pub const CMAC_KEY_VERSION: u32 = 0;

/// The URL of AES-CMAC keys.
pub const CMAC_TYPE_URL: &str = "type.googleapis.com/google.crypto.tink.AesCmacKey";

/// The type of AES-CMAC keys (SP 800-38B). A key builds exactly where its version is 0, and it has 32 bytes and params
/// with tags of 10 to 16 bytes. A format makes a key exactly where the same holds of its params and key size.
pub struct AesCmacKeys;

/// The manager of AES-CMAC keys.
pub type AesCmacKeyManager = SymmetricKeyManager<AesCmacKeys>;

// Whether keys of a size are made with these params.
fn are_cmac_params(params: &Option<AesCmacParams>, key_size: usize) -> bool
    ensures { result ≡ are_cmac_params params.now key_size }
{
    match params {
        Some(params) => validate_cmac_params(key_size, params.tag_size as usize).is_ok(),
        None => false,
    }
}

// The MAC of a key's params and bytes.
fn cmac_by_params(
    alloc: Global,
    params: &Option<AesCmacParams>,
    key: &[u8],
) -> Result<AesCmac, TinkError>
    ensures { Answers result (cmac_by_params params.now key.now) }
{
    let Some(params) = params else {
        return Err(TinkError::new(Kind::InvalidKey));
    };
    let tag_size = params.tag_size as usize;
    if validate_cmac_params(key.len(), tag_size).is_err() {
        return Err(TinkError::new(Kind::InvalidKey));
    }
    AesCmac::new(alloc, key, tag_size)
}

impl KeyType for AesCmacKeys {
    type Family = MacKinds;

    type Key = AesCmacKey;

    type Format = AesCmacKeyFormat;

    ghost url = { cmac_url };

    ghost built = { λ k. made_of (λ m. sorts.Mac (kinds.AesCmac m)) (cmac_built k) };

    ghost made = { λ f draws. made_if (are_cmac_params f.params f.key_size) f.key_size (new_cmac_key f) draws };

    fn url() -> &'static str {
        CMAC_TYPE_URL
    }

    fn build(alloc: Global, key: AesCmacKey) -> Result<Primitive<MacKinds>, TinkError> {
        if key.version != CMAC_KEY_VERSION {
            return Err(TinkError::new(Kind::InvalidKey));
        }
        let mac = cmac_by_params(alloc, &key.params, key.key_value.as_slice())?;
        Ok(Primitive::Mac(MacKind::AesCmac(mac)))
    }

    fn make(
        alloc: Global,
        format: AesCmacKeyFormat,
        draws: &mut Draws,
    ) -> Result<AesCmacKey, TinkError> {
        if !are_cmac_params(&format.params, format.key_size as usize) {
            return Err(TinkError::new(Kind::InvalidFormat));
        }
        let key_value = get_random_bytes(alloc, draws, format.key_size as usize)?;
        Ok(AesCmacKey {
            version: CMAC_KEY_VERSION,
            key_value,
            params: format.params,
        })
    }

    ghost built_told = { λ k. cmac_built_told (λ m. sorts.Mac (kinds.AesCmac m)) k };

    ghost made_told = { λ f draws. made_if_told (are_cmac_params f.params f.key_size) f.key_size
        (new_cmac_key f) draws };
}
