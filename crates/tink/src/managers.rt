//! The managers of all types of keys as one type.

ghost use Rattle.std.specs.Prelude.{◌≡◌, Err, false, bytes_eq, refl};
ghost use Rattle.tink_io.specs.declared.error.Kind.TheVariants.{NoPrivateKeys};
ghost use Rattle.tink_proto.specs.declared.enums.KeyMaterialType.TheVariants.{Symmetric};
ghost use Rattle.tink_key_manager.specs.ManagerLaws.{no_public_always, no_public_known};
ghost use Rattle.tink.specs.Managers.{row_of};
ghost use Rattle.tink.specs.declared.managers.Managers.TheVariants as managers;

use crate::building::{
    build_aead, build_deterministic_aead, build_mac, build_prf, build_streaming_aead, make,
};
use std::alloc::Global;
use tink_aead::{
    AeadKind, AesCtrHmacAeadKeyManager, AesCtrHmacAeadKeys, AesGcmKeyManager, AesGcmKeys,
    AesGcmSivKeyManager, AesGcmSivKeys,
};
use tink_daead::subtle::AesSiv;
use tink_daead::{AesSivKeyManager, AesSivKeys};
use tink_io::{Draws, Kind, TinkError};
use tink_key_manager::KeyType;
use tink_mac::{AesCmacKeyManager, AesCmacKeys, HmacKeyManager, HmacKeys, MacKind};
use tink_prf::{
    AesCmacPrfKeyManager, AesCmacPrfKeys, HkdfPrfKeyManager, HkdfPrfKeys, HmacPrfKeyManager,
    HmacPrfKeys, PrfKind,
};
use tink_primitives::{Kinds, Never, Primitive};
use tink_proto::{Bytes, KeyData, KeyMaterialType, Text};
use tink_registry::KeyManager;
use tink_streaming_aead::{
    AesCtrHmacKeyManager, AesCtrHmacKeys, AesGcmHkdfKeyManager, AesGcmHkdfKeys, StreamKind,
};

/// The family of all primitives that are here: pseudorandom functions, MACs, AEADs, streaming and deterministic AEADs.
pub struct TinkKinds;

impl Kinds for TinkKinds {
    type Aead = AeadKind;

    type DeterministicAead = AesSiv;

    type HybridDecrypt = Never;

    type HybridEncrypt = Never;

    type Mac = MacKind;

    type Prf = PrfKind;

    type Signer = Never;

    type StreamingAead = StreamKind;

    type Verifier = Never;
}

/// The manager of one of the eleven types of keys.
#[derive(Clone, Copy, Debug, PartialEq)]
pub enum Managers {
    /// Keys of pseudorandom functions by AES-CMAC.
    AesCmacPrf,
    /// Keys of pseudorandom functions by HKDF.
    HkdfPrf,
    /// Keys of pseudorandom functions by HMAC.
    HmacPrf,
    /// Keys of MACs by AES-CMAC.
    AesCmac,
    /// Keys of MACs by HMAC.
    Hmac,
    /// Keys of AEADs by AES-GCM.
    AesGcm,
    /// Keys of AEADs by AES-GCM-SIV.
    AesGcmSiv,
    /// Keys of AEADs by AES-CTR with HMAC.
    AesCtrHmacAead,
    /// Keys of streaming AEADs by AES-CTR with HMAC.
    AesCtrHmac,
    /// Keys of streaming AEADs by AES-GCM.
    AesGcmHkdf,
    /// Keys of deterministic AEADs by AES-SIV.
    AesSiv,
}

impl From<AesCmacPrfKeyManager> for Managers {
    ghost from_gives = { λ _ m. m ≡ managers.AesCmacPrf };

    fn from(_manager: AesCmacPrfKeyManager) -> Self {
        Managers::AesCmacPrf
    }
}

impl From<HkdfPrfKeyManager> for Managers {
    ghost from_gives = { λ _ m. m ≡ managers.HkdfPrf };

    fn from(_manager: HkdfPrfKeyManager) -> Self {
        Managers::HkdfPrf
    }
}

impl From<HmacPrfKeyManager> for Managers {
    ghost from_gives = { λ _ m. m ≡ managers.HmacPrf };

    fn from(_manager: HmacPrfKeyManager) -> Self {
        Managers::HmacPrf
    }
}

impl From<AesCmacKeyManager> for Managers {
    ghost from_gives = { λ _ m. m ≡ managers.AesCmac };

    fn from(_manager: AesCmacKeyManager) -> Self {
        Managers::AesCmac
    }
}

impl From<HmacKeyManager> for Managers {
    ghost from_gives = { λ _ m. m ≡ managers.Hmac };

    fn from(_manager: HmacKeyManager) -> Self {
        Managers::Hmac
    }
}

impl From<AesGcmKeyManager> for Managers {
    ghost from_gives = { λ _ m. m ≡ managers.AesGcm };

    fn from(_manager: AesGcmKeyManager) -> Self {
        Managers::AesGcm
    }
}

impl From<AesGcmSivKeyManager> for Managers {
    ghost from_gives = { λ _ m. m ≡ managers.AesGcmSiv };

    fn from(_manager: AesGcmSivKeyManager) -> Self {
        Managers::AesGcmSiv
    }
}

impl From<AesCtrHmacAeadKeyManager> for Managers {
    ghost from_gives = { λ _ m. m ≡ managers.AesCtrHmacAead };

    fn from(_manager: AesCtrHmacAeadKeyManager) -> Self {
        Managers::AesCtrHmacAead
    }
}

impl From<AesCtrHmacKeyManager> for Managers {
    ghost from_gives = { λ _ m. m ≡ managers.AesCtrHmac };

    fn from(_manager: AesCtrHmacKeyManager) -> Self {
        Managers::AesCtrHmac
    }
}

impl From<AesGcmHkdfKeyManager> for Managers {
    ghost from_gives = { λ _ m. m ≡ managers.AesGcmHkdf };

    fn from(_manager: AesGcmHkdfKeyManager) -> Self {
        Managers::AesGcmHkdf
    }
}

impl From<AesSivKeyManager> for Managers {
    ghost from_gives = { λ _ m. m ≡ managers.AesSiv };

    fn from(_manager: AesSivKeyManager) -> Self {
        Managers::AesSiv
    }
}

impl KeyManager for Managers {
    type Family = TinkKinds;

    ghost url = { λ m. (row_of m).url };

    ghost supports = { λ m url. bytes_eq (row_of m).url url };

    ghost material = { λ _. Symmetric };

    ghost builds = { λ m key. (row_of m).built key };

    ghost makes = { λ m format draws. (row_of m).made format draws };

    ghost makes_data = { λ m format draws. (row_of m).made_data format draws };

    ghost has_public = { λ _. false };

    ghost gives_public = { λ _ _. Err NoPrivateKeys };

    fn primitive(
        &self,
        alloc: Global,
        serialized_key: &[u8],
    ) -> Result<Primitive<TinkKinds>, TinkError> {
        match self {
            Managers::AesCmacPrf => build_prf::<AesCmacPrfKeys>(alloc, serialized_key),
            Managers::HkdfPrf => build_prf::<HkdfPrfKeys>(alloc, serialized_key),
            Managers::HmacPrf => build_prf::<HmacPrfKeys>(alloc, serialized_key),
            Managers::AesCmac => build_mac::<AesCmacKeys>(alloc, serialized_key),
            Managers::Hmac => build_mac::<HmacKeys>(alloc, serialized_key),
            Managers::AesGcm => build_aead::<AesGcmKeys>(alloc, serialized_key),
            Managers::AesGcmSiv => build_aead::<AesGcmSivKeys>(alloc, serialized_key),
            Managers::AesCtrHmacAead => build_aead::<AesCtrHmacAeadKeys>(alloc, serialized_key),
            Managers::AesCtrHmac => build_streaming_aead::<AesCtrHmacKeys>(alloc, serialized_key),
            Managers::AesGcmHkdf => build_streaming_aead::<AesGcmHkdfKeys>(alloc, serialized_key),
            Managers::AesSiv => build_deterministic_aead::<AesSivKeys>(alloc, serialized_key),
        }
    }

    fn new_key(
        &self,
        alloc: Global,
        serialized_key_format: &[u8],
        draws: &mut Draws,
    ) -> Result<Bytes, TinkError> {
        match self {
            Managers::AesCmacPrf => make::<AesCmacPrfKeys>(alloc, serialized_key_format, draws),
            Managers::HkdfPrf => make::<HkdfPrfKeys>(alloc, serialized_key_format, draws),
            Managers::HmacPrf => make::<HmacPrfKeys>(alloc, serialized_key_format, draws),
            Managers::AesCmac => make::<AesCmacKeys>(alloc, serialized_key_format, draws),
            Managers::Hmac => make::<HmacKeys>(alloc, serialized_key_format, draws),
            Managers::AesGcm => make::<AesGcmKeys>(alloc, serialized_key_format, draws),
            Managers::AesGcmSiv => make::<AesGcmSivKeys>(alloc, serialized_key_format, draws),
            Managers::AesCtrHmacAead => make::<AesCtrHmacAeadKeys>(
                alloc,
                serialized_key_format,
                draws,
            ),
            Managers::AesCtrHmac => make::<AesCtrHmacKeys>(alloc, serialized_key_format, draws),
            Managers::AesGcmHkdf => make::<AesGcmHkdfKeys>(alloc, serialized_key_format, draws),
            Managers::AesSiv => make::<AesSivKeys>(alloc, serialized_key_format, draws),
        }
    }

    fn does_support(&self, type_url: &str) -> bool {
        self.type_url() == type_url
    }

    fn type_url(&self) -> &str {
        match self {
            Managers::AesCmacPrf => AesCmacPrfKeys::url(),
            Managers::HkdfPrf => HkdfPrfKeys::url(),
            Managers::HmacPrf => HmacPrfKeys::url(),
            Managers::AesCmac => AesCmacKeys::url(),
            Managers::Hmac => HmacKeys::url(),
            Managers::AesGcm => AesGcmKeys::url(),
            Managers::AesGcmSiv => AesGcmSivKeys::url(),
            Managers::AesCtrHmacAead => AesCtrHmacAeadKeys::url(),
            Managers::AesCtrHmac => AesCtrHmacKeys::url(),
            Managers::AesGcmHkdf => AesGcmHkdfKeys::url(),
            Managers::AesSiv => AesSivKeys::url(),
        }
    }

    fn key_material_type(&self) -> KeyMaterialType {
        KeyMaterialType::Symmetric
    }

    fn new_key_data(
        &self,
        alloc: Global,
        serialized_key_format: &[u8],
        draws: &mut Draws,
    ) -> Result<KeyData, TinkError> {
        let type_url = Text::from_str(alloc, self.type_url())?;
        match self.new_key(alloc, serialized_key_format, draws) {
            Ok(value) => Ok(KeyData {
                type_url,
                value,
                key_material_type: KeyMaterialType::Symmetric as i32,
            }),
            Err(e) => Err(e),
        }
    }

    fn supports_private_keys(&self) -> bool {
        false
    }

    fn public_key_data(
        &self,
        _alloc: Global,
        _serialized_key: &[u8],
    ) -> Result<KeyData, TinkError> {
        Err(TinkError::new(Kind::NoPrivateKeys))
    }

    ghost builds_told = { λ m key. (row_of m).built_is_told key };

    ghost makes_told = { λ m format draws. (row_of m).made_is_told format draws };

    ghost makes_data_told = { λ m format draws. (row_of m).data_is_told format draws };

    ghost public_told = { λ _ _. tt };

    ghost new_material = { λ m format draws d is. (row_of m).data_is_known format draws d is };

    ghost public_material = { λ _ _ d is. no_public_known d is };

    ghost no_private = { λ _ _ _. refl };

    ghost private = { λ _ _ has _. no_public_always has };
}
