//! The manager of a type of keys.

ghost use Rattle.std.specs.Prelude.{◌≡◌, Ok, Err, false, bytes_eq};
ghost use Rattle.tink_io.specs.Answering.{Answers, Replies};
ghost use Rattle.tink_io.specs.declared.error.Kind.TheVariants.{NoPrivateKeys};
ghost use Rattle.tink_proto.specs.declared.enums.KeyMaterialType.TheVariants.{Symmetric};
ghost use Rattle.tink_key_manager.specs.Manager.{builds, makes, makes_data, message_of, new_message};

use crate::KeyType;
use std::alloc::Global;
use std::marker::PhantomData;
use tink_io::{Draws, Kind, TinkError};
use tink_primitives::Primitive;
use tink_proto::wire::Message;
use tink_proto::{Bytes, KeyData, KeyMaterialType, ProtoError, Text};
use tink_registry::KeyManager;

/// The manager of a type of symmetric keys.
#[derive(Drop)]
pub struct SymmetricKeyManager<T> {
    keys: PhantomData<T>,
}

impl<T: KeyType> SymmetricKeyManager<T> {
    /// The manager of `T`'s keys. It holds nothing, so that there is one.
    pub fn new() -> Self
        ensures { result ≡ record { keys = record {} } }
    {
        SymmetricKeyManager { keys: PhantomData }
    }
}

// The message of some bytes, or none where there are none or they are not the message.
fn decode<M: Message>(alloc: Global, bytes: &[u8]) -> Result<Option<M>, TinkError>
    ensures { Answers result (Ok (message_of M.table bytes.now)) }
{
    if bytes.is_empty() {
        return Ok(None);
    }
    match M::decode(alloc, bytes) {
        Ok(message) => Ok(Some(message)),
        Err(ProtoError::OutOfMemory) => Err(TinkError::new(Kind::OutOfMemory)),
        Err(_) => Ok(None),
    }
}

// The primitive of a key's bytes.
fn build_bytes<T: KeyType>(
    alloc: Global,
    serialized_key: &[u8],
) -> Result<Primitive<T::Family>, TinkError>
    ensures { Answers result (builds T.Key.table T.built serialized_key.now) }
{
    let Some(key) = decode::<T::Key>(alloc, serialized_key)? else {
        return Err(TinkError::new(Kind::InvalidKey));
    };
    T::build(alloc, key)
}

// A new key of a format's bytes.
fn make_message<T: KeyType>(
    alloc: Global,
    serialized_key_format: &[u8],
    draws: &mut Draws,
) -> Result<T::Key, TinkError>
    ensures { Replies result
        (new_message T.Format.table T.made serialized_key_format.now draws.old) draws.old draws.new }
{
    let Some(format) = decode::<T::Format>(alloc, serialized_key_format)? else {
        return Err(TinkError::new(Kind::InvalidFormat));
    };
    T::make(alloc, format, draws)
}

// The bytes of a new key of a format's bytes.
fn make_bytes<T: KeyType>(
    alloc: Global,
    serialized_key_format: &[u8],
    draws: &mut Draws,
) -> Result<Bytes, TinkError>
    ensures { Replies result
        (makes T.Key.table T.Format.table T.made serialized_key_format.now draws.old) draws.old draws.new }
{
    let key = make_message::<T>(alloc, serialized_key_format, draws)?;
    match key.encode(alloc) {
        Ok(bytes) => Ok(bytes),
        Err(_) => Err(TinkError::new(Kind::OutOfMemory)),
    }
}

impl<T: KeyType> KeyManager for SymmetricKeyManager<T> {
    type Family = T::Family;

    ghost url = { λ _. T.url };

    ghost supports = { λ _ url. bytes_eq T.url url };

    ghost material = { λ _. Symmetric };

    ghost builds = { λ _ key. builds (T.Key.table) T.built key };

    ghost makes = { λ _ format draws. makes T.Key.table T.Format.table T.made format draws };

    ghost makes_data = { λ _ format draws. makes_data T.url T.Key.table T.Format.table T.made format draws };

    ghost has_public = { λ _. false };

    ghost gives_public = { λ _ _. Err NoPrivateKeys };

    fn primitive(
        &self,
        alloc: Global,
        serialized_key: &[u8],
    ) -> Result<Primitive<T::Family>, TinkError> {
        build_bytes::<T>(alloc, serialized_key)
    }

    fn new_key(
        &self,
        alloc: Global,
        serialized_key_format: &[u8],
        draws: &mut Draws,
    ) -> Result<Bytes, TinkError> {
        make_bytes::<T>(alloc, serialized_key_format, draws)
    }

    fn does_support(&self, type_url: &str) -> bool {
        T::url() == type_url
    }

    fn type_url(&self) -> &str {
        T::url()
    }

    fn key_material_type(&self) -> KeyMaterialType {
        KeyMaterialType::Symmetric
    }

    fn new_key_data(
        &self,
        alloc: Global,
        serialized_key_format: &[u8],
        draws: &mut Draws,
    ) -> Result<KeyData, TinkError> {
        let type_url = Text::from_str(alloc, T::url())?;
        let value = make_bytes::<T>(alloc, serialized_key_format, draws)?;
        Ok(KeyData {
            type_url,
            value,
            key_material_type: KeyMaterialType::Symmetric as i32,
        })
    }

    fn supports_private_keys(&self) -> bool {
        false
    }

    fn public_key_data(
        &self,
        _alloc: Global,
        _serialized_key: &[u8],
    ) -> Result<KeyData, TinkError> {
        Err(TinkError::new(Kind::NoPrivateKeys))
    }

    ghost use Rattle.std.proofs.Common.{refl};
    ghost use Rattle.tink_key_manager.specs.ManagerLaws.{builds_told, makes_told, makes_data_told, data_known};
    ghost use Rattle.tink_key_manager.specs.ManagerLaws.{no_public_known, no_public_always};

    ghost builds_told = { λ _ key. builds_told T.Key.table T.built T.built_told key };

    ghost makes_told = { λ _ format draws. makes_told T.Key.table T.Format.table T.made T.made_told format draws };

    ghost makes_data_told = { λ _ format draws.
        makes_data_told T.Key.table T.Format.table T.made T.made_told T.url format draws };

    ghost public_told = { λ _ _. tt };

    ghost new_material = { λ _ format draws d is.
        data_known T.Key.table T.Format.table T.made T.url format draws d is };

    ghost public_material = { λ _ _ d is. no_public_known d is };

    ghost no_private = { λ _ _ _. refl };

    ghost private = { λ _ _ has _. no_public_always has };
}
