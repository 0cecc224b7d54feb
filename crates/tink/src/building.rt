//! What a key of a type of keys builds, as a primitive of all sorts, and what its formats make.

ghost use Rattle.std.specs.Prelude.{◌≡◌};
ghost use Rattle.tink_io.specs.Answering.{Answers, Replies};
ghost use Rattle.tink_primitives.specs.Sorts.{as_aead, as_deterministic_aead, as_mac, as_prf, as_streaming_aead};
ghost use Rattle.tink_key_manager.specs.Manager.{builds, makes};
ghost use Rattle.tink.specs.Managers.{as_built_aead, as_built_daead, as_built_mac, as_built_prf, as_built_stream};
ghost use Rattle.tink.specs.Rows.{widened};

use crate::managers::TinkKinds;
use std::alloc::Global;
use tink_aead::AeadKinds;
use tink_daead::DaeadKinds;
use tink_io::{Draws, TinkError};
use tink_key_manager::{KeyType, SymmetricKeyManager};
use tink_mac::MacKinds;
use tink_prf::PrfKinds;
use tink_primitives::Primitive;
use tink_proto::Bytes;
use tink_registry::KeyManager;
use tink_streaming_aead::StreamKinds;

/// The AEAD of a key's bytes in the wire format.
///
/// # Errors
/// The first that applies:
/// - `InvalidKey` if there are no bytes or they are not the message of the type;
/// - those of the type for the key;
/// - `WrongPrimitive` if the primitive is no AEAD.
///
/// `OutOfMemory`.
pub fn build_aead<T: KeyType<Family = AeadKinds>>(
    alloc: Global,
    key: &[u8],
) -> Result<Primitive<TinkKinds>, TinkError>
    ensures { Answers result (widened as_aead as_built_aead (builds T.Key.table T.built key.now)) }
{
    match SymmetricKeyManager::<T>::new().primitive(alloc, key) {
        Ok(built) => match built.into_aead() {
            Ok(primitive) => Ok(Primitive::Aead(primitive)),
            Err(e) => Err(e),
        },
        Err(e) => Err(e),
    }
}

/// The MAC of a key's bytes in the wire format.
///
/// # Errors
/// As `build_aead`, with `WrongPrimitive` if the primitive is no MAC.
pub fn build_mac<T: KeyType<Family = MacKinds>>(
    alloc: Global,
    key: &[u8],
) -> Result<Primitive<TinkKinds>, TinkError>
    ensures { Answers result (widened as_mac as_built_mac (builds T.Key.table T.built key.now)) }
{
    match SymmetricKeyManager::<T>::new().primitive(alloc, key) {
        Ok(built) => match built.into_mac() {
            Ok(primitive) => Ok(Primitive::Mac(primitive)),
            Err(e) => Err(e),
        },
        Err(e) => Err(e),
    }
}

/// The pseudorandom function of a key's bytes in the wire format.
///
/// # Errors
/// As `build_aead`, with `WrongPrimitive` if the primitive is no PRF.
pub fn build_prf<T: KeyType<Family = PrfKinds>>(
    alloc: Global,
    key: &[u8],
) -> Result<Primitive<TinkKinds>, TinkError>
    ensures { Answers result (widened as_prf as_built_prf (builds T.Key.table T.built key.now)) }
{
    match SymmetricKeyManager::<T>::new().primitive(alloc, key) {
        Ok(built) => match built.into_prf() {
            Ok(primitive) => Ok(Primitive::Prf(primitive)),
            Err(e) => Err(e),
        },
        Err(e) => Err(e),
    }
}

/// The streaming AEAD of a key's bytes in the wire format.
///
/// # Errors
/// As `build_aead`, with `WrongPrimitive` if the primitive is no streaming AEAD.
pub fn build_streaming_aead<T: KeyType<Family = StreamKinds>>(
    alloc: Global,
    key: &[u8],
) -> Result<Primitive<TinkKinds>, TinkError>
    ensures { Answers result (widened as_streaming_aead as_built_stream (builds T.Key.table T.built key.now)) }
{
    match SymmetricKeyManager::<T>::new().primitive(alloc, key) {
        Ok(built) => match built.into_streaming_aead() {
            Ok(primitive) => Ok(Primitive::StreamingAead(primitive)),
            Err(e) => Err(e),
        },
        Err(e) => Err(e),
    }
}

/// The deterministic AEAD of a key's bytes in the wire format.
///
/// # Errors
/// As `build_aead`, with `WrongPrimitive` if the primitive is no deterministic AEAD.
pub fn build_deterministic_aead<T: KeyType<Family = DaeadKinds>>(
    alloc: Global,
    key: &[u8],
) -> Result<Primitive<TinkKinds>, TinkError>
    ensures { Answers result (widened as_deterministic_aead as_built_daead (builds T.Key.table T.built key.now)) }
{
    match SymmetricKeyManager::<T>::new().primitive(alloc, key) {
        Ok(built) => match built.into_deterministic_aead() {
            Ok(primitive) => Ok(Primitive::DeterministicAead(primitive)),
            Err(e) => Err(e),
        },
        Err(e) => Err(e),
    }
}

/// The bytes of a new key in the wire format, of a format in the wire format.
///
/// # Errors
/// `InvalidFormat` if there are no bytes or they are not the format of the type. Then those of the type for the
/// format and the random bytes left. `OutOfMemory`.
pub fn make<T: KeyType>(alloc: Global, format: &[u8], draws: &mut Draws) -> Result<Bytes, TinkError>
    ensures { Replies result (makes T.Key.table T.Format.table T.made format.now draws.old) draws.old draws.new }
{
    SymmetricKeyManager::<T>::new().new_key(alloc, format, draws)
}
