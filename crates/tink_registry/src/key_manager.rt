//! What makes and builds the keys of one type.

ghost use Rattle.std.specs.Prelude.{◌≡◌, ℕ, List, Bool, Result, Ok, Err, true, false};
ghost use Rattle.tink_io.specs.declared.error.Kind.{Kind};
ghost use Rattle.tink_io.specs.declared.error.Kind.TheVariants.{NoPrivateKeys};
ghost use Rattle.tink_io.specs.Answering.{Answers, Replies};
ghost use Rattle.tink_proto.specs.declared.messages.keys.KeyData.{KeyData};
ghost use Rattle.tink_proto.specs.declared.enums.KeyMaterialType.{KeyMaterialType};
ghost use Rattle.tink_primitives.specs.Meaning.{IsTold, IsDrawn};
ghost use Rattle.tink_primitives.specs.declared.primitive.Primitive.{Primitive};
ghost use Rattle.tink_registry.specs.Known.{IsOfKnownMaterial};

use std::alloc::Global;
use tink_io::{Draws, TinkError};
use tink_primitives::{Kinds, Primitive};
use tink_proto::{Bytes, KeyData, KeyMaterialType};

/// What makes and builds the keys of one type. Its meaning gives for the arguments of each call the one answer and the
/// draws then left; `OutOfMemory` alone is no part of it.
pub trait KeyManager {
    /// The primitives that it builds.
    type Family: Kinds;

    // The URL of its keys.
    ghost url: { Self → List ℕ };

    // Whether it takes keys of a URL.
    ghost supports: { Self → List ℕ → Bool };

    // The material of its keys.
    ghost material: { Self → KeyMaterialType };

    // The primitive of a key's bytes.
    ghost builds: { Self → List ℕ → Result (Primitive Self.Family Self.Family.Aead Self.Family.DeterministicAead
        Self.Family.HybridDecrypt Self.Family.HybridEncrypt Self.Family.Mac Self.Family.Prf Self.Family.Signer
        Self.Family.StreamingAead Self.Family.Verifier) Kind };

    // The bytes of a new key of a format, and the draws then left.
    ghost makes: { Self → List ℕ → List ℕ → Result (List ℕ) Kind × List ℕ };

    // The data of a new key of a format, and the draws then left.
    ghost makes_data: { Self → List ℕ → List ℕ → Result KeyData Kind × List ℕ };

    // Whether its keys have a public part.
    ghost has_public: { Self → Bool };

    // The data of the public part of a key's bytes.
    ghost gives_public: { Self → List ℕ → Result KeyData Kind };

    /// The primitive of a key's bytes.
    ///
    /// # Errors
    /// Those of the meaning `builds`, by the type. `OutOfMemory`.
    fn primitive(
        &self,
        alloc: Global,
        serialized_key: &[u8],
    ) -> Result<Primitive<Self::Family>, TinkError>
        ensures answer { Answers result (builds self.now serialized_key.now) };

    /// The bytes of a new key of the format.
    ///
    /// # Errors
    /// Those of the meaning `makes`, by the type. `OutOfMemory`.
    fn new_key(
        &self,
        alloc: Global,
        serialized_key_format: &[u8],
        draws: &mut Draws,
    ) -> Result<Bytes, TinkError>
        ensures replies { Replies result (makes self.now serialized_key_format.now draws.old) draws.old draws.new };

    /// Whether it takes keys of this URL.
    fn does_support(&self, type_url: &str) -> bool
        ensures value { result ≡ supports self.now type_url.now };

    /// The URL of its keys.
    fn type_url(&self) -> &str
        ensures value { result.now ≡ url self.now };

    /// The material of its keys.
    fn key_material_type(&self) -> KeyMaterialType
        ensures value { result ≡ material self.now };

    /// The data of a new key of the format.
    ///
    /// # Errors
    /// Those of the meaning `makes_data`, by the type. `OutOfMemory`.
    fn new_key_data(
        &self,
        alloc: Global,
        serialized_key_format: &[u8],
        draws: &mut Draws,
    ) -> Result<KeyData, TinkError>
        ensures replies { Replies result
            (makes_data self.now serialized_key_format.now draws.old) draws.old draws.new };

    /// Whether its keys have a public part.
    fn supports_private_keys(&self) -> bool
        ensures value { result ≡ has_public self.now };

    /// The data of a key's public part.
    ///
    /// # Errors
    /// `NoPrivateKeys` exactly if its keys have no public part; else those of the meaning `gives_public`, by the type.
    /// `OutOfMemory`.
    fn public_key_data(&self, alloc: Global, serialized_key: &[u8]) -> Result<KeyData, TinkError>
        ensures answer { Answers result (gives_public self.now serialized_key.now) };

    // Each answer is given, and draws are taken in their order.
    ghost builds_told: { (m : Self) (key : List ℕ) → IsTold (builds m key) };

    ghost makes_told: { (m : Self) (format draws : List ℕ) → IsDrawn draws (makes m format draws) };

    ghost makes_data_told: { (m : Self) (format draws : List ℕ) → IsDrawn draws (makes_data m format draws) };

    ghost public_told: { (m : Self) (key : List ℕ) → IsTold (gives_public m key) };

    // Data that it gives has a material from 0 to 4.
    ghost new_material: { (m : Self) (format draws : List ℕ) (d : KeyData)
        → (makes_data m format draws).0 ≡ Ok d → IsOfKnownMaterial d };

    ghost public_material: { (m : Self) (key : List ℕ) (d : KeyData)
        → gives_public m key ≡ Ok d → IsOfKnownMaterial d };

    // `NoPrivateKeys` exactly where its keys have no public part.
    ghost no_private: { (m : Self) (key : List ℕ) → has_public m ≡ false → gives_public m key ≡ Err NoPrivateKeys };

    ghost private: { (m : Self) (key : List ℕ) → has_public m ≡ true → gives_public m key ≡ Err NoPrivateKeys → ⊥ };
}
