//! The keys of one type.

ghost use Rattle.std.specs.Prelude.{◌≡◌, ℕ, List, Result};
ghost use Rattle.tink_io.specs.Answering.{Answers, Replies};
ghost use Rattle.tink_io.specs.declared.error.Kind.{Kind};
ghost use Rattle.tink_primitives.specs.Meaning.{IsTold, IsDrawn};
ghost use Rattle.tink_primitives.specs.declared.primitive.Primitive.{Primitive};

use std::alloc::Global;
use tink_io::{Draws, TinkError};
use tink_primitives::{Kinds, Primitive};
use tink_proto::wire::Message;

/// The symmetric keys of one type: their messages, what a key builds, and which key a format makes.
pub trait KeyType {
    /// The primitives that its keys build.
    type Family: Kinds;

    /// The message of a key.
    type Key: Message;

    /// The message of a format.
    type Format: Message;

    // The URL of its keys.
    ghost url: { List ℕ };

    // The primitive of a key.
    ghost built: { Self.Key → Result (Primitive Self.Family Self.Family.Aead Self.Family.DeterministicAead
        Self.Family.HybridDecrypt Self.Family.HybridEncrypt Self.Family.Mac Self.Family.Prf Self.Family.Signer
        Self.Family.StreamingAead Self.Family.Verifier) Kind };

    // A new key of a format, and the draws then left.
    ghost made: { Self.Format → List ℕ → Result Self.Key Kind × List ℕ };

    /// The URL of its keys.
    fn url() -> &'static str
        ensures value { result.now ≡ url };

    /// The primitive of a key.
    ///
    /// # Errors
    /// What the meaning `built` gives for the key. `OutOfMemory`.
    fn build(alloc: Global, key: Self::Key) -> Result<Primitive<Self::Family>, TinkError>
        ensures answer { Answers result (built key) };

    /// A new key of a format.
    ///
    /// # Errors
    /// What the meaning `made` gives for the format and the random bytes left. `OutOfMemory`.
    fn make(alloc: Global, format: Self::Format, draws: &mut Draws) -> Result<Self::Key, TinkError>
        ensures replies { Replies result (made format draws.old) draws.old draws.new };

    // Each answer is given, and draws are taken in their order.
    ghost built_told: { (key : Self.Key) → IsTold (built key) };

    ghost made_told: { (format : Self.Format) (draws : List ℕ) → IsDrawn draws (made format draws) };
}
