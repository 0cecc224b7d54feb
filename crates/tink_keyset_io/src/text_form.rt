//! The forms in which messages are kept as texts.

ghost use Rattle.std.specs.Prelude.{◌≡◌, ℕ, List, IfOk, IfErr};
ghost use Rattle.std.specs.declared.option.Option.{Option};
ghost use Rattle.std.specs.declared.result.Result.{Result};
ghost use Rattle.tink_io.specs.declared.error.Kind.{Kind as Refusal};
ghost use Rattle.tink_io.specs.declared.error.Kind.TheVariants.{OutOfMemory};
ghost use Rattle.tink_io.specs.Answering.{or_refused};
ghost use Rattle.tink_keysets.specs.Ends.{HasRead, IsAsTold};

use std::alloc::Global;
use tink_io::TinkError;
use tink_proto::Bytes;

/// A form in which a message is kept as a text.
pub trait TextForm<M> {
    // The message that a text is.
    ghost message: { List ℕ → Option M };

    // Whether a text is one that is written for a message.
    ghost spells: { M → List ℕ → Type 0 };

    // By which kind other texts are refused.
    ghost refusal: { Refusal };

    /// The message of a text.
    ///
    /// # Errors
    /// The refusal of the form exactly if the text is no message, or `OutOfMemory`.
    fn decode(alloc: Global, text: &[u8]) -> Result<M, TinkError>
        ensures answer { (told : Option (Result M Refusal)) → IsAsTold told (or_refused refusal (message text.now))
            → (before now : ℕ) → HasRead result told before now };

    /// A text of the message.
    ///
    /// # Errors
    /// `OutOfMemory` alone.
    fn encode(alloc: Global, ks: &M) -> Result<Bytes, TinkError>
        ensures text { IfOk result (λ text. spells ks.now text) }
        ensures err { IfErr result (λ e. e ≡ record { kind = OutOfMemory }) };
}
