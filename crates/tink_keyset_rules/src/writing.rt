//! What writes keysets.

ghost use Rattle.std.specs.Prelude.{◌≤◌, ℕ, OnOk, IfErr};
ghost use Rattle.std.specs.declared.option.Option.{Option};
ghost use Rattle.std.specs.declared.result.Result.{Result};
ghost use Rattle.tink_io.specs.declared.error.Kind.{Kind};
ghost use Rattle.tink_proto.specs.declared.messages.infos.EncryptedKeyset.{EncryptedKeyset};
ghost use Rattle.tink_proto.specs.declared.messages.keys.Keyset.{Keyset};
ghost use Rattle.tink_keyset_rules.specs.Ends.{HasWritten};

use std::alloc::Global;
use tink_io::TinkError;
use tink_proto::{EncryptedKeyset, Keyset};

/// Writes keysets.
pub trait Writer {
    // How often it has failed. The count never falls, and stands still at the last value of u64.
    ghost faults: { Self → ℕ };

    // The one answer of the next `write` of a keyset, where it is given, faults and `OutOfMemory` aside.
    ghost answers: { Self → Keyset → Option (Result (Unit {0}) Kind) };

    // The same of `write_encrypted`.
    ghost answers_encrypted: { Self → EncryptedKeyset → Option (Result (Unit {0}) Kind) };

    // What a `write` that was Ok made of the state, where it is given.
    ghost writes: { Self → Keyset → Self → Type 0 };

    // The same of `write_encrypted`.
    ghost writes_encrypted: { Self → EncryptedKeyset → Self → Type 0 };

    // What a refusal of a `write` by a kind left of the state: after a fault no more than a prefix of the
    // keyset's text, and else nothing.
    ghost refused: { Self → Keyset → Kind → Self → Type 0 };

    // The same of `write_encrypted`.
    ghost refused_encrypted: { Self → EncryptedKeyset → Kind → Self → Type 0 };

    // What stays over calls.
    ghost same: { Self → Self → Type 0 };

    /// Writes a keyset.
    ///
    /// # Errors
    /// `WriteFault` only where the count of faults rose, `OutOfMemory`, and else the given kind; never `ReadFault`.
    fn write(&mut self, alloc: Global, ks: &Keyset) -> Result<(), TinkError>
        ensures answer { HasWritten result (answers self.old ks.now) (faults self.old) (faults self.new) }
        ensures written { OnOk result (writes self.old ks.now self.new) }
        ensures refused { IfErr result (λ e. refused self.old ks.now e.kind self.new) }
        ensures count { faults self.old ≤ faults self.new }
        ensures same { same self.old self.new };

    /// Writes an encrypted keyset.
    ///
    /// # Errors
    /// As `write`.
    fn write_encrypted(&mut self, alloc: Global, ks: &EncryptedKeyset) -> Result<(), TinkError>
        ensures answer { HasWritten result (answers_encrypted self.old ks.now) (faults self.old) (faults self.new) }
        ensures written { OnOk result (writes_encrypted self.old ks.now self.new) }
        ensures refused { IfErr result (λ e. refused_encrypted self.old ks.now e.kind self.new) }
        ensures count { faults self.old ≤ faults self.new }
        ensures same { same self.old self.new };

    ghost same_refl: { (w : Self) → same w w };

    ghost same_trans: { (w x y : Self) → same w x → same x y → same w y };
}
