//! What reads keysets.

ghost use Rattle.std.specs.Prelude.{◌≤◌, ℕ};
ghost use Rattle.std.specs.declared.option.Option.{Option};
ghost use Rattle.std.specs.declared.result.Result.{Result};
ghost use Rattle.tink_io.specs.declared.error.Kind.{Kind};
ghost use Rattle.tink_proto.specs.declared.messages.infos.EncryptedKeyset.{EncryptedKeyset};
ghost use Rattle.tink_proto.specs.declared.messages.keys.Keyset.{Keyset};
ghost use Rattle.tink_keyset_rules.specs.Ends.{HasRead};

use std::alloc::Global;
use tink_io::TinkError;
use tink_proto::{EncryptedKeyset, Keyset};

/// Reads keysets.
pub trait Reader {
    // How often it has failed. The count never falls, and stands still at the last value of u64.
    ghost faults: { Self → ℕ };

    // The one answer of the next `read`, where it is given, faults and `OutOfMemory` aside.
    ghost reads: { Self → Option (Result Keyset Kind) };

    // The same of `read_encrypted`.
    ghost reads_encrypted: { Self → Option (Result EncryptedKeyset Kind) };

    // What a call leaves of the state, whatever it answers.
    ghost leaves: { Self → Self → Type 0 };

    // What stays over calls.
    ghost same: { Self → Self → Type 0 };

    /// The keyset that is read.
    ///
    /// # Errors
    /// `ReadFault` only where the count of faults rose, `OutOfMemory`, and else the given kind; never `WriteFault`.
    fn read(&mut self, alloc: Global) -> Result<Keyset, TinkError>
        ensures answer { HasRead result (reads self.old) (faults self.old) (faults self.new) }
        ensures count { faults self.old ≤ faults self.new }
        ensures leaves { leaves self.old self.new }
        ensures same { same self.old self.new };

    /// The encrypted keyset that is read.
    ///
    /// # Errors
    /// As `read`.
    fn read_encrypted(&mut self, alloc: Global) -> Result<EncryptedKeyset, TinkError>
        ensures answer { HasRead result (reads_encrypted self.old) (faults self.old) (faults self.new) }
        ensures count { faults self.old ≤ faults self.new }
        ensures leaves { leaves self.old self.new }
        ensures same { same self.old self.new };

    ghost same_refl: { (r : Self) → same r r };

    ghost same_trans: { (r s t : Self) → same r s → same s t → same r t };
}
