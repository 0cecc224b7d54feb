//! Keysets that are read and written as they are.

ghost use Rattle.std.specs.Prelude.{◌≤◌};
ghost use Rattle.tink_keysets.specs.Handles.{handle_without_secrets, without_secrets};
ghost use Rattle.tink_keysets.specs.Through.{GivesBy, MakesAndWrites};

use crate::keyset::{Handle, Reader, Writer};
use std::alloc::Global;
use tink_io::{Kind, TinkError};
use tink_keyset_rules::have_secrets;

impl Handle {
    /// A handle of the keyset that is read, which must be without secrets.
    ///
    /// # Errors
    /// The reader's; then `InvalidKeyset` and `HasSecrets` as `new_with_no_secrets`.
    pub fn read_with_no_secrets<R: Reader>(
        alloc: Global,
        reader: &mut R,
    ) -> Result<Handle, TinkError>
        ensures answer { GivesBy handle_without_secrets result
            (R.reads reader.old) (R.faults reader.old) (R.faults reader.new) }
        ensures count { R.faults reader.old ≤ R.faults reader.new }
        ensures leaves { R.leaves reader.old reader.new }
        ensures same { R.same reader.old reader.new }
    {
        match reader.read(alloc) {
            Ok(ks) => Handle::new_with_no_secrets(ks),
            Err(e) => Err(e),
        }
    }

    /// Writes the keyset, which must be without secrets.
    ///
    /// # Errors
    /// `HasSecrets` exactly where some data has material 0, 1 or 2, and then the writer is as before; then the
    /// writer's.
    pub fn write_with_no_secrets<W: Writer>(
        &self,
        alloc: Global,
        writer: &mut W,
    ) -> Result<(), TinkError>
        ensures answer { MakesAndWrites W.answers W.writes W.refused W.faults result
            (without_secrets self.now) writer.old writer.new }
        ensures count { W.faults writer.old ≤ W.faults writer.new }
        ensures same { W.same writer.old writer.new }
    {
        if have_secrets(self.keys()) {
            return Err(TinkError::new(Kind::HasSecrets));
        }
        writer.write(alloc, self.keyset())
    }
}
