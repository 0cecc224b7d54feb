//! Keysets with their keys in sight.

ghost use Rattle.std.specs.Prelude.{◌≡◌, ◌≤◌, IfOk, IfErr, OnOk};
ghost use Rattle.tink_io.specs.declared.error.Kind.TheVariants.{BadKeyset, OutOfMemory};
ghost use Rattle.tink_io.specs.Answering.{Answers, or_refused, Tells};
ghost use Rattle.tink_proto.specs.Messages.{keyset};
ghost use Rattle.wire_format.specs.Message.{decoded};
ghost use Rattle.keyset_model.specs.Validity.{IsValid, FitsHandle};
ghost use Rattle.tink_keyset_rules.specs.Ends.{HasWritten};
ghost use Rattle.tink_keysets.specs.Handles.{handle_of_keys};
ghost use Rattle.tink_keysets.specs.Through.{GivesBy};
ghost use Rattle.tink_keysets.specs.Valid.{valid_keyset, valid_or_refused};

use crate::keyset::{Handle, Reader, Writer, validate};
use std::alloc::Global;
use tink_io::{Kind, TinkError};
use tink_keyset_rules::copy;
use tink_proto::{Keyset, Message, ProtoError};

/// A copy of a handle's keyset.
///
/// # Errors
/// `OutOfMemory` alone.
pub fn keyset_material(alloc: Global, h: &Handle) -> Result<Keyset, TinkError>
    ensures keyset { IfOk result (λ ks. ks ≡ h.now) }
    ensures held { IfOk result FitsHandle }
    ensures err { IfErr result (λ e. e ≡ record { kind = OutOfMemory }) }
{
    copy(alloc, h.keyset())
}

/// The keyset that bytes spell in the wire format, whatever its keys are.
///
/// # Errors
/// `BadKeyset` exactly where they spell none; `OutOfMemory`.
pub fn decode(alloc: Global, bytes: &[u8]) -> Result<Keyset, TinkError>
    ensures { Answers result (or_refused BadKeyset (decoded keyset.read bytes.now)) }
{
    match Keyset::decode(alloc, bytes) {
        Ok(ks) => Ok(ks),
        Err(ProtoError::OutOfMemory) => Err(TinkError::new(Kind::OutOfMemory)),
        Err(_) => Err(TinkError::new(Kind::BadKeyset)),
    }
}

/// A handle of the valid keyset that bytes spell in the wire format.
///
/// # Errors
/// `BadKeyset` exactly where they spell none; `InvalidKeyset` exactly where the keyset is not valid;
/// `OutOfMemory`.
pub fn valid_handle(alloc: Global, bytes: &[u8]) -> Result<Handle, TinkError>
    ensures answer { Answers result (valid_keyset bytes.now) }
    ensures valid { IfOk result IsValid }
{
    match decode(alloc, bytes) {
        Ok(keyset) => handle_if_valid(keyset),
        Err(e) => Err(e),
    }
}

// A handle of a keyset that is valid.
fn handle_if_valid(keyset: Keyset) -> Result<Handle, TinkError>
    ensures { Answers result (valid_or_refused keyset) }
{
    validate(&keyset)?;
    new_handle(keyset)
}

/// A handle of a keyset, whatever its keys are.
///
/// # Errors
/// `InvalidKeyset` exactly where there is no key, a key that isn't destroyed has no data, or data has a
/// material outside 0 to 4.
pub fn new_handle(ks: Keyset) -> Result<Handle, TinkError>
    ensures { Tells result (handle_of_keys ks) }
{
    if ks.key.as_slice().is_empty() {
        return Err(TinkError::new(Kind::InvalidKeyset));
    }
    Handle::from_keyset(ks)
}

/// A handle of the keyset that is read, whatever its keys are.
///
/// # Errors
/// The reader's; then `InvalidKeyset` as `new_handle`.
pub fn read<R: Reader>(alloc: Global, reader: &mut R) -> Result<Handle, TinkError>
    ensures answer { GivesBy handle_of_keys result (R.reads reader.old) (R.faults reader.old) (R.faults reader.new) }
    ensures count { R.faults reader.old ≤ R.faults reader.new }
    ensures leaves { R.leaves reader.old reader.new }
    ensures same { R.same reader.old reader.new }
{
    match reader.read(alloc) {
        Ok(ks) => new_handle(ks),
        Err(e) => Err(e),
    }
}

/// Writes a handle's keyset, whatever its keys are.
///
/// # Errors
/// The writer's.
pub fn write<W: Writer>(alloc: Global, h: &Handle, writer: &mut W) -> Result<(), TinkError>
    ensures answer { HasWritten result (W.answers writer.old h.now) (W.faults writer.old) (W.faults writer.new) }
    ensures written { OnOk result (W.writes writer.old h.now writer.new) }
    ensures refused { IfErr result (λ e. W.refused writer.old h.now e.kind writer.new) }
    ensures count { W.faults writer.old ≤ W.faults writer.new }
    ensures same { W.same writer.old writer.new }
{
    writer.write(alloc, h.keyset())
}
