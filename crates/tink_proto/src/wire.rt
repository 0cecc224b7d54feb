//! Messages in the wire format: the trait that each message has, and the fields that its methods read and write.

ghost use Rattle.std.specs.Prelude.{IsTrue, List, ◌≡◌, ◌++◌, Some, IfOk, IfErr, OnOk, OnErr};
ghost use Rattle.wire_format.specs.Grammar.{Field as Spelled, AreFields};
ghost use Rattle.wire_format.specs.Writing.{spelling};
ghost use Rattle.wire_format.specs.Message.{decoded, encoded};
ghost use Rattle.wire_format.specs.Columns.{Column, read_into};
ghost use Rattle.tink_proto.specs.View.{field_of};
ghost use Rattle.tink_proto.specs.Outcome.{Reads, Becomes};
ghost use Rattle.tink_proto.specs.declared.error.ProtoError.TheVariants.{BadMessage};

mod laws;
mod nested;
mod reading;
mod slots;
mod writing;

use crate::{Bytes, ProtoError};
pub use laws::{law_fields, law_read_again, law_rising};
pub use nested::{clone_list, clone_option};
pub use reading::{Content, Field, next_field};
pub use slots::{read_bytes, read_enum, read_list, read_message, read_number, read_text};
use std::alloc::{AllocError, Global};
pub use writing::{put_bytes, put_enum, put_list, put_message, put_number, put_text};

/// A message: a table of fields, and what the table says in code.
///
/// `new`, `read_field`, `write_fields` and `try_clone` are written for each message; `decode` and `encode` follow.
pub trait Message: Drop {
    // The number and kind of each field.
    ghost table: { Column Self };

    /// The message with no field.
    fn new(alloc: Global) -> Self
        ensures { result ≡ table.start };

    /// Reads one more field. A field of another number changes nothing.
    ///
    /// # Errors
    /// `BadMessage` exactly if the content cannot be read as the field, or `OutOfMemory`. The message is then as
    /// before, except for a single message that the field was to be read into: it is absent.
    fn read_field(&mut self, alloc: Global, field: &Field) -> Result<(), ProtoError>
        ensures reads { Becomes BadMessage result self.new (table.step self.old (field_of field.now)) }
        ensures err { OnErr result (self.new ≡ table.refused self.old (field_of field.now)) };

    /// Writes the fields at the end of `out`.
    ///
    /// # Errors
    /// `AllocError` if there is no memory. No clause speaks of `out` then.
    fn write_fields(&self, alloc: Global, out: &mut Vec<u8>) -> Result<(), AllocError>
        ensures bytes { OnOk result (out.new.items ≡ out.old.items ++ spelling (table.write self.now)) }

        // What is written is a message that is read again.
        ensures fits { OnOk result (IsTrue (table.fits self.now)) };

    /// Reads each field that the bytes spell into the message.
    ///
    /// # Errors
    /// `BadMessage` exactly if the bytes spell no fields that can be read into it, or `OutOfMemory`. The message has
    /// no field then, as a new one.
    final fn merge(&mut self, alloc: Global, bytes: &[u8]) -> Result<(), ProtoError>
        ensures reads { Becomes BadMessage result self.new (read_into table.step self.old bytes.now) }
        ensures err { OnErr result (self.new ≡ table.start) }
    {
        let answer = read_fields(self, alloc, bytes);
        if answer.is_err() {
            *self = Self::new(alloc);
        }
        answer
    }

    /// The same message again.
    ///
    /// # Errors
    /// `OutOfMemory` alone.
    fn try_clone(&self, alloc: Global) -> Result<Self, ProtoError>
        ensures same { IfOk result (λ m. m ≡ self.now) }
        ensures err { IfErr result (λ e. e ≡ ProtoError.OutOfMemory) };

    /// The message that the bytes spell. Unknown fields are skipped.
    ///
    /// # Errors
    /// `BadMessage` exactly if the bytes spell no fields, or one of them does not fit. A field does
    /// not fit if it has another type, its text is not UTF-8, or its body is not the message. `OutOfMemory`.
    final fn decode(alloc: Global, bytes: &[u8]) -> Result<Self, ProtoError>
        ensures exact { Reads BadMessage result (decoded table.read bytes.now) }

        // The same in the words of the grammar. What is read is what the fields say that the bytes spell.
        ensures found { IfOk result (λ m. (fs : List Spelled) × AreFields bytes.now fs × (table.read fs ≡ Some m)) }

        // What the fields say is read, unless memory runs out.
        ensures only { (fs : List Spelled) → AreFields bytes.now fs → Reads BadMessage result (table.read fs) }
    {
        from_bytes(alloc, bytes)
    }

    /// The bytes of the message: rising numbers, shortest varints, no defaults.
    ///
    /// # Errors
    /// `OutOfMemory` alone.
    final fn encode(&self, alloc: Global) -> Result<Bytes, ProtoError>
        ensures bytes { IfOk result (λ b. b ≡ encoded table.write self.now) }

        // They are read as this message.
        ensures again { IfOk result (λ b. decoded table.read b ≡ Some self.now) }
        ensures fits { OnOk result (IsTrue (table.fits self.now)) }
        ensures err { IfErr result (λ e. e ≡ ProtoError.OutOfMemory) }
    {
        let mut out = Vec::new(alloc);
        self.write_fields(alloc, &mut out)?;
        Ok(Bytes::from_vec(out))
    }
}

fn from_bytes<M: Message>(alloc: Global, bytes: &[u8]) -> Result<M, ProtoError>
    ensures { Reads BadMessage result (decoded (M.table).read bytes.now) }
{
    let mut message = M::new(alloc);
    read_fields(&mut message, alloc, bytes)?;
    Ok(message)
}

// Reads each field that the bytes spell.
fn read_fields<M: Message>(message: &mut M, alloc: Global, bytes: &[u8]) -> Result<(), ProtoError>
    ensures { Becomes BadMessage result message.new (read_into (M.table).step message.old bytes.now) }
{
    let mut rest = bytes;
    while !rest.is_empty() {
        let Some((field, after)) = next_field(rest) else {
            return Err(ProtoError::BadMessage);
        };
        message.read_field(alloc, &field)?;
        rest = after;
    }
    Ok(())
}
