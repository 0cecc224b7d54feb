//! Keysets in the wire format.

ghost use Rattle.std.specs.Prelude.{◌≡◌, ◌≤◌, ◌+◌, ◌^◌, Some, Ok, OnOk, IfErr};
ghost use Rattle.std.specs.Io.KnownBytes.{Appends, IsAtEnd};
ghost use Rattle.tink_io.specs.declared.error.Kind.TheVariants.{BadKeyset, OutOfMemory};
ghost use Rattle.tink_keysets.specs.Ends.{HasRead, HasWritten};
ghost use Rattle.tink_proto.specs.Messages.{keyset, encrypted_keyset};
ghost use Rattle.wire_format.specs.Message.{decoded, encoded};
ghost use Rattle.tink_keyset_io.specs.Reading.{told};
ghost use Rattle.tink_io.specs.Taken.{LosesAtMost};
ghost use Rattle.tink_keyset_io.specs.Writing.{IsPartOfText};

use crate::text::{read_as, write_as};
use crate::text_form::TextForm;
use std::alloc::Global;
use std::marker::Model;
use tink_io::{Kind, Sink, Source, TinkError};
use tink_keysets::keyset::{Reader, Writer};
use tink_proto::{Bytes, EncryptedKeyset, Keyset, Message, ProtoError};

// The wire format.
struct Binary;

impl<M: Message> TextForm<M> for Binary {
    ghost use Rattle.std.specs.Prelude.{◌≡◌};
    ghost use Rattle.tink_io.specs.declared.error.Kind.TheVariants.{BadKeyset};
    ghost use Rattle.wire_format.specs.Message.{decoded, encoded};

    ghost message = { λ text. decoded (M.table).read text };

    ghost spells = { λ m text. text ≡ encoded (M.table).write m };

    ghost refusal = { BadKeyset };

    fn decode(alloc: Global, text: &[u8]) -> Result<M, TinkError> {
        match M::decode(alloc, text) {
            Ok(message) => Ok(message),
            Err(ProtoError::OutOfMemory) => Err(TinkError::new(Kind::OutOfMemory)),
            Err(_) => Err(TinkError::new(Kind::BadKeyset)),
        }
    }

    fn encode(alloc: Global, message: &M) -> Result<Bytes, TinkError> {
        match message.encode(alloc) {
            Ok(text) => Ok(text),
            Err(_) => Err(TinkError::new(Kind::OutOfMemory)),
        }
    }
}

/// Reads a keyset from a source, whose bytes up to its end are the message in the wire format.
/// Contracts see the source.
#[derive(Drop)]
pub struct BinaryReader<S> {
    source: S,
}

impl<S> Model for BinaryReader<S> {
    ghost Value = { S };

    ghost view = { λ r. r.source };
}

impl<S> BinaryReader<S> {
    /// A reader of what the source has left.
    pub fn new(source: S) -> Self
        ensures { result ≡ source }
    {
        BinaryReader { source }
    }

    /// The source, as the last read left it.
    pub fn into_inner(self) -> S
        ensures { result ≡ self }
    {
        self.source
    }
}

impl<S: Source> Reader for BinaryReader<S> {
    ghost faults = { λ r. S.faults r };

    ghost reads = { λ r. told BadKeyset (decoded keyset.read) (S.left r) };

    ghost reads_encrypted = { λ r. told BadKeyset (decoded encrypted_keyset.read) (S.left r) };

    ghost leaves = { λ before after. LosesAtMost (2 ^ 26 + 1) (S.left before) (S.left after) };

    ghost same = { λ before after. S.same before after };

    /// The keyset that the bytes left are. The source is at its end then.
    ///
    /// # Errors
    /// `KeysetTooLong` exactly if more than 67,108,864 bytes are left: at most 67,108,865 are read.
    /// `BadKeyset` exactly if fewer bytes are no keyset in the wire format. `ReadFault` if the source failed,
    /// and `OutOfMemory`.
    fn read(&mut self, alloc: Global) -> Result<Keyset, TinkError>
        ensures answer { HasRead result (told BadKeyset (decoded keyset.read) (S.left self.old))
            (S.faults self.old) (S.faults self.new) }
        ensures count { S.faults self.old ≤ S.faults self.new }
        ensures end { OnOk result (IsAtEnd (S.left self.new)) }
        ensures leaves { LosesAtMost (2 ^ 26 + 1) (S.left self.old) (S.left self.new) }
        ensures same { S.same self.old self.new }
    {
        read_as::<Binary, Keyset, S>(alloc, &mut self.source)
    }

    /// The encrypted keyset that the bytes left are.
    ///
    /// # Errors
    /// As `read`.
    fn read_encrypted(&mut self, alloc: Global) -> Result<EncryptedKeyset, TinkError>
        ensures answer { HasRead result (told BadKeyset (decoded encrypted_keyset.read) (S.left self.old))
            (S.faults self.old) (S.faults self.new) }
        ensures count { S.faults self.old ≤ S.faults self.new }
        ensures end { OnOk result (IsAtEnd (S.left self.new)) }
        ensures leaves { LosesAtMost (2 ^ 26 + 1) (S.left self.old) (S.left self.new) }
        ensures same { S.same self.old self.new }
    {
        read_as::<Binary, EncryptedKeyset, S>(alloc, &mut self.source)
    }

    ghost same_refl = { λ r. S.same_refl r };

    ghost same_trans = { λ r s t. S.same_trans r s t };
}

/// Writes keysets to a sink as messages in the wire format. Contracts see the sink.
#[derive(Drop)]
pub struct BinaryWriter<K> {
    sink: K,
}

impl<K> Model for BinaryWriter<K> {
    ghost Value = { K };

    ghost view = { λ w. w.sink };
}

impl<K> BinaryWriter<K> {
    /// A writer to the sink.
    pub fn new(sink: K) -> Self
        ensures { result ≡ sink }
    {
        BinaryWriter { sink }
    }

    /// The sink, as the last write left it.
    pub fn into_inner(self) -> K
        ensures { result ≡ self }
    {
        self.sink
    }
}

impl<K: Sink> Writer for BinaryWriter<K> {
    ghost faults = { λ w. K.faults w };

    ghost answers = { λ _ _. Some (Ok tt) };

    ghost answers_encrypted = { λ _ _. Some (Ok tt) };

    ghost writes = { λ before ks after. Appends (K.got before) (K.got after) (encoded keyset.write ks) };

    ghost writes_encrypted = { λ before ks after.
        Appends (K.got before) (K.got after) (encoded encrypted_keyset.write ks) };

    ghost refused = { λ before ks kind after.
        IsPartOfText (encoded keyset.write ks) kind (K.got before) (K.got after) };

    ghost refused_encrypted = { λ before ks kind after.
        IsPartOfText (encoded encrypted_keyset.write ks) kind (K.got before) (K.got after) };

    ghost same = { λ before after. K.same before after };

    /// Writes the keyset's bytes, all of them.
    ///
    /// # Errors
    /// `WriteFault` where the sink failed: it has a prefix of the bytes then. `OutOfMemory`: nothing
    /// is written then.
    fn write(&mut self, alloc: Global, ks: &Keyset) -> Result<(), TinkError>
        ensures answer { HasWritten result (Some (Ok tt)) (K.faults self.old) (K.faults self.new) }
        ensures written { OnOk result (Appends (K.got self.old) (K.got self.new) (encoded keyset.write ks.now)) }
        ensures count { K.faults self.old ≤ K.faults self.new }
        ensures refused { IfErr result (λ e.
            IsPartOfText (encoded keyset.write ks.now) e.kind (K.got self.old) (K.got self.new)) }
        ensures unwritten { IfErr result (λ e. e.kind ≡ OutOfMemory → self.new ≡ self.old) }
        ensures same { K.same self.old self.new }
    {
        write_as::<Binary, Keyset, K>(alloc, &mut self.sink, ks)
    }

    /// Writes the encrypted keyset's bytes, all of them.
    ///
    /// # Errors
    /// As `write`.
    fn write_encrypted(&mut self, alloc: Global, ks: &EncryptedKeyset) -> Result<(), TinkError>
        ensures answer { HasWritten result (Some (Ok tt)) (K.faults self.old) (K.faults self.new) }
        ensures written { OnOk result
            (Appends (K.got self.old) (K.got self.new) (encoded encrypted_keyset.write ks.now)) }
        ensures count { K.faults self.old ≤ K.faults self.new }
        ensures refused { IfErr result (λ e.
            IsPartOfText (encoded encrypted_keyset.write ks.now) e.kind (K.got self.old) (K.got self.new)) }
        ensures unwritten { IfErr result (λ e. e.kind ≡ OutOfMemory → self.new ≡ self.old) }
        ensures same { K.same self.old self.new }
    {
        write_as::<Binary, EncryptedKeyset, K>(alloc, &mut self.sink, ks)
    }

    ghost same_refl = { λ w. K.same_refl w };

    ghost same_trans = { λ w x y. K.same_trans w x y };
}
