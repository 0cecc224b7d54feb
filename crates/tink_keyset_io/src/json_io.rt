//! Keysets in JSON.

ghost use Rattle.std.specs.Prelude.{◌≡◌, ◌≤◌, ◌+◌, ◌^◌, Some, Ok, OnOk, IfErr};
ghost use Rattle.std.specs.Io.KnownBytes.{Appends, IsAtEnd};
ghost use Rattle.tink_io.specs.declared.error.Kind.TheVariants.{BadJson, OutOfMemory};
ghost use Rattle.tink_keysets.specs.Ends.{HasRead, HasWritten};
ghost use Rattle.tink_json.specs.Messages.{encrypted_keyset, keyset, message_of};
ghost use Rattle.tink_json.specs.Written.{encrypted_keyset_value, keyset_value, pretty_text};
ghost use Rattle.tink_keyset_io.specs.Reading.{told};
ghost use Rattle.tink_io.specs.Taken.{LosesAtMost};
ghost use Rattle.tink_keyset_io.specs.Writing.{IsPartOfText};

use crate::text::{read_as, write_as};
use crate::text_form::TextForm;
use std::alloc::Global;
use std::marker::Model;
use tink_io::{Kind, Sink, Source, TinkError};
use tink_json::Json;
use tink_keysets::keyset::{Reader, Writer};
use tink_proto::{Bytes, EncryptedKeyset, Keyset, ProtoError};

// JSON.
struct JsonText;

impl<M: Json> TextForm<M> for JsonText {
    ghost use Rattle.std.specs.Prelude.{◌≡◌};
    ghost use Rattle.tink_io.specs.declared.error.Kind.TheVariants.{BadJson};
    ghost use Rattle.tink_json.specs.Messages.{message_of};
    ghost use Rattle.tink_json.specs.Written.{pretty_text};

    ghost message = { λ text. message_of M.form text };

    ghost spells = { λ m text. text ≡ pretty_text (M.value m) };

    ghost refusal = { BadJson };

    fn decode(alloc: Global, text: &[u8]) -> Result<M, TinkError> {
        match M::from_json(alloc, text) {
            Ok(message) => Ok(message),
            Err(ProtoError::OutOfMemory) => Err(TinkError::new(Kind::OutOfMemory)),
            Err(_) => Err(TinkError::new(Kind::BadJson)),
        }
    }

    fn encode(alloc: Global, message: &M) -> Result<Bytes, TinkError> {
        match message.to_json(alloc) {
            Ok(text) => Ok(Bytes::from_vec(text.into_string().into_bytes())),
            Err(_) => Err(TinkError::new(Kind::OutOfMemory)),
        }
    }
}

/// Reads a keyset from a source, whose bytes up to its end are one value of JSON.
/// Contracts see the source.
#[derive(Drop)]
pub struct JsonReader<S> {
    source: S,
}

impl<S> Model for JsonReader<S> {
    ghost Value = { S };

    ghost view = { λ r. r.source };
}

impl<S> JsonReader<S> {
    /// A reader of what the source has left.
    pub fn new(source: S) -> Self
        ensures { result ≡ source }
    {
        JsonReader { source }
    }

    /// The source, as the last read left it.
    pub fn into_inner(self) -> S
        ensures { result ≡ self }
    {
        self.source
    }
}

impl<S: Source> Reader for JsonReader<S> {
    ghost faults = { λ r. S.faults r };

    ghost reads = { λ r. told BadJson (message_of keyset) (S.left r) };

    ghost reads_encrypted = { λ r. told BadJson (message_of encrypted_keyset) (S.left r) };

    ghost leaves = { λ before after. LosesAtMost (2 ^ 26 + 1) (S.left before) (S.left after) };

    ghost same = { λ before after. S.same before after };

    /// The keyset that the bytes left are. The source is at its end then.
    ///
    /// # Errors
    /// `KeysetTooLong` exactly if more than 67,108,864 bytes are left: at most 67,108,865 are read. `BadJson`
    /// exactly if fewer bytes are no keyset in JSON. `ReadFault` if the source failed, and `OutOfMemory`.
    fn read(&mut self, alloc: Global) -> Result<Keyset, TinkError>
        ensures answer { HasRead result (told BadJson (message_of keyset) (S.left self.old))
            (S.faults self.old) (S.faults self.new) }
        ensures count { S.faults self.old ≤ S.faults self.new }
        ensures end { OnOk result (IsAtEnd (S.left self.new)) }
        ensures leaves { LosesAtMost (2 ^ 26 + 1) (S.left self.old) (S.left self.new) }
        ensures same { S.same self.old self.new }
    {
        read_as::<JsonText, Keyset, S>(alloc, &mut self.source)
    }

    /// The encrypted keyset that the bytes left are.
    ///
    /// # Errors
    /// As `read`.
    fn read_encrypted(&mut self, alloc: Global) -> Result<EncryptedKeyset, TinkError>
        ensures answer { HasRead result (told BadJson (message_of encrypted_keyset) (S.left self.old))
            (S.faults self.old) (S.faults self.new) }
        ensures count { S.faults self.old ≤ S.faults self.new }
        ensures end { OnOk result (IsAtEnd (S.left self.new)) }
        ensures leaves { LosesAtMost (2 ^ 26 + 1) (S.left self.old) (S.left self.new) }
        ensures same { S.same self.old self.new }
    {
        read_as::<JsonText, EncryptedKeyset, S>(alloc, &mut self.source)
    }

    ghost same_refl = { λ r. S.same_refl r };

    ghost same_trans = { λ r s t. S.same_trans r s t };
}

/// Writes keysets to a sink as pretty JSON. Contracts see the sink.
#[derive(Drop)]
pub struct JsonWriter<K> {
    sink: K,
}

impl<K> Model for JsonWriter<K> {
    ghost Value = { K };

    ghost view = { λ w. w.sink };
}

impl<K> JsonWriter<K> {
    /// A writer to the sink.
    pub fn new(sink: K) -> Self
        ensures { result ≡ sink }
    {
        JsonWriter { sink }
    }

    /// The sink, as the last write left it.
    pub fn into_inner(self) -> K
        ensures { result ≡ self }
    {
        self.sink
    }
}

impl<K: Sink> Writer for JsonWriter<K> {
    ghost faults = { λ w. K.faults w };

    ghost answers = { λ _ _. Some (Ok tt) };

    ghost answers_encrypted = { λ _ _. Some (Ok tt) };

    ghost writes = { λ before ks after. Appends (K.got before) (K.got after) (pretty_text (keyset_value ks)) };

    ghost writes_encrypted = { λ before ks after.
        Appends (K.got before) (K.got after) (pretty_text (encrypted_keyset_value ks)) };

    ghost refused = { λ before ks kind after.
        IsPartOfText (pretty_text (keyset_value ks)) kind (K.got before) (K.got after) };

    ghost refused_encrypted = { λ before ks kind after.
        IsPartOfText (pretty_text (encrypted_keyset_value ks)) kind (K.got before) (K.got after) };

    ghost same = { λ before after. K.same before after };

    /// Writes the keyset's text, all of it.
    ///
    /// # Errors
    /// `WriteFault` where the sink failed: it has a prefix of the text then. `OutOfMemory`: nothing
    /// is written then.
    fn write(&mut self, alloc: Global, ks: &Keyset) -> Result<(), TinkError>
        ensures answer { HasWritten result (Some (Ok tt)) (K.faults self.old) (K.faults self.new) }
        ensures written { OnOk result (Appends (K.got self.old) (K.got self.new) (pretty_text (keyset_value ks.now))) }
        ensures count { K.faults self.old ≤ K.faults self.new }
        ensures refused { IfErr result (λ e.
            IsPartOfText (pretty_text (keyset_value ks.now)) e.kind (K.got self.old) (K.got self.new)) }
        ensures unwritten { IfErr result (λ e. e.kind ≡ OutOfMemory → self.new ≡ self.old) }
        ensures same { K.same self.old self.new }
    {
        write_as::<JsonText, Keyset, K>(alloc, &mut self.sink, ks)
    }

    /// Writes the encrypted keyset's text, all of it.
    ///
    /// # Errors
    /// As `write`.
    fn write_encrypted(&mut self, alloc: Global, ks: &EncryptedKeyset) -> Result<(), TinkError>
        ensures answer { HasWritten result (Some (Ok tt)) (K.faults self.old) (K.faults self.new) }
        ensures written { OnOk result
            (Appends (K.got self.old) (K.got self.new) (pretty_text (encrypted_keyset_value ks.now))) }
        ensures count { K.faults self.old ≤ K.faults self.new }
        ensures refused { IfErr result (λ e.
            IsPartOfText (pretty_text (encrypted_keyset_value ks.now)) e.kind (K.got self.old) (K.got self.new)) }
        ensures unwritten { IfErr result (λ e. e.kind ≡ OutOfMemory → self.new ≡ self.old) }
        ensures same { K.same self.old self.new }
    {
        write_as::<JsonText, EncryptedKeyset, K>(alloc, &mut self.sink, ks)
    }

    ghost same_refl = { λ w. K.same_refl w };

    ghost same_trans = { λ w x y. K.same_trans w x y };
}
