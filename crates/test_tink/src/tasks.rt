//! Five tasks, each under a new keyset.

use std::alloc::Global;
use test_util::{gives, sink_of};
use tink::aead::{AeadKind, WrappedAead, aes128_gcm_key_template};
use tink::keyset::{BinaryReader, BinaryWriter, Handle, JsonReader, JsonWriter, Manager, insecure};
use tink::mac::{MacKind, WrappedMac, hmac_sha256_tag128_key_template};
use tink::streaming_aead::{
    DecryptReader, StreamSegment, WrappedStreamingAead, Writer, aes128_gcm_hkdf_4kb_key_template,
};
use tink::{Aead, Draws, Lent, Mac, Managers, Registry, SureSink, SureSource, TinkError};
use tink_proto::{Bytes, KeyTemplate};

/// A task under a keyset.
#[derive(Clone, Copy)]
pub enum Task {
    /// A value is encrypted to a prefix, a nonce, the text and a tag, and decrypted.
    Encrypt,
    /// What a keyset encrypts is decrypted by it after a rotation, and new data have another prefix.
    Rotate,
    /// A MAC is accepted for its message alone.
    Mac,
    /// A keyset that was read from JSON decrypts what was encrypted before, after it was written and read under a
    /// master keyset. The master keyset is here the one in JSON itself.
    Json,
    /// A stream is written whole, and read ten bytes at a time.
    Stream,
}

/// Random bytes. A program reads them from the system's random source; a test counts.
pub fn draws(alloc: Global) -> Result<Draws, TinkError> {
    let mut bytes = Vec::new(alloc);
    let mut byte = 0u8;
    for _ in 0..5000 {
        bytes.push(byte)?;
        byte = if byte < 250 { byte + 1 } else { 0 };
    }
    Ok(Draws::new(bytes))
}

fn template(alloc: Global, task: Task) -> Result<KeyTemplate, TinkError> {
    match task {
        Task::Mac => hmac_sha256_tag128_key_template(alloc),
        Task::Stream => aes128_gcm_hkdf_4kb_key_template(alloc),
        _ => aes128_gcm_key_template(alloc),
    }
}

/// Whether a task is done under a new keyset.
pub fn is_done(
    alloc: Global,
    registry: &Registry<Managers>,
    draws: &mut Draws,
    task: Task,
) -> Result<bool, TinkError> {
    match template(alloc, task) {
        Ok(kt) => is_done_by(alloc, registry, &kt, draws, task),
        Err(e) => Err(e),
    }
}

// The same under a keyset of one new key by a template.
fn is_done_by(
    alloc: Global,
    registry: &Registry<Managers>,
    kt: &KeyTemplate,
    draws: &mut Draws,
    task: Task,
) -> Result<bool, TinkError> {
    match Handle::new(alloc, kt, registry, draws) {
        Ok(keyset) => is_done_under(alloc, registry, &keyset, kt, draws, task),
        Err(e) => Err(e),
    }
}

fn is_done_under(
    alloc: Global,
    registry: &Registry<Managers>,
    keyset: &Handle,
    kt: &KeyTemplate,
    draws: &mut Draws,
    task: Task,
) -> Result<bool, TinkError> {
    match task {
        Task::Mac => a_mac_is_of_its_message(alloc, registry, keyset),
        Task::Stream => a_stream_is_read_in_pieces(alloc, registry, keyset, draws),
        _ => old_data_opens(alloc, registry, keyset, kt, draws, task),
    }
}

// ---- a value is encrypted and decrypted

const VALUE: &[u8] = b"a value";

fn encrypt_value(
    alloc: Global,
    registry: &Registry<Managers>,
    keyset: &Handle,
    draws: &mut Draws,
) -> Result<Bytes, TinkError> {
    match tink::aead::new(alloc, keyset, registry) {
        Ok(aead) => aead.encrypt(alloc, VALUE, b"its column", draws),
        Err(e) => Err(e),
    }
}

// Whether a ciphertext is decrypted to the value.
fn is_value(
    alloc: Global,
    registry: &Registry<Managers>,
    keyset: &Handle,
    ciphertext: &[u8],
) -> Result<bool, TinkError> {
    match tink::aead::new(alloc, keyset, registry) {
        Ok(aead) => gives(aead.decrypt(alloc, ciphertext, b"its column"), VALUE),
        Err(e) => Err(e),
    }
}

// ---- a keyset is rotated or kept, and old data decrypted

// A copy of a keyset that was rotated, or written and read under the keyset itself.
fn later(
    alloc: Global,
    registry: &Registry<Managers>,
    keyset: &Handle,
    kt: &KeyTemplate,
    draws: &mut Draws,
    task: Task,
) -> Result<Handle, TinkError> {
    let copy = copy_by_json(alloc, keyset)?;
    match task {
        Task::Rotate => rotate_keyset(alloc, registry, copy, kt, draws),
        _ => kept_under(alloc, registry, &copy, keyset, draws),
    }
}

// Whether two ciphertexts have one prefix.
fn begins_alike(one: &[u8], other: &[u8]) -> bool {
    match other.get(..5) {
        Some(prefix) => one.starts_with(prefix),
        None => false,
    }
}

// Whether old data are decrypted, and new ones have another prefix after a rotation alone.
fn opens_old_data(
    alloc: Global,
    registry: &Registry<Managers>,
    keyset: &Handle,
    draws: &mut Draws,
    old: &[u8],
    task: Task,
) -> Result<bool, TinkError> {
    let is_alike = match encrypt_value(alloc, registry, keyset, draws) {
        Ok(new) => begins_alike(old, new.as_slice()),
        Err(e) => return Err(e),
    };
    let is_right = match task {
        Task::Rotate => !is_alike,
        _ => is_alike && old.len() == 5 + 12 + 7 + 16,
    };
    Ok(is_value(alloc, registry, keyset, old)? && is_right)
}

// The same by what becomes of a keyset.
fn later_opens(
    alloc: Global,
    registry: &Registry<Managers>,
    keyset: &Handle,
    kt: &KeyTemplate,
    draws: &mut Draws,
    old: &[u8],
    task: Task,
) -> Result<bool, TinkError> {
    match later(alloc, registry, keyset, kt, draws, task) {
        Ok(later) => opens_old_data(alloc, registry, &later, draws, old, task),
        Err(e) => Err(e),
    }
}

// Whether what a keyset encrypts is decrypted by it, or by what becomes of it.
fn old_data_opens(
    alloc: Global,
    registry: &Registry<Managers>,
    keyset: &Handle,
    kt: &KeyTemplate,
    draws: &mut Draws,
    task: Task,
) -> Result<bool, TinkError> {
    let old = encrypt_value(alloc, registry, keyset, draws)?;
    let old = old.as_slice();
    match task {
        Task::Encrypt => opens_old_data(alloc, registry, keyset, draws, old, task),
        _ => later_opens(alloc, registry, keyset, kt, draws, old, task),
    }
}

// ---- a key is rotated

fn rotate_keyset(
    alloc: Global,
    registry: &Registry<Managers>,
    keyset: Handle,
    kt: &KeyTemplate,
    draws: &mut Draws,
) -> Result<Handle, TinkError> {
    let mut manager = Manager::new_from_handle(keyset);
    match manager.rotate(alloc, kt, registry, draws) {
        Ok(_) => manager.handle(alloc),
        Err(e) => Err(e),
    }
}

// ---- a keyset in JSON is read, and written encrypted

fn in_json(alloc: Global, keyset: &Handle) -> Result<Vec<u8>, TinkError> {
    let mut writer = JsonWriter::new(sink_of(alloc, 1000)?);
    match insecure::write(alloc, keyset, &mut writer) {
        Ok(()) => Ok(writer.into_inner().into_bytes()),
        Err(e) => Err(e),
    }
}

// A copy of a keyset in JSON.
fn copy_by_json(alloc: Global, keyset: &Handle) -> Result<Handle, TinkError> {
    let text = in_json(alloc, keyset)?;
    insecure::read(alloc, &mut JsonReader::new(SureSource::new(text)))
}

// The keyset under the AEAD of a master key, in the wire format.
fn write_under(
    alloc: Global,
    keyset: &Handle,
    master: &WrappedAead<AeadKind>,
    draws: &mut Draws,
) -> Result<Vec<u8>, TinkError> {
    let mut writer = BinaryWriter::new(sink_of(alloc, 1000)?);
    match keyset.write(alloc, &mut writer, master, draws) {
        Ok(()) => Ok(writer.into_inner().into_bytes()),
        Err(e) => Err(e),
    }
}

// The keyset, after it was written and read so.
fn write_and_read(
    alloc: Global,
    keyset: &Handle,
    master: &WrappedAead<AeadKind>,
    draws: &mut Draws,
) -> Result<Handle, TinkError> {
    match write_under(alloc, keyset, master, draws) {
        Ok(stored) => {
            let mut reader = BinaryReader::new(SureSource::new(stored));
            Handle::read(alloc, &mut reader, master)
        }
        Err(e) => Err(e),
    }
}

// The same by the AEAD of a master keyset.
fn kept_under(
    alloc: Global,
    registry: &Registry<Managers>,
    keyset: &Handle,
    master: &Handle,
    draws: &mut Draws,
) -> Result<Handle, TinkError> {
    match tink::aead::new(alloc, master, registry) {
        Ok(master) => write_and_read(alloc, keyset, &master, draws),
        Err(e) => Err(e),
    }
}

// ---- a MAC is computed and verified

// Whether a MAC is a prefix and a tag, and accepted for its message and not for another.
fn is_of_its_message(alloc: Global, mac: &WrappedMac<MacKind>) -> Result<bool, TinkError> {
    let tag = mac.compute_mac(alloc, b"a message")?;
    let tag = tag.as_slice();
    let is_accepted = mac.verify_mac(alloc, tag, b"a message").is_ok();
    let other = mac.verify_mac(alloc, tag, b"another").is_ok();
    Ok(tag.len() == 5 + 16 && is_accepted && !other)
}

fn a_mac_is_of_its_message(
    alloc: Global,
    registry: &Registry<Managers>,
    keyset: &Handle,
) -> Result<bool, TinkError> {
    match tink::mac::new(alloc, keyset, registry) {
        Ok(mac) => is_of_its_message(alloc, &mac),
        Err(e) => Err(e),
    }
}

// ---- a stream is sealed, and read in pieces

const TEXT: &[u8] = b"a text of more than ten bytes";

fn write_whole(
    writer: &mut Writer<Lent<'_, SureSink>, StreamSegment>,
    text: &[u8],
) -> Result<(), TinkError> {
    writer.write(text)?;
    writer.close()
}

fn seal(
    alloc: Global,
    streams: &WrappedStreamingAead,
    sink: &mut SureSink,
    draws: &mut Draws,
) -> Result<(), TinkError> {
    match streams.new_encrypting_writer(alloc, draws, Lent(sink), b"its name") {
        Ok(mut writer) => write_whole(&mut writer, TEXT),
        Err(refused) => Err(refused.error),
    }
}

// Whether a reader gives the text, ten bytes at a time.
fn is_text(reader: &mut DecryptReader<SureSource>) -> Result<bool, TinkError> {
    let mut rest = TEXT;
    for _ in 0..100 {
        let mut piece = [0u8; 10];
        let n = reader.read(&mut piece)?;
        if n == 0 {
            return Ok(rest.is_empty());
        }
        if !rest.starts_with(&piece[..n]) {
            return Ok(false);
        }
        rest = rest.get(n..).unwrap_or(b"");
    }
    Ok(false)
}

fn opens(
    alloc: Global,
    streams: &WrappedStreamingAead,
    stream: Vec<u8>,
) -> Result<bool, TinkError> {
    let source = SureSource::new(stream);
    match streams.new_decrypting_reader(alloc, source, b"its name") {
        Ok(mut reader) => is_text(&mut reader),
        Err(refused) => Err(refused.error),
    }
}

// Whether the text is sealed to a stream that opens to it.
fn opens_again(
    alloc: Global,
    streams: &WrappedStreamingAead,
    draws: &mut Draws,
) -> Result<bool, TinkError> {
    let mut sink = sink_of(alloc, 1000)?;
    match seal(alloc, streams, &mut sink, draws) {
        Ok(()) => opens(alloc, streams, sink.into_bytes()),
        Err(e) => Err(e),
    }
}

fn a_stream_is_read_in_pieces(
    alloc: Global,
    registry: &Registry<Managers>,
    keyset: &Handle,
    draws: &mut Draws,
) -> Result<bool, TinkError> {
    match tink::streaming_aead::new(alloc, keyset, registry) {
        Ok(streams) => opens_again(alloc, &streams, draws),
        Err(e) => Err(e),
    }
}
