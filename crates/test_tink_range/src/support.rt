//! Streams in memory, as objects.

use std::alloc::Global;
use test_util::{draws_of, enabled_key, handle_of, registry_of};
use tink_core::keyset::Handle;
use tink_core::registry::KeyManager;
use tink_io::{Lent, SureSink, TinkError};
use tink_proto::OutputPrefixType;
use tink_range::MemAt;
use tink_streaming_aead::{
    AES_CTR_HMAC_TYPE_URL, AES_GCM_HKDF_TYPE_URL, AesCtrHmacKeyManager, AesGcmHkdfKeyManager,
    StreamKinds, WrappedStreamingAead, new,
};

// A salt and a prefix.
const DRAWS: &[u8; 23] = b"abcdefghijklmnopqrstuvw";

/// The key of a keyset, by its bytes.
pub enum Keys {
    /// In counter mode.
    Ctr(&'static [u8]),
    /// By AES-GCM.
    Gcm(&'static [u8]),
}

/// What is done to a stream.
pub enum Object {
    /// It is read as it is.
    Whole,
    /// A read gives so many bytes at most.
    Pieces(usize),
    /// It is cut to so many bytes.
    Cut(usize),
    /// A bit is changed of the byte in this place.
    Changed(usize),
    /// The read of this number fails.
    Fails(u32),
}

fn handle(alloc: Global, url: &str, value: &[u8]) -> Result<Handle, TinkError> {
    let key = enabled_key(alloc, url, value, OutputPrefixType::Raw, 7)?;
    handle_of(7, vec![in alloc; key]?)
}

fn aeads_by<M: KeyManager<Family = StreamKinds> + Drop>(
    alloc: Global,
    km: M,
    url: &str,
    value: &[u8],
) -> Result<WrappedStreamingAead, TinkError> {
    match registry_of(alloc, km) {
        Ok(registry) => match handle(alloc, url, value) {
            Ok(h) => new(alloc, &h, &registry),
            Err(e) => Err(e),
        },
        Err(e) => Err(e),
    }
}

/// The streaming AEADs of a keyset of this one key.
pub fn aeads_of(alloc: Global, keys: &Keys) -> Result<WrappedStreamingAead, TinkError> {
    match keys {
        Keys::Ctr(value) => aeads_by(
            alloc,
            AesCtrHmacKeyManager::new(),
            AES_CTR_HMAC_TYPE_URL,
            value,
        ),
        Keys::Gcm(value) => aeads_by(
            alloc,
            AesGcmHkdfKeyManager::new(),
            AES_GCM_HKDF_TYPE_URL,
            value,
        ),
    }
}

/// The bytes 0 to 250, again and again.
pub fn text_of(alloc: Global, count: usize) -> Result<Vec<u8>, TinkError> {
    let mut text = Vec::new(alloc);
    for i in 0..count {
        text.push((i % 251) as u8)?;
    }
    Ok(text)
}

/// A sink with room for so many bytes.
pub fn sink_of(alloc: Global, room: usize) -> Result<SureSink, TinkError> {
    let mut sink = SureSink::new(alloc);
    match sink.reserve(alloc, room) {
        Ok(()) => Ok(sink),
        Err(e) => Err(e),
    }
}

fn seal(
    alloc: Global,
    aeads: &WrappedStreamingAead,
    sink: &mut SureSink,
    count: usize,
) -> Result<(), TinkError> {
    let text = text_of(alloc, count)?;
    let mut draws = draws_of(alloc, DRAWS)?;
    match aeads.new_encrypting_writer(alloc, &mut draws, Lent(sink), b"data") {
        Ok(mut writer) => match writer.write(&text) {
            Ok(_) => writer.close(),
            Err(e) => Err(e),
        },
        Err(refused) => Err(refused.error),
    }
}

fn object_by(alloc: Global, mut stream: Vec<u8>, object: &Object) -> Result<MemAt, TinkError> {
    let mut piece = 0;
    let mut call = 0;
    match object {
        Object::Whole => {}
        Object::Pieces(n) => piece = *n,
        Object::Cut(n) => stream.truncate(*n),
        Object::Changed(place) => {
            if let Some(byte) = stream.get_mut(*place) {
                *byte ^= 1;
            }
        }
        Object::Fails(n) => call = *n,
    }
    Ok(MemAt::new(stream, piece, vec![in alloc; call]?))
}

/// The stream of a text of so many bytes with "data", as an object.
pub fn object_of(
    alloc: Global,
    aeads: &WrappedStreamingAead,
    count: usize,
    object: &Object,
) -> Result<MemAt, TinkError> {
    let mut sink = sink_of(alloc, 20000)?;
    match seal(alloc, aeads, &mut sink, count) {
        Ok(()) => object_by(alloc, sink.into_bytes(), object),
        Err(e) => Err(e),
    }
}
