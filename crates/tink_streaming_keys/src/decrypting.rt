//! Readers of streams under one key.

ghost use Rattle.std.specs.Prelude.{◌≡◌, ◌≤◌, ◌+◌, length, take, drop, slice_index, IfOk, IfErr, MatchResult, vec_capacity};
ghost use Rattle.std.specs.Io.KnownBytes.{prepend_known};
ghost use Rattle.stream_model.specs.Cut.{numbered};
ghost use Rattle.stream_model.specs.Key.{header_length, nonce_size, overhead};
ghost use Rattle.tink_streaming_keys.specs.Decrypters.{HasKeySizes};
ghost use Rattle.tink_streaming_keys.specs.Decrypting.{HeaderRefused, IsNewReader, NewReaderMeans, NewReaderRefused, ReadsHeader, reader_room, source_of};
ghost use Rattle.tink_streaming_ciphers.specs.StreamSegments.{nonce_length_by, overhead_by, segment_by};
ghost use Rattle.tink_streaming_io.specs.Openers.{reader_memory};
ghost use Rattle.tink_streaming_io.specs.TextReading.{TextMoment};

use crate::stream_memory::{MAX_HEADER, PREFIX, ReaderMemory};
use crate::stream_params::DerivesStreams;
use std::alloc::Global;
use tink_io::{Kind, Source, TinkError};
use tink_primitives::Refused;
use tink_streaming_ciphers::StreamSegment;
use tink_streaming_io::{Opener, Reader, SegmentReader, fill, refill};

// Reads a header of the key, in front of zeros.
fn read_header<T: DerivesStreams, S: Source>(
    key: &T,
    source: &mut S,
) -> Result<[u8; MAX_HEADER], TinkError>
    ensures ok { IfOk result (λ h. ReadsHeader (T.key_of key.now) (S.left source.old) (S.left source.new)
        (take (header_length (T.key_of key.now)) h)) }
    ensures refused { IfErr result (λ e. HeaderRefused (T.key_of key.now) (S.left source.old) (S.left source.new)
        (S.faults source.old) (S.faults source.new) e.kind) }
    ensures later { S.faults source.old ≤ S.faults source.new }
    ensures same { S.same source.old source.new }
{
    let mut header = [0u8; MAX_HEADER];
    let mut n: usize = 0;
    let size = key.header_length();
    let Ok(()) = fill(source, &mut header, &mut n, size) else {
        return Err(TinkError::new(Kind::ReadFault));
    };
    if n < size {
        return Err(TinkError::new(Kind::NoMatchingKey));
    }
    if usize::from(header[0]) != size {
        return Err(TinkError::new(Kind::NoMatchingKey));
    }
    Ok(header)
}

/// How the segments behind a header of a key are decrypted.
pub fn opener_of<T: DerivesStreams>(
    key: &T,
    cipher: StreamSegment,
    header: &[u8],
    mut prefix: Vec<u8>,
) -> Opener<StreamSegment>
    requires header { length header.now ≡ header_length (T.key_of key.now) }
    requires nonce { nonce_length_by cipher ≡ nonce_size (T.key_of key.now) }
    requires overhead { overhead_by cipher ≡ overhead (T.key_of key.now) }
    requires prefix { 7 ≤ vec_capacity prefix }
    ensures decrypter { result.decrypter ≡ cipher }
    ensures prefix { result.prefix.items ≡ drop ((T.key_of key.now).derived + 1) header.now }
    ensures room { vec_capacity result.prefix ≡ vec_capacity prefix }
    ensures sizes { HasKeySizes (T.key_of key.now) result.nonce_size result.overhead result.first result.size }
{
    refill(&mut prefix, &header[header.len() - PREFIX..]);
    Opener {
        decrypter: cipher,
        prefix,
        nonce_size: key.nonce_size(),
        overhead: key.overhead(),
        first: key.first_segment_size() as usize,
        size: key.segment_size() as usize,
    }
}

// A reader of what a source has left behind a header of the key.
fn begin<T: DerivesStreams, S: Source>(
    alloc: Global,
    key: &T,
    source: &mut S,
    aad: &[u8],
) -> Result<SegmentReader<StreamSegment>, TinkError>
    ensures answer { MatchResult result
        (λ r. IsNewReader (T.key_of key.now) aad.now (S.left source.old)
        (numbered (segment_by r.opener.decrypter) r.opener.nonce_size r.opener.prefix.items) r.opener.first
        r.opener.size r.opener.overhead
        (take r.filled r.buffer.items)
        (record {
          progress = r.progress;
          number = r.segments;
          pending = r.opened.items;
          rest = prepend_known (take r.filled r.buffer.items) (S.left source.new);
          faults = S.faults source.new;
        }))
        (λ e. NewReaderRefused S.left S.faults (T.key_of key.now) source.old source.new e.kind) }
    ensures memory { IfOk result (λ r. reader_memory r ≡ reader_room (T.key_of key.now)) }
    ensures later { S.faults source.old ≤ S.faults source.new }
    ensures same { S.same source.old source.new }
{
    let memory = ReaderMemory::reserve(alloc, key)?;
    let header = read_header(key, source)?;
    let size = key.header_length();
    let header = &header[..size];
    let cipher = key.derive(&header[1..size - PREFIX], aad)?;
    let opener = opener_of(key, cipher, header, memory.prefix);
    Ok(SegmentReader::from_parts(opener, memory.buffers, 0))
}

/// A reader of the stream in `r`. It reads the output prefix and the header.
///
/// # Errors
/// The error hands back the source. `OutOfMemory`, with the source as before. `ReadFault` if the source failed before
/// the header's end. `NoMatchingKey` if it has no output prefix and header of the key. `UnknownHash` if HKDF's hash is
/// unknown, `UnsupportedHash` if it is SHA-224: the header was read then.
pub fn new_decrypting_reader<T: DerivesStreams, S: Source + Drop>(
    alloc: Global,
    key: &T,
    r: S,
    aad: &[u8],
) -> Result<Reader<S, StreamSegment>, Refused<S>>
    ensures answer { NewReaderMeans S.left S.faults (T.key_of key.now) aad.now r result }
    ensures memory { IfOk result (λ made. made.memory ≡ reader_room (T.key_of key.now)) }
    ensures later { S.faults r ≤ S.faults (source_of result) }
    ensures same { S.same r (source_of result) }
{
    let mut source = r;
    match begin(alloc, key, &mut source, aad) {
        Ok(reader) => Ok(Reader::over(source, reader)),
        Err(error) => Err(Refused {
            error,
            inner: source,
        }),
    }
}
