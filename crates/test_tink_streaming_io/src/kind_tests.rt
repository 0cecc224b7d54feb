//! A writer and a reader of segments by AES-GCM as the kind of either cipher.

ghost use Rattle.std.specs.Prelude.{◌≡◌, vec_len};

use std::alloc::Global;
use test_util::{Verdict, sink_of};
use tink_io::{SureSink, SureSource, TinkError, write_all};
use tink_streaming_ciphers::{GcmSegment, StreamSegment};
use tink_streaming_io::{
    Buffers, Opener, Reader, Sealer, SegmentReader, SegmentWriter, WriterBuffers,
};

const TEXT: &[u8; 38] = b"a text of more than two blocks, by ten";

const PREFIX: [u8; 7] = [1, 2, 3, 4, 5, 6, 7];

const KEY: [u8; 32] = [
    0, 1, 2, 3, 4, 5, 6, 7, 8, 9, 10, 11, 12, 13, 14, 15, 16, 17, 18, 19, 20, 21, 22, 23, 24, 25,
    26, 27, 28, 29, 30, 31,
];

// The text's segments of 16, 20 and 2 bytes under this key and prefix.
const STREAM: &[u8; 86] =
    b"\x77\x7b\xb5\xc8\xdb\x71\x65\xf1\x66\xf1\xea\xc5\xb6\x85\xf6\xed\x9d\xe6\x78\xdf\x2a\x31\xab\x63\x74\x49\x66\x39\x0f\x5b\x49\xed\x2a\x7b\x8c\x23\x67\xc0\xea\xbd\xcd\x81\x06\x8f\x10\xf2\x6a\xbf\x1b\xcd\x1f\x4f\x25\xd3\x7e\x31\x09\x43\xb1\x0a\x87\x73\xf5\x37\xe1\x21\xda\x74\xbf\xc0\x5f\x4c\xa7\x23\xbc\x5d\x63\x04\x39\xc3\x1f\x9c\x94\x9d\x75\xe4";

// How segments of 20 bytes of text are made, 16 in the first.
fn sealer(prefix: Vec<u8>) -> Sealer<StreamSegment>
    requires prefix { vec_len prefix ≡ 7 }
    ensures room { result.room ≡ 20 }
    ensures overhead { result.overhead ≡ 16 }
    ensures nonce_size { result.nonce_size ≡ 12 }
{
    Sealer {
        encrypter: StreamSegment::Gcm(GcmSegment::new(&KEY)),
        prefix,
        nonce_size: 12,
        overhead: 16,
        first: 16,
        room: 20,
    }
}

// How they are opened.
fn opener(prefix: Vec<u8>) -> Opener<StreamSegment>
    requires prefix { vec_len prefix ≡ 7 }
    ensures size { result.size ≡ 36 }
    ensures nonce_size { result.nonce_size ≡ 12 }
{
    Opener {
        decrypter: StreamSegment::Gcm(GcmSegment::new(&KEY)),
        prefix,
        nonce_size: 12,
        overhead: 16,
        first: 32,
        size: 36,
    }
}

// A writer of such segments.
fn writer(alloc: Global) -> Result<SegmentWriter<StreamSegment>, TinkError> {
    let prefix = PREFIX.to_vec(alloc)?;
    match WriterBuffers::reserve(alloc, 36, 12) {
        Ok(buffers) => Ok(SegmentWriter::from_parts(sealer(prefix), buffers)),
        Err(e) => Err(e),
    }
}

// Writes the text and closes the stream.
fn seal(writer: &mut SegmentWriter<StreamSegment>, sink: &mut SureSink) -> Result<(), TinkError> {
    match writer.write(sink, TEXT) {
        Ok(_) => writer.close(sink),
        Err(e) => Err(e),
    }
}

// Whether a sink has these bytes then, if nothing was refused.
fn has(told: Result<(), TinkError>, sink: &SureSink, want: &[u8]) -> Result<bool, TinkError> {
    match told {
        Ok(()) => Ok(sink.bytes() == want),
        Err(e) => Err(e),
    }
}

// Whether the text has the stream by this writer.
fn seals(alloc: Global, writer: &mut SegmentWriter<StreamSegment>) -> Result<bool, TinkError> {
    let mut sink = sink_of(alloc, 86)?;
    has(seal(writer, &mut sink), &sink, STREAM)
}

// Whether the text has the stream.
fn is_sealed(alloc: Global) -> Result<bool, TinkError> {
    match writer(alloc) {
        Ok(mut writer) => seals(alloc, &mut writer),
        Err(e) => Err(e),
    }
}

type SureReader = Reader<SureSource, StreamSegment>;

// A reader of the stream.
fn reader(alloc: Global) -> Result<SureReader, TinkError> {
    let stream = STREAM.to_vec(alloc)?;
    let prefix = PREFIX.to_vec(alloc)?;
    match Buffers::reserve(alloc, 36, 12) {
        Ok(buffers) => {
            let reader = SegmentReader::from_parts(opener(prefix), buffers, 0);
            Ok(Reader::over(SureSource::new(stream), reader))
        }
        Err(e) => Err(e),
    }
}

// Moves the text of a segment.
fn pour(reader: &mut SureReader, sink: &mut SureSink) -> Result<(), TinkError> {
    let mut piece = [0u8; 64];
    match reader.read(&mut piece) {
        Ok(n) => write_all(sink, &piece[..n]),
        Err(e) => Err(e),
    }
}

// Moves the text of three segments, and reads what is behind them.
fn open(reader: &mut SureReader, sink: &mut SureSink) -> Result<(), TinkError> {
    for _ in 0..4 {
        pour(reader, sink)?;
    }
    Ok(())
}

// Whether the stream opens to the text by this reader.
fn opens(alloc: Global, reader: &mut SureReader) -> Result<bool, TinkError> {
    let mut sink = sink_of(alloc, 38)?;
    has(open(reader, &mut sink), &sink, TEXT)
}

// Whether the stream opens to the text.
fn is_opened(alloc: Global) -> Result<bool, TinkError> {
    match reader(alloc) {
        Ok(mut reader) => opens(alloc, &mut reader),
        Err(e) => Err(e),
    }
}

pub fn writers_and_readers_take_either_kind(alloc: Global, verdict: &mut Verdict) {
    verdict.expect(is_sealed(alloc), Ok(true), "the stream");
    verdict.expect(is_opened(alloc), Ok(true), "the text");
}
