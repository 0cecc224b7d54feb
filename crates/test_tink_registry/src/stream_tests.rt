//! Streams that are copied, called by the path of their source and sink.

ghost use Rattle.std.specs.Prelude.{[]};
ghost use Rattle.std.proofs.Common.{refl};

use std::alloc::Global;
use test_util::{Answer, Ask, Verdict};
use tink_io::{Draws, Kind, Sink, Source, SureSink, SureSource, TinkError};
use tink_primitives::{DecryptingRead, EncryptingWrite, Refused, StreamingAead};

/// Copies streams without associated data.
struct Copying;

#[derive(Drop)]
struct CopyingWriter<K> {
    sink: K,
}

#[derive(Drop)]
struct CopyingReader<S> {
    source: S,
}

impl<K: Sink> EncryptingWrite for CopyingWriter<K> {
    fn write(&mut self, buf: &[u8]) -> Result<usize, TinkError> {
        match self.sink.write(buf) {
            Ok(n) => Ok(n),
            Err(_) => Err(TinkError::new(Kind::WriteFault)),
        }
    }

    fn flush(&mut self) -> Result<(), TinkError> {
        Ok(())
    }

    fn close(&mut self) -> Result<(), TinkError> {
        Ok(())
    }
}

impl<S: Source> DecryptingRead for CopyingReader<S> {
    fn read(&mut self, buf: &mut [u8]) -> Result<usize, TinkError> {
        match self.source.read(buf) {
            Ok(n) => Ok(n),
            Err(_) => Err(TinkError::new(Kind::ReadFault)),
        }
    }
}

impl<S: Source, K: Sink> StreamingAead<S, K> for Copying {
    type Writer = CopyingWriter<K>;

    type Reader = CopyingReader<S>;

    fn new_encrypting_writer(
        &self,
        _alloc: Global,
        _draws: &mut Draws,
        w: K,
        additional_data: &[u8],
    ) -> Result<CopyingWriter<K>, Refused<K>> {
        if !additional_data.is_empty() {
            return Err(Refused {
                error: TinkError::new(Kind::DataTooLong),
                inner: w,
            });
        }
        Ok(CopyingWriter { sink: w })
    }

    fn new_decrypting_reader(
        &self,
        _alloc: Global,
        r: S,
        additional_data: &[u8],
    ) -> Result<CopyingReader<S>, Refused<S>> {
        if !additional_data.is_empty() {
            return Err(Refused {
                error: TinkError::new(Kind::DataTooLong),
                inner: r,
            });
        }
        Ok(CopyingReader { source: r })
    }
}

type Writing = Result<CopyingWriter<SureSink>, Refused<SureSink>>;

type Reading = Result<CopyingReader<SureSource>, Refused<SureSource>>;

fn write_abc(writer: &mut CopyingWriter<SureSink>) -> Result<(), TinkError> {
    writer.write(b"abc")?;
    writer.flush()?;
    writer.close()
}

// The bytes of a stream of abc, if each call was Ok, or how the writer is refused.
fn bytes_by(writing: Writing) -> Result<Vec<u8>, TinkError> {
    match writing {
        Ok(mut writer) => match write_abc(&mut writer) {
            Ok(()) => Ok(writer.sink.into_bytes()),
            Err(e) => Err(e),
        },
        Err(refused) => Err(refused.error),
    }
}

// Those of a writer to a sink with room for eight bytes.
fn written_stream(alloc: Global, additional_data: &[u8]) -> Result<Vec<u8>, TinkError> {
    let mut sink = SureSink::new(alloc);
    match sink.reserve(alloc, 8) {
        Ok(()) => bytes_by(<Copying as StreamingAead<SureSource, SureSink>>::new_encrypting_writer(
            &Copying,
            alloc,
            &mut Draws::new(Vec::new(alloc)),
            sink,
            additional_data,
        )),
        Err(e) => Err(e),
    }
}

// Whether a read of four bytes gives three, and the four are these. Or the refusal, if the first byte of the source
// that is handed back is as here.
fn first_read(reading: Reading, want: &[u8]) -> Result<bool, TinkError> {
    let mut buf = [0u8; 4];
    match reading {
        Ok(mut reader) => match reader.read(&mut buf) {
            Ok(n) => Ok((n == 3) & (buf.as_slice() == want)),
            Err(e) => Err(e),
        },
        Err(mut refused) => {
            if refused.inner.read(&mut buf[..1]).is_ok() & (buf.as_slice() == want) {
                Err(refused.error)
            } else {
                Ok(false)
            }
        }
    }
}

fn read_of(
    alloc: Global,
    stream: Result<Vec<u8>, TinkError>,
    additional_data: &[u8],
    want: &[u8],
) -> Result<bool, TinkError> {
    match stream {
        Ok(bytes) => first_read(
            <Copying as StreamingAead<SureSource, SureSink>>::new_decrypting_reader(
                &Copying,
                alloc,
                SureSource::new(bytes),
                additional_data,
            ),
            want,
        ),
        Err(e) => Err(e),
    }
}

const DATA: Answer = Err(Kind::DataTooLong);

// The data of the writer and of the reader, and what is read.
struct Copied(&'static [u8], &'static [u8], &'static [u8]);

impl Ask<()> for Copied {
    fn answer(&self, alloc: Global, _of: &mut ()) -> Result<bool, TinkError> {
        read_of(alloc, written_stream(alloc, self.0), self.1, self.2)
    }
}

const ROWS: &[(&str, Copied, Answer)] = &[
    ("abc", Copied(b"", b"", b"abc\x00"), Ok(true)),
    (
        "a reader with data, and its source",
        Copied(b"", b"x", b"a\x00\x00\x00"),
        DATA,
    ),
    ("a writer with data", Copied(b"x", b"", b""), DATA),
];

pub fn rows(alloc: Global, verdict: &mut Verdict) {
    verdict.walk(alloc, (), ROWS);
}
