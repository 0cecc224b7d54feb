//! New streams under a key. Nothing of them is written yet.

ghost use Rattle.std.specs.Prelude.{◌≡◌, ◌≤◌, ◌<◌, ◌+◌, ◌∷◌, ◌++◌, ◌↔◌, [], length, take, drop, slice_index, IfOk, IfErr, IsErr, OnOk, OnErr, MatchResult, vec_len, vec_capacity};
ghost use Rattle.std.specs.Io.KnownBytes.{Appends};
ghost use Rattle.stream_model.specs.Cut.{numbered};
ghost use Rattle.stream_model.specs.Key.{IsUsable, header_length, nonce_size, overhead};
ghost use Rattle.stream_model.specs.Sealing.{drawn};
ghost use Rattle.tink_io.specs.declared.error.Kind.TheVariants.{OutOfMemory, RandomFault, WriteFault};
ghost use Rattle.tink_io.specs.Faults.{Rose};
ghost use Rattle.tink_io.specs.Written.{AppendsPrefix};
ghost use Rattle.tink_streaming_keys.specs.Encrypting.{writer_room};
ghost use Rattle.tink_streaming_keys.specs.NewStreams.{HasTextSizes, IsPrepared, NotPrepared};
ghost use Rattle.tink_streaming_ciphers.specs.StreamSegments.{nonce_length_by, overhead_by, segment_by};
ghost use Rattle.tink_streaming_io.specs.Sealers.{held_text, writer_memory};

use crate::stream_memory::{MAX_HEADER, PREFIX, WriterMemory};
use crate::stream_params::DerivesStreams;
use std::alloc::Global;
use std::marker::Model;
use tink_io::{Draws, Sink, TinkError, write_all};
use tink_streaming_ciphers::StreamSegment;
use tink_streaming_io::{Sealer, SegmentWriter, refill};

/// The bytes before the segments of a new stream: the output prefix of its key, and its header.
///
/// A contract sees its bytes.
#[derive(Drop)]
pub struct Front<'a> {
    out: &'a [u8],
    header: [u8; MAX_HEADER],
    size: usize,
}

impl<'a> Model for Front<'a> {
    ghost use Rattle.std.specs.Prelude.{ℕ, List, ◌≤◌, ◌++◌, take};

    ghost Value = { List ℕ };

    ghost view = { λ f. f.out.now ++ take f.size f.header };

    ghost invariant = { λ f. f.size ≤ 40 };
}

impl<'a> Front<'a> {
    /// Writes it.
    ///
    /// # Errors
    /// `WriteFault` where the sink failed, and has a prefix of it.
    pub fn write<K: Sink>(&self, sink: &mut K) -> Result<(), TinkError>
        ensures written { OnOk result (Appends (K.got sink.old) (K.got sink.new) self.now) }
        ensures prefix { OnErr result (AppendsPrefix (K.got sink.old) (K.got sink.new) self.now) }
        ensures refused { IfErr result (λ e. e ≡ record { kind = WriteFault }) }
        ensures cause { OnErr result (Rose (K.faults sink.old) (K.faults sink.new)) }
        ensures later { K.faults sink.old ≤ K.faults sink.new }
        ensures same { K.same sink.old sink.new }
    {
        write_all(sink, self.out)?;
        write_all(sink, &self.header[..self.size])
    }
}

/// A new stream before anything is written: its front, and the writer of its segments.
#[derive(Drop)]
pub struct NewStream<'a> {
    /// The output prefix and the header.
    pub front: Front<'a>,
    /// The writer of the segments.
    pub writer: SegmentWriter<StreamSegment>,
}

// A header with a drawn salt and prefix, in front of zeros.
fn draw_header<T: DerivesStreams>(key: &T, draws: &mut Draws) -> Result<[u8; MAX_HEADER], TinkError>
    ensures ok { IfOk result (λ h. take (header_length (T.key_of key.now)) h ≡ header_length (T.key_of key.now) ∷ take
        (drawn (T.key_of key.now)) draws.old) }
    ensures rest { OnOk result (draws.new ≡ drop (drawn (T.key_of key.now)) draws.old) }
    ensures random_fault { IsErr result ↔ (length draws.old < drawn (T.key_of key.now)) }
    ensures refused { IfErr result (λ e. e ≡ record { kind = RandomFault }) }
    ensures err { OnErr result (draws.new ≡ draws.old) }
{
    let mut header = [0u8; MAX_HEADER];
    let size = key.header_length();
    header[0] = size as u8;
    draws.take_into(&mut header[1..size])?;
    Ok(header)
}

// How a key's segments under a header are made.
fn sealer_of<T: DerivesStreams>(
    key: &T,
    cipher: StreamSegment,
    header: &[u8],
    mut prefix: Vec<u8>,
) -> Sealer<StreamSegment>
    requires header { length header.now ≡ header_length (T.key_of key.now) }
    requires nonce { nonce_length_by cipher ≡ nonce_size (T.key_of key.now) }
    requires overhead { overhead_by cipher ≡ overhead (T.key_of key.now) }
    requires prefix { 7 ≤ vec_capacity prefix }
    ensures encrypter { result.encrypter ≡ cipher }
    ensures prefix { result.prefix.items ≡ drop ((T.key_of key.now).derived + 1) header.now }
    ensures sizes { HasTextSizes (T.key_of key.now) result.nonce_size result.overhead result.first result.room }
    ensures capacity { vec_capacity result.prefix ≡ vec_capacity prefix }
{
    let overhead = key.overhead();
    let room = key.segment_size() as usize - overhead;
    refill(&mut prefix, &header[header.len() - PREFIX..]);
    Sealer {
        encrypter: cipher,
        prefix,
        nonce_size: key.nonce_size(),
        overhead,
        first: key.first_segment_size() as usize - overhead,
        room,
    }
}

/// A new stream before anything is written. All its memory is reserved first. Then its salt and its nonce
/// prefix are drawn: 23 draws, or 39 if the derived key has 32 bytes. Then its keys are derived.
///
/// # Errors
/// `OutOfMemory` before anything was drawn. `RandomFault` exactly if fewer draws are left than these: they
/// stay. `UnknownHash` if HKDF's hash is unknown and `UnsupportedHash` if it is SHA-224: the draws were
/// taken.
pub fn prepare_stream<'a, T: DerivesStreams>(
    alloc: Global,
    key: &'a T,
    draws: &mut Draws,
    aad: &[u8],
) -> Result<NewStream<'a>, TinkError>
    ensures answer { MatchResult result
        (λ s. IsPrepared (T.key_of key.now) aad.now draws.old draws.new s.front
        (numbered (segment_by s.writer.sealer.encrypter) s.writer.sealer.nonce_size
        s.writer.sealer.prefix.items) s.writer.sealer.first s.writer.sealer.room s.writer.mode
        s.writer.segments (held_text s.writer))
        (λ e. NotPrepared (T.key_of key.now) draws.old draws.new e.kind) }
    ensures memory { IfOk result (λ s. writer_memory s.writer ≡ writer_room (T.key_of key.now)) }
{
    let memory = WriterMemory::reserve(alloc, key)?;
    let header = draw_header(key, draws)?;
    let size = key.header_length();
    let bytes = &header[..size];
    let cipher = key.derive(&bytes[1..size - PREFIX], aad)?;
    let sealer = sealer_of(key, cipher, bytes, memory.prefix);
    Ok(NewStream {
        front: Front {
            out: key.output_prefix(),
            header,
            size,
        },
        writer: SegmentWriter::from_parts(sealer, memory.buffers),
    })
}
