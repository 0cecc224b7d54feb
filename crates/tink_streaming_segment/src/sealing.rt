// The segments of one stream, made one by one.
ghost use Rattle.std.specs.Prelude.{◌≡◌, ◌≤◌, ◌<◌, ◌+◌, ◌-◌, ◌^◌, length, take, OnOk, OnErr, IfErr};
ghost use Rattle.std.specs.Io.KnownBytes.{Appends};
ghost use Rattle.tink_io.specs.Faults.{Rose};
ghost use Rattle.tink_io.specs.Written.{AppendsPrefix};
ghost use Rattle.tink_io.specs.declared.error.Kind.TheVariants.{WriteFault};
ghost use Rattle.stream_model.specs.Cut.{room_at};
ghost use Rattle.tink_streaming_segment.specs.Sealers.{segment_map};

use crate::nonce::generate_segment_nonce;
use crate::sealer::Sealer;
use crate::segment_traits::SegmentEncrypter;
use tink_io::{Sink, TinkError, write_all};

/// The bytes of plaintext for which the next segment has room: `first` for segment 0, which follows the front, and
/// else `room`.
pub fn room_of<E: SegmentEncrypter>(sealer: &Sealer<E>, segments: u64) -> usize
    ensures { result ≡ room_at sealer.now.first sealer.now.room segments }
{
    if segments == 0 {
        sealer.first
    } else {
        sealer.room
    }
}

// Makes a segment in its text's place: `segment` is the text and room for what a segment has more.
fn seal_in_place<E: SegmentEncrypter>(
    sealer: &Sealer<E>,
    number: u64,
    last: bool,
    nonce: &mut [u8],
    segment: &mut [u8],
)
    requires number { number < 2 ^ 32 }
    requires nonce { length nonce.old ≡ sealer.now.nonce_size }
    requires room { sealer.now.overhead ≤ length segment.old }
    requires text { length segment.old ≤ sealer.now.room + sealer.now.overhead }
    ensures { segment.new ≡ segment_map sealer.now number last
        (take (length segment.old - sealer.now.overhead) segment.old) }
{
    match generate_segment_nonce(nonce, &sealer.prefix, number, last) {
        Ok(()) => sealer.encrypter.encrypt_segment_in_place(segment, nonce),
        Err(_) => unreachable!(),
    }
}

/// Encrypts the first `filled` bytes of `segment` in their place, as the segment of that number, and writes it.
///
/// # Errors
/// `WriteFault` if the sink failed, with a prefix of the segment written.
pub fn send<K: Sink, E: SegmentEncrypter>(
    sink: &mut K,
    sealer: &Sealer<E>,
    number: u64,
    last: bool,
    filled: usize,
    nonce: &mut [u8],
    segment: &mut [u8],
) -> Result<(), TinkError>
    requires number { number < 2 ^ 32 }
    requires text { filled ≤ sealer.now.room }
    requires nonce { length nonce.old ≡ sealer.now.nonce_size }
    requires room { sealer.now.room + sealer.now.overhead ≤ length segment.old }
    ensures ok { OnOk result (Appends (K.got sink.old) (K.got sink.new)
        (segment_map sealer.now number last (take filled segment.old))) }
    ensures prefix { OnErr result (AppendsPrefix (K.got sink.old) (K.got sink.new)
        (segment_map sealer.now number last (take filled segment.old))) }
    ensures rose { OnErr result (Rose (K.faults sink.old) (K.faults sink.new)) }
    ensures refused { IfErr result (λ e. e ≡ record { kind = WriteFault }) }
    ensures later { K.faults sink.old ≤ K.faults sink.new }
    ensures same { K.same sink.old sink.new }
{
    let n = filled + sealer.overhead;
    seal_in_place(sealer, number, last, nonce, &mut segment[..n]);
    write_all(sink, &segment[..n])
}
