//! Segments that are put into buffers.

ghost use Rattle.std.specs.Prelude.{◌≡◌, ◌≤◌, ◌<◌, ◌+◌, ◌-◌, ◌^◌, ◌++◌, [], false, length, take, drop, min, vec_len};
ghost use Rattle.stream_model.specs.Cut.{room_at};
ghost use Rattle.tink_streaming_segment.specs.Sealers.{segment_map};
ghost use Rattle.tink_streaming_io.specs.Sealers.{held_text, writer_memory};
ghost use Rattle.tink_streaming_io.specs.Writing.{mode_after};
ghost use Rattle.tink_streaming_io.specs.declared.writing.Mode.TheVariants.{Open};
ghost use Rattle.tink_c_pieces.specs.Moments.{behind_front};
ghost use Rattle.tink_c_pieces.specs.Pieces.{HasNumbers, Took, given};

use tink_streaming_io::{Mode, SegmentWriter};
use tink_streaming_segment::{Sealer, SegmentEncrypter, generate_segment_nonce, room_of};

// Holds text of `piece`, as much as the next segment has room for.
fn hold<E: SegmentEncrypter + Drop>(writer: &mut SegmentWriter<E>, piece: &[u8]) -> usize
    ensures count { result ≡ min (room_at writer.old.sealer.first writer.old.sealer.room writer.old.segments
        - writer.old.filled) (length piece.now) }
    ensures filled { writer.new.filled ≡ writer.old.filled + result }
    ensures held { held_text writer.new ≡ held_text writer.old ++ take result piece.now }
    ensures sealer { writer.new.sealer ≡ writer.old.sealer }
    ensures memory { writer_memory writer.new ≡ writer_memory writer.old }
    ensures mode { writer.new.mode ≡ writer.old.mode }
    ensures segments { writer.new.segments ≡ writer.old.segments }
{
    let at = writer.filled;
    let n = (room_of(&writer.sealer, writer.segments) - at).min(piece.len());
    writer.segment[at..at + n].copy_from_slice(&piece[..n]);
    writer.filled = at + n;
    n
}

// Puts the segment of a text into `out`, which has its length.
fn seal<E: SegmentEncrypter>(
    sealer: &Sealer<E>,
    number: u64,
    last: bool,
    nonce: &mut [u8],
    text: &[u8],
    out: &mut [u8],
)
    requires number { number < 2 ^ 32 }
    requires nonce { length nonce.old ≡ sealer.now.nonce_size }
    requires text { length text.now ≤ sealer.now.room }
    requires room { length out.old ≡ length text.now + sealer.now.overhead }
    ensures { out.new ≡ segment_map sealer.now number last text.now }
{
    match generate_segment_nonce(nonce, &sealer.prefix, number, last) {
        Ok(()) => sealer.encrypter.encrypt_segment_into(text, nonce, out),
        Err(_) => unreachable!(),
    }
}

/// Puts the segment of the text that is held into `out`, from place `to` on, and answers how long it is.
pub(crate) fn put<E: SegmentEncrypter + Drop>(
    writer: &mut SegmentWriter<E>,
    last: bool,
    out: &mut [u8],
    to: usize,
) -> usize
    requires open { writer.old.mode ≡ Open }
    requires more { last ≡ false → writer.old.segments + 1 < 2 ^ 32 }
    requires room { to + (writer.old.filled + writer.old.sealer.overhead) ≤ length out.old }
    ensures count { result ≡ writer.old.filled + writer.old.sealer.overhead }
    ensures put { out.new ≡ take to out.old ++ segment_map writer.old.sealer writer.old.segments last
        (held_text writer.old) ++ drop (to + result) out.old }
    ensures filled { writer.new.filled ≡ 0 }
    ensures held { held_text writer.new ≡ [] }
    ensures mode { writer.new.mode ≡ mode_after last }
    ensures counted { writer.new.segments ≡ writer.old.segments + 1 }
    ensures sealer { writer.new.sealer ≡ writer.old.sealer }
    ensures memory { writer_memory writer.new ≡ writer_memory writer.old }
{
    let n = writer.filled + writer.sealer.overhead;
    seal(
        &writer.sealer,
        writer.segments,
        last,
        &mut writer.nonce,
        &writer.segment[..writer.filled],
        &mut out[to..to + n],
    );
    writer.filled = 0;
    writer.segments += 1;
    if last {
        writer.mode = Mode::Closed;
    }
    n
}

/// Takes all of `piece`: the segments of the chunks that are full and have text behind them are put at the beginning of
/// `out`, and the last chunk is held.
pub(crate) fn put_text<E: SegmentEncrypter + Drop>(
    writer: &mut SegmentWriter<E>,
    piece: &[u8],
    out: &mut [u8],
)
    requires open { writer.old.mode ≡ Open }
    requires few { HasNumbers (segment_map writer.old.sealer) writer.old.sealer.first writer.old.sealer.room
        (behind_front writer.old) piece.now }
    requires room { length (given (segment_map writer.old.sealer) writer.old.sealer.first writer.old.sealer.room
        (behind_front writer.old) piece.now) ≤ length out.old }
    ensures put { out.new ≡ given (segment_map writer.old.sealer) writer.old.sealer.first writer.old.sealer.room
        (behind_front writer.old) piece.now ++ drop (length (given (segment_map writer.old.sealer)
        writer.old.sealer.first writer.old.sealer.room (behind_front writer.old) piece.now)) out.old }
    ensures took { Took (segment_map writer.old.sealer) writer.old.sealer.first writer.old.sealer.room
        (behind_front writer.old) (behind_front writer.new) piece.now }
    ensures sealer { writer.new.sealer ≡ writer.old.sealer }
    ensures memory { writer_memory writer.new ≡ writer_memory writer.old }
{
    let mut to = 0;
    let mut at = hold(writer, piece);
    while at < piece.len() {
        to += put(writer, false, out, to);
        at += hold(writer, &piece[at..]);
    }
}
