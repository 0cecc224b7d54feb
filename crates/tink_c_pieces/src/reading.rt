//! A reader of a stream in pieces.

ghost use Rattle.std.specs.Prelude.{◌≡◌, ◌≤◌, ◌<◌, ◌+◌, ◌++◌, [], length, take, drop, min, vec_len, Some, IfOk, IfErr, OnOk};
ghost use Rattle.tink_streaming_segment.specs.Openers.{segment_map};
ghost use Rattle.tink_streaming_io.specs.Openers.{held_bytes, pending_text, reader_memory};
ghost use Rattle.tink_streaming_io.specs.declared.progress.Progress.TheVariants.{Running};
ghost use Rattle.tink_c_pieces.specs.Readings.{FeedRefused, Feeds, FinishRefused, Finishes, piece_reading};

use crate::part::Part;
use tink_io::TinkError;
use tink_streaming_io::{SegmentReader, TextReader};
use tink_streaming_segment::{SegmentDecrypter, size_of};

// Holds bytes for which the buffer has room.
fn keep<D: SegmentDecrypter + Drop>(reader: &mut SegmentReader<D>, piece: &[u8])
    requires running { reader.old.progress ≡ Running }
    requires room { reader.old.filled + length piece.now ≤ vec_len reader.old.buffer }
    ensures held { held_bytes reader.new ≡ held_bytes reader.old ++ piece.now }
    ensures progress { reader.new.progress ≡ Running }
    ensures number { reader.new.segments ≡ reader.old.segments }
    ensures opened { reader.new.opened.items ≡ reader.old.opened.items }
    ensures opener { reader.new.opener ≡ reader.old.opener }
    ensures memory { reader_memory reader.new ≡ reader_memory reader.old }
{
    let at = reader.filled;
    reader.buffer[at..at + piece.len()].copy_from_slice(piece);
    reader.filled = at + piece.len();
}

/// Takes bytes of a piece up to one behind the next segment, and opens the segment once that byte is there. It answers how
/// many it took.
///
/// # Errors
/// `BadSegment` exactly if the segment is that of no text. `TooManySegments` if it has the number 2^32.
pub fn feed<D: SegmentDecrypter + Drop>(
    text: &mut TextReader<D>,
    piece: &[u8],
) -> Result<usize, TinkError>
    requires running { text.old.reader.progress ≡ Running }
    requires empty { pending_text text.old ≡ [] }
    ensures ok { IfOk result (λ n. Feeds (segment_map text.old.reader.opener) text.old.reader.opener.first
        text.old.reader.opener.size (piece_reading text.old) (piece_reading text.new) piece.now n) }
    ensures refused { IfErr result (λ e. FeedRefused (segment_map text.old.reader.opener)
        text.old.reader.opener.first text.old.reader.opener.size (piece_reading text.old) piece.now e.kind) }
    ensures opener { text.new.reader.opener ≡ text.old.reader.opener }
    ensures memory { reader_memory text.new.reader ≡ reader_memory text.old.reader }
{
    let room = size_of(&text.reader.opener, text.reader.segments);
    let lacking = (room + 1).saturating_sub(text.reader.filled);
    if piece.len() < lacking {
        keep(&mut text.reader, piece);
        return Ok(piece.len());
    }
    text.given = 0;
    let mut part = Part::new(&piece[..lacking]);
    text.reader.open_next(&mut part)?;
    Ok(lacking)
}

/// Says that nothing follows, and opens the next segment of the bytes that are held. If nothing is held then, the reader has
/// ended. Else the call is made again once the text was given.
///
/// # Errors
/// `BadSegment` if the segment is that of no text, `Truncated` if it is shorter than any segment. `TooManySegments` if it
/// has the number 2^32.
pub fn finish<D: SegmentDecrypter + Drop>(text: &mut TextReader<D>) -> Result<(), TinkError>
    requires running { text.old.reader.progress ≡ Running }
    requires empty { pending_text text.old ≡ [] }
    ensures ok { OnOk result (Finishes (segment_map text.old.reader.opener) text.old.reader.opener.first
        text.old.reader.opener.size (piece_reading text.old) (piece_reading text.new)) }
    ensures refused { IfErr result (λ e. FinishRefused (segment_map text.old.reader.opener)
        text.old.reader.opener.first text.old.reader.opener.size text.old.reader.opener.overhead
        (piece_reading text.old) e.kind) }
    ensures opener { text.new.reader.opener ≡ text.old.reader.opener }
    ensures memory { reader_memory text.new.reader ≡ reader_memory text.old.reader }
{
    text.given = 0;
    let mut nothing = Part::new(b"");
    text.reader.open_next(&mut nothing)
}

/// Puts the text that waits at the beginning of `out`, as much as has room, and answers how many bytes these are.
pub fn give<D: SegmentDecrypter + Drop>(text: &mut TextReader<D>, out: &mut [u8]) -> usize
    ensures count { result ≡ min (length out.old) (length (pending_text text.old)) }
    ensures given { take result out.new ≡ take result (pending_text text.old) }
    ensures behind { drop result out.new ≡ drop result out.old }
    ensures pending { pending_text text.new ≡ drop result (pending_text text.old) }
    ensures reader { text.new.reader ≡ text.old.reader }
{
    let at = text.given;
    let n = (text.reader.opened.len() - at).min(out.len());
    out[..n].copy_from_slice(&text.reader.opened[at..at + n]);
    text.given = at + n;
    n
}
