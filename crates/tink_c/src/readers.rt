//! Decrypting readers: the text of a stream that comes in pieces, and ranges of streams under keys that are loaded once.

ghost use Rattle.std.specs.Prelude.{◌≡◌, None};
ghost use Rattle.tink_c_bytes.specs.Delivered.{handed};
ghost use Rattle.tink_c_objects.specs.Objects.{held_by};
ghost use Rattle.tink_c_objects.specs.Ranges.{FillsRanges, RangesGive};
ghost use Rattle.tink_c_objects.specs.Readers.{FillsReader, ReaderEnds, ReaderGives, ReaderTakes};

use std::alloc::Global;
use tink_c_objects::Owner;

/// Fills an object with a reader of ranges of streams under a keyset. What it held before is freed.
#[unsafe(no_mangle)]
pub extern "C" fn tink_range_reader_new(
    alloc: Global,
    keyset: &[u8],
    associated_data: &[u8],
    object: &mut Owner,
) -> u8
    ensures { FillsRanges keyset.now associated_data.now (held_by object.old) (held_by object.new) result }
{
    tink_c_objects::fill_ranges(alloc, object, keyset, associated_data)
}

/// A range of the plaintext of a stream.
#[unsafe(no_mangle)]
pub extern "C" fn tink_range_reader_read(
    alloc: Global,
    object: &mut Owner,
    stream: &[u8],
    start: u64,
    length: u64,
    out: &mut [u8],
    written: &mut usize,
) -> u8
    ensures answer { RangesGive stream.now start length (handed out.old out.new written.new result)
        (held_by object.old) }
    ensures kept { held_by object.new ≡ held_by object.old }
{
    tink_c_objects::range_read(alloc, object, stream, start, length, out, written)
}

/// Frees what an object of a reader of ranges holds.
#[unsafe(no_mangle)]
pub extern "C" fn tink_range_reader_free(alloc: Global, object: &mut Owner)
    ensures { held_by object.new ≡ None }
{
    object.free(alloc);
}

/// Fills an object with a reader of a stream under a keyset. What it held before is freed.
#[unsafe(no_mangle)]
pub extern "C" fn tink_reader_new(
    alloc: Global,
    keyset: &[u8],
    associated_data: &[u8],
    object: &mut Owner,
) -> u8
    ensures { FillsReader keyset.now associated_data.now (held_by object.old) (held_by object.new) result }
{
    tink_c_objects::fill_reader(alloc, object, keyset, associated_data)
}

/// Takes bytes of a piece of the stream.
#[unsafe(no_mangle)]
pub extern "C" fn tink_reader_feed(
    alloc: Global,
    object: &mut Owner,
    piece: &[u8],
    taken: &mut usize,
) -> u8
    ensures { ReaderTakes piece.now taken.new result (held_by object.old) (held_by object.new) }
{
    tink_c_objects::reader_feed(alloc, object, piece, taken)
}

/// Text that waits, as much as has room.
#[unsafe(no_mangle)]
pub extern "C" fn tink_reader_read(
    alloc: Global,
    object: &mut Owner,
    out: &mut [u8],
    written: &mut usize,
) -> u8
    ensures { ReaderGives (handed out.old out.new written.new result) (held_by object.old) (held_by object.new) }
{
    tink_c_objects::reader_read(alloc, object, out, written)
}

/// The end of the stream: its status is 0 exactly if the whole text was read.
#[unsafe(no_mangle)]
pub extern "C" fn tink_reader_end(alloc: Global, object: &mut Owner) -> u8
    ensures { ReaderEnds result (held_by object.old) (held_by object.new) }
{
    tink_c_objects::reader_end(alloc, object)
}

/// Frees what an object of a reader holds.
#[unsafe(no_mangle)]
pub extern "C" fn tink_reader_free(alloc: Global, object: &mut Owner)
    ensures { held_by object.new ≡ None }
{
    object.free(alloc);
}
