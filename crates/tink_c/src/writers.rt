//! Encrypting writers: the stream of a text that comes in pieces.

ghost use Rattle.std.specs.Prelude.{◌≡◌, ℕ, List, None};
ghost use Rattle.stream_model.specs.Key.{StreamKey};
ghost use Rattle.tink_c_bytes.specs.Delivered.{handed};
ghost use Rattle.tink_c_streams.specs.Writers.{EndsStream, GoesOn, IsWriting};
ghost use Rattle.tink_c_objects.specs.Objects.{held_by};
ghost use Rattle.tink_c_objects.specs.Writers.{FillsWriter, OfWriter, WriterEnds, WriterNeeds, WriterTakes};

use std::alloc::Global;
use tink_c_objects::Owner;

/// Fills an object with a writer of a new stream under the primary key of a keyset. What it held before is freed.
#[unsafe(no_mangle)]
pub extern "C" fn tink_writer_new(
    alloc: Global,
    keyset: &[u8],
    associated_data: &[u8],
    random: &[u8],
    object: &mut Owner,
) -> u8
    ensures { FillsWriter keyset.now associated_data.now random.now (held_by object.old) (held_by object.new) result }
{
    tink_c_objects::fill_writer(alloc, object, keyset, associated_data, random)
}

/// The room that is enough for what each piece of a length gives, and for the last segment behind it.
#[unsafe(no_mangle)]
pub extern "C" fn tink_writer_bound(
    alloc: Global,
    object: &mut Owner,
    length: usize,
    needed: &mut usize,
) -> u8
    ensures answer { WriterNeeds length needed.new result (held_by object.old) }
    ensures kept { held_by object.new ≡ held_by object.old }
{
    tink_c_objects::writer_bound(alloc, object, length, needed)
}

/// The bytes of the stream that a piece of text gives.
#[unsafe(no_mangle)]
pub extern "C" fn tink_writer_write(
    alloc: Global,
    object: &mut Owner,
    piece: &[u8],
    out: &mut [u8],
    written: &mut usize,
) -> u8
    ensures answer { WriterTakes piece.now (handed out.old out.new written.new result) (held_by object.old)
        (held_by object.new) }
    ensures stream { (k : StreamKey) (aad random text bytes : List ℕ)
        → OfWriter (IsWriting k aad random text bytes) (held_by object.old)
        → OfWriter (GoesOn k aad random text bytes piece.now (handed out.old out.new written.new result))
        (held_by object.new) }
    ensures unchanged { result ≡ 42 → held_by object.new ≡ held_by object.old }
{
    tink_c_objects::writer_write(alloc, object, piece, out, written)
}

/// The last segment of the stream.
#[unsafe(no_mangle)]
pub extern "C" fn tink_writer_close(
    alloc: Global,
    object: &mut Owner,
    out: &mut [u8],
    written: &mut usize,
) -> u8
    ensures answer { WriterEnds (handed out.old out.new written.new result) (held_by object.old) (held_by object.new) }
    ensures stream { (k : StreamKey) (aad random text bytes : List ℕ)
        → OfWriter (IsWriting k aad random text bytes) (held_by object.old)
        → EndsStream k aad random text bytes (handed out.old out.new written.new result) }
    ensures unchanged { (result ≡ 0 → ⊥) → held_by object.new ≡ held_by object.old }
{
    tink_c_objects::writer_end(alloc, object, out, written)
}

/// Frees what an object of a writer holds.
#[unsafe(no_mangle)]
pub extern "C" fn tink_writer_free(alloc: Global, object: &mut Owner)
    ensures { held_by object.new ≡ None }
{
    object.free(alloc);
}
