//! Objects of readers of ranges. A reader of ranges answers again and again: no call changes it.

ghost use Rattle.std.specs.Prelude.{◌≡◌, ℕ, List, Some, MatchResult};
ghost use Rattle.tink_c_bytes.specs.Delivered.{Hands, handed};
ghost use Rattle.tink_c_streams.specs.NewReaders.{BeginsNoReader};
ghost use Rattle.tink_c_streams.specs.RangeReaders.{IsRangeReader};
ghost use Rattle.tink_c_streams.specs.Streams.{GivesRange, RefusesRange};
ghost use Rattle.tink_c_objects.specs.Objects.{held_by};
ghost use Rattle.tink_c_objects.specs.Ranges.{FillsRanges, OfRanges, RangesGive};

use crate::filling::{box_object, fill};
use crate::object::Object;
use crate::owner::Owner;
use crate::writing::closed;
use std::alloc::Global;
use tink_c_bytes::deliver;
use tink_c_streams::{RangeReader, range_reader_of};
use tink_io::TinkError;

/// Fills an object with a reader of ranges of streams under the keys of a file, with the associated data. The object that
/// was there is freed. After a status other than 0 it is as before.
pub fn fill_ranges(alloc: Global, owner: &mut Owner, file: &[u8], associated_data: &[u8]) -> u8
    ensures { FillsRanges file.now associated_data.now (held_by owner.old) (held_by owner.new) result }
{
    let loaded = load_ranges(alloc, file, associated_data);
    fill(alloc, owner, loaded)
}

fn load_ranges(alloc: Global, file: &[u8], associated_data: &[u8]) -> Result<Box<Object>, TinkError>
    ensures { MatchResult result
        (λ b. OfRanges (IsRangeReader file.now associated_data.now) (Some b.value))
        (λ e. BeginsNoReader file.now e.kind) }
{
    let ranges = range_reader_of(alloc, file, associated_data)?;
    box_object(alloc, Object::Ranges(ranges))
}

/// Puts at the beginning of `out` a range of the text of the stream that the input is, and writes how many bytes these
/// are. If they are longer than `out`, `out` stays as it is, and their length is written.
///
/// # Errors
/// By its status: `Closed` if there is no object of ranges. Then those of `range` of `tink_c_streams`. `out` stays as it
/// is, and 0 is written.
pub fn range_read(
    alloc: Global,
    owner: &mut Owner,
    input: &[u8],
    start: u64,
    len: u64,
    out: &mut [u8],
    written: &mut usize,
) -> u8
    ensures answer { RangesGive input.now start len (handed out.old out.new written.new result) (held_by owner.old) }
    ensures kept { held_by owner.new ≡ held_by owner.old }
{
    let Some(object) = owner.take(alloc) else {
        return closed(written);
    };
    let status = range_read_by(alloc, &object, input, start, len, out, written);
    owner.put(alloc, object);
    status
}

// The same of an object.
fn range_read_by(
    alloc: Global,
    object: &Object,
    input: &[u8],
    start: u64,
    len: u64,
    out: &mut [u8],
    written: &mut usize,
) -> u8
    ensures { RangesGive input.now start len (handed out.old out.new written.new result) (Some object.now) }
{
    match object {
        Object::Ranges(reader) => read_range(alloc, reader, input, start, len, out, written),
        Object::Aead(_)
        | Object::Daead(_)
        | Object::Mac(_)
        | Object::Prfs(_)
        | Object::Writer(_)
        | Object::Reader(_) => closed(written),
    }
}

// The same of a reader.
fn read_range(
    alloc: Global,
    reader: &RangeReader,
    input: &[u8],
    start: u64,
    len: u64,
    out: &mut [u8],
    written: &mut usize,
) -> u8
    ensures { (file aad : List ℕ) → IsRangeReader file aad reader.now
        → Hands (GivesRange file aad input.now start len) (RefusesRange file aad input.now start len)
        (handed out.old out.new written.new result) }
{
    deliver(reader.read(alloc, input, start, len), out, written)
}
