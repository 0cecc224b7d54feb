//! Objects of readers. A reader gives the text of the stream whose pieces it is given.

ghost use Rattle.std.specs.Prelude.{Some, MatchResult};
ghost use Rattle.tink_c_bytes.specs.Delivered.{handed};
ghost use Rattle.tink_c_streams.specs.NewReaders.{BeginsNoReader, BeginsReader};
ghost use Rattle.tink_c_objects.specs.Objects.{held_by};
ghost use Rattle.tink_c_objects.specs.Readers.{FillsReader, OfReader, ReaderEnds, ReaderGives, ReaderTakes};

use crate::filling::{box_object, fill};
use crate::object::Object;
use crate::owner::Owner;
use crate::writing::closed;
use std::alloc::Global;
use tink_c_bytes::status;
use tink_c_streams::reader_of;
use tink_io::{Kind, TinkError};

/// Fills an object with a reader of a stream under the keys of a file, with the associated data. The object that was
/// there is freed. After a status other than 0 it is as before.
pub fn fill_reader(alloc: Global, owner: &mut Owner, file: &[u8], associated_data: &[u8]) -> u8
    ensures { FillsReader file.now associated_data.now (held_by owner.old) (held_by owner.new) result }
{
    let loaded = load_reader(alloc, file, associated_data);
    fill(alloc, owner, loaded)
}

fn load_reader(alloc: Global, file: &[u8], associated_data: &[u8]) -> Result<Box<Object>, TinkError>
    ensures { MatchResult result
        (λ b. OfReader (BeginsReader file.now associated_data.now) (Some b.value))
        (λ e. BeginsNoReader file.now e.kind) }
{
    let reader = reader_of(alloc, file, associated_data)?;
    box_object(alloc, Object::Reader(reader))
}

/// Takes bytes of a piece of the stream, and writes how many. If fewer bytes were taken than the piece has, a key was
/// chosen or a segment was opened, and the rest goes into the next call.
///
/// # Errors
/// By its status: `Closed` if there is no object of a reader, with 0 written. Then those of `feed` of `tink_c_streams`.
pub fn reader_feed(alloc: Global, owner: &mut Owner, piece: &[u8], taken: &mut usize) -> u8
    ensures { ReaderTakes piece.now taken.new result (held_by owner.old) (held_by owner.new) }
{
    let Some(mut object) = owner.take(alloc) else {
        return closed(taken);
    };
    let status = feed_by(&mut object, piece, taken);
    owner.put(alloc, object);
    status
}

// The same of an object.
fn feed_by(object: &mut Object, piece: &[u8], taken: &mut usize) -> u8
    ensures { ReaderTakes piece.now taken.new result (Some object.old) (Some object.new) }
{
    match object {
        Object::Reader(reader) => reader.feed(piece, taken),
        Object::Aead(_)
        | Object::Daead(_)
        | Object::Mac(_)
        | Object::Prfs(_)
        | Object::Writer(_)
        | Object::Ranges(_) => closed(taken),
    }
}

/// Puts text that waits at the beginning of `out`, as much as has room, and writes how many bytes these are.
///
/// # Errors
/// By its status: `Closed` if there is no object of a reader, and `FailedBefore` if the reader is spent. `out` stays as it
/// is, and 0 is written.
pub fn reader_read(alloc: Global, owner: &mut Owner, out: &mut [u8], written: &mut usize) -> u8
    ensures { ReaderGives (handed out.old out.new written.new result) (held_by owner.old) (held_by owner.new) }
{
    let Some(mut object) = owner.take(alloc) else {
        return closed(written);
    };
    let status = read_by(&mut object, out, written);
    owner.put(alloc, object);
    status
}

// The same of an object.
fn read_by(object: &mut Object, out: &mut [u8], written: &mut usize) -> u8
    ensures { ReaderGives (handed out.old out.new written.new result) (Some object.old) (Some object.new) }
{
    match object {
        Object::Reader(reader) => reader.read(out, written),
        Object::Aead(_)
        | Object::Daead(_)
        | Object::Mac(_)
        | Object::Prfs(_)
        | Object::Writer(_)
        | Object::Ranges(_) => closed(written),
    }
}

/// Says that nothing follows, and opens the next segment of the bytes that are held. Its status is 0 exactly if all that
/// came is a stream of the chosen key, and its whole text was read.
///
/// # Errors
/// By its status: `Closed` if there is no object of a reader. Then those of `end` of `tink_c_streams`.
pub fn reader_end(alloc: Global, owner: &mut Owner) -> u8
    ensures { ReaderEnds result (held_by owner.old) (held_by owner.new) }
{
    let Some(mut object) = owner.take(alloc) else {
        return status(Kind::Closed);
    };
    let status = end_by(&mut object);
    owner.put(alloc, object);
    status
}

// The same of an object.
fn end_by(object: &mut Object) -> u8
    ensures { ReaderEnds result (Some object.old) (Some object.new) }
{
    match object {
        Object::Reader(reader) => reader.end(),
        Object::Aead(_)
        | Object::Daead(_)
        | Object::Mac(_)
        | Object::Prfs(_)
        | Object::Writer(_)
        | Object::Ranges(_) => status(Kind::Closed),
    }
}
