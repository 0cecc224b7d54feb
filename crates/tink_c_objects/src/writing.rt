//! Objects of writers. A writer makes the stream of the pieces of text that it is given.

ghost use Rattle.std.specs.Prelude.{◌≡◌, ℕ, List, Some, IfOk, IfErr, MatchResult};
ghost use Rattle.stream_model.specs.Key.{StreamKey};
ghost use Rattle.tink_io.specs.declared.error.Kind.TheVariants.{Closed};
ghost use Rattle.tink_c_bytes.specs.Delivered.{handed};
ghost use Rattle.tink_c_bytes.specs.Statuses.{c_status};
ghost use Rattle.tink_c_streams.specs.Writers.{BeginsNoWriter, BeginsWriter, EndsStream, GoesOn, IsWriting};
ghost use Rattle.tink_c_objects.specs.Objects.{held_by};
ghost use Rattle.tink_c_objects.specs.Writers.{FillsWriter, OfWriter, WriterEnds, WriterNeeds, WriterTakes};

use crate::filling::{box_object, fill};
use crate::object::Object;
use crate::owner::Owner;
use std::alloc::Global;
use tink_c_bytes::status;
use tink_c_streams::writer_of;
use tink_io::{Kind, TinkError};

/// Fills an object with a writer of a new stream under the primary key of a file, with the associated data. The salt and
/// the prefix of the nonces are the first of the random bytes. The object that was there is freed. After a status other
/// than 0 it is as before.
pub fn fill_writer(
    alloc: Global,
    owner: &mut Owner,
    file: &[u8],
    associated_data: &[u8],
    random: &[u8],
) -> u8
    ensures { FillsWriter file.now associated_data.now random.now (held_by owner.old) (held_by owner.new) result }
{
    let loaded = load_writer(alloc, file, associated_data, random);
    fill(alloc, owner, loaded)
}

fn load_writer(
    alloc: Global,
    file: &[u8],
    associated_data: &[u8],
    random: &[u8],
) -> Result<Box<Object>, TinkError>
    ensures { MatchResult result
        (λ b. OfWriter (BeginsWriter file.now associated_data.now random.now) (Some b.value))
        (λ e. BeginsNoWriter file.now associated_data.now random.now e.kind) }
{
    let writer = writer_of(alloc, file, associated_data, random)?;
    box_object(alloc, Object::Writer(writer))
}

/// Takes a piece of text, puts at the beginning of `out` the bytes of the stream that it gives, and writes how many these
/// are. If they are longer than `out`, the object and `out` stay as they are, and their length is written.
///
/// # Errors
/// By its status: `Closed` if there is no object of a writer, or after the end. `TooManySegments` exactly if the text
/// needs more than 2^32 segments: then the writer is spent. `FailedBefore` if it is. `out` stays as it is, and 0 is
/// written.
pub fn writer_write(
    alloc: Global,
    owner: &mut Owner,
    piece: &[u8],
    out: &mut [u8],
    written: &mut usize,
) -> u8
    ensures answer { WriterTakes piece.now (handed out.old out.new written.new result) (held_by owner.old)
        (held_by owner.new) }
    ensures stream { (k : StreamKey) (aad random text bytes : List ℕ)
        → OfWriter (IsWriting k aad random text bytes) (held_by owner.old)
        → OfWriter (GoesOn k aad random text bytes piece.now (handed out.old out.new written.new result))
        (held_by owner.new) }
    ensures unchanged { result ≡ 42 → held_by owner.new ≡ held_by owner.old }
{
    write_in(alloc, owner, piece, out, written)
}

// What `writer_write` does. What it says of the stream follows from this.
fn write_in(
    alloc: Global,
    owner: &mut Owner,
    piece: &[u8],
    out: &mut [u8],
    written: &mut usize,
) -> u8
    ensures answer { WriterTakes piece.now (handed out.old out.new written.new result) (held_by owner.old)
        (held_by owner.new) }
    ensures unchanged { result ≡ 42 → held_by owner.new ≡ held_by owner.old }
{
    let Some(mut object) = owner.take(alloc) else {
        return closed(written);
    };
    let status = write_by(&mut object, piece, out, written);
    owner.put(alloc, object);
    status
}

// The same of an object.
fn write_by(object: &mut Object, piece: &[u8], out: &mut [u8], written: &mut usize) -> u8
    ensures answer { WriterTakes piece.now (handed out.old out.new written.new result) (Some object.old)
        (Some object.new) }
    ensures unchanged { result ≡ 42 → object.new ≡ object.old }
{
    match object {
        Object::Writer(writer) => writer.write(piece, out, written),
        Object::Aead(_)
        | Object::Daead(_)
        | Object::Mac(_)
        | Object::Prfs(_)
        | Object::Ranges(_)
        | Object::Reader(_) => closed(written),
    }
}

/// Puts the last segment at the beginning of `out`, behind the front if it was not given, and writes how many bytes these
/// are. The writer is closed then. If they are longer than `out`, the object and `out` stay as they are, and their
/// length is written.
///
/// # Errors
/// By its status: `Closed` if there is no object of a writer, or after the end. `FailedBefore` if the writer is spent.
/// `out` stays as it is, and 0 is written.
pub fn writer_end(alloc: Global, owner: &mut Owner, out: &mut [u8], written: &mut usize) -> u8
    ensures answer { WriterEnds (handed out.old out.new written.new result) (held_by owner.old) (held_by owner.new) }
    ensures stream { (k : StreamKey) (aad random text bytes : List ℕ)
        → OfWriter (IsWriting k aad random text bytes) (held_by owner.old)
        → EndsStream k aad random text bytes (handed out.old out.new written.new result) }
    ensures unchanged { (result ≡ 0 → ⊥) → held_by owner.new ≡ held_by owner.old }
{
    end_in(alloc, owner, out, written)
}

// What `writer_end` does. What it says of the stream follows from this.
fn end_in(alloc: Global, owner: &mut Owner, out: &mut [u8], written: &mut usize) -> u8
    ensures answer { WriterEnds (handed out.old out.new written.new result) (held_by owner.old) (held_by owner.new) }
    ensures unchanged { (result ≡ 0 → ⊥) → held_by owner.new ≡ held_by owner.old }
{
    let Some(mut object) = owner.take(alloc) else {
        return closed(written);
    };
    let status = end_by(&mut object, out, written);
    owner.put(alloc, object);
    status
}

// The same of an object.
fn end_by(object: &mut Object, out: &mut [u8], written: &mut usize) -> u8
    ensures answer { WriterEnds (handed out.old out.new written.new result) (Some object.old) (Some object.new) }
    ensures unchanged { (result ≡ 0 → ⊥) → object.new ≡ object.old }
{
    match object {
        Object::Writer(writer) => writer.end(out, written),
        Object::Aead(_)
        | Object::Daead(_)
        | Object::Mac(_)
        | Object::Prfs(_)
        | Object::Ranges(_)
        | Object::Reader(_) => closed(written),
    }
}

/// Writes the room that is enough for what each piece of `more` bytes gives, and for the last segment behind it.
///
/// # Errors
/// By its status: `Closed` if there is no object of a writer, or after the end. `TooManySegments` exactly if the text
/// would need more than 2^32 segments. `FailedBefore` if the writer is spent. 0 is written then.
pub fn writer_bound(alloc: Global, owner: &mut Owner, more: usize, needed: &mut usize) -> u8
    ensures answer { WriterNeeds more needed.new result (held_by owner.old) }
    ensures kept { held_by owner.new ≡ held_by owner.old }
{
    let Some(object) = owner.take(alloc) else {
        return closed(needed);
    };
    let status = bound_by(&object, more, needed);
    owner.put(alloc, object);
    status
}

// The same of an object.
fn bound_by(object: &Object, more: usize, needed: &mut usize) -> u8
    ensures { WriterNeeds more needed.new result (Some object.now) }
{
    match object {
        Object::Writer(writer) => writer.bound(more, needed),
        Object::Aead(_)
        | Object::Daead(_)
        | Object::Mac(_)
        | Object::Prfs(_)
        | Object::Ranges(_)
        | Object::Reader(_) => closed(needed),
    }
}

// The status of an object that holds nothing of the call's sort.
pub(crate) fn closed(written: &mut usize) -> u8
    ensures status { result ≡ c_status Closed }
    ensures written { written.new ≡ 0 }
{
    *written = 0;
    status(Kind::Closed)
}
