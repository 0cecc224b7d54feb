//! How many keys a file may have, so that it is decoded in little memory.

ghost use Rattle.std.specs.Prelude.{◌≡◌, ◌==◌, ◌||◌, ◌+◌, ◌-◌, ◌<◌, ◌^◌, count_by, nat_eq, if◌then◌else◌};
ghost use Rattle.tink_io.specs.Answering.{Tells};
ghost use Rattle.tink_keyset_io.specs.Files.{room_of};
ghost use Rattle.tink_keyset_io.specs.Room.{is_mark, keys_in, room_of_keys, up_to};

use crate::key_files::formats::Format;
use tink_io::{Kind, TinkError};
use tink_proto::wire::next_field;

// The most keys of a file.
const MOST_KEYS: usize = 65536;

// The most bytes of a file in JSON behind which a value may stand: each key that is written here has 15.
const MOST_MARKS: usize = 1048576;

/// Tests that a file of keys has room in little memory, before it is decoded. A key without data has two bytes in the wire
/// format, and 80 in memory.
///
/// # Errors
/// `KeysetTooLong` exactly if a file in the wire format has more than 65,536 keys, or one in JSON more than 1,048,576
/// marks. Marks are commas, colons and opening brackets. `BadKeyset` exactly if a file that is not JSON by its first
/// byte spells no fields.
pub fn check_room(file: &[u8]) -> Result<(), TinkError>
    ensures { Tells result (room_of file.now) }
{
    match Format::of_file(file) {
        Format::Binary => room_of_keys(keys_in(file)),
        Format::Json => up_to(MOST_MARKS, marks_in(file)),
    }
}

// Whether so many keys have room; none are counted where the bytes spell no fields.
fn room_of_keys(keys: Option<usize>) -> Result<(), TinkError>
    ensures { Tells result (room_of_keys keys) }
{
    match keys {
        Some(keys) => up_to(MOST_KEYS, keys),
        None => Err(TinkError::new(Kind::BadKeyset)),
    }
}

// Whether a number is at most this.
fn up_to(most: usize, n: usize) -> Result<(), TinkError>
    ensures { Tells result (up_to most n) }
{
    if most < n {
        return Err(TinkError::new(Kind::KeysetTooLong));
    }
    Ok(())
}

// How many keys the bytes have, if they spell fields.
fn keys_in(bytes: &[u8]) -> Option<usize>
    ensures { result ≡ keys_in bytes.now }
{
    let mut keys = 0;
    let mut rest = bytes;
    while !rest.is_empty() {
        let Some((field, after)) = next_field(rest) else {
            return None;
        };
        keys = more_keys(keys, field.number);
        rest = after;
    }
    Some(keys)
}

// One key more, if the number of a field is that of the keys.
fn more_keys(keys: usize, number: u32) -> usize
    requires { keys < 2 ^ 64 - 1 }
    ensures { result ≡ (if nat_eq number 2 then keys + 1 else keys) }
{
    if number == 2 { keys + 1 } else { keys }
}

// How many bytes of a text stand before a value of JSON, or between two.
fn marks_in(text: &[u8]) -> usize
    ensures { result ≡ count_by is_mark text.now }
{
    text.iter().filter(|byte| is_mark(**byte)).count()
}

fn is_mark(byte: u8) -> bool
    ensures { result ≡ is_mark byte }
{
    byte == b',' || byte == b':' || byte == b'[' || byte == b'{'
}
