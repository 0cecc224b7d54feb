//! The output prefixes of keys.

ghost use Rattle.std.specs.Prelude.{◌≡◌, Ok};
ghost use Rattle.std.specs.Int.{w32, to_be_bytes};
ghost use Rattle.tink_io.specs.Answering.{Answers};
ghost use Rattle.tink_sets.specs.Prefixes.{known_type, told_prefix};
ghost use Rattle.keyset_model.specs.Entries.{byte_and_id};

use std::alloc::Global;
use tink_io::{Kind, TinkError};
use tink_proto::{Bytes, Key, OutputPrefixType};

/// The number of bytes of a prefix that is not empty.
pub const NON_RAW_PREFIX_SIZE: usize = 5;

/// The bytes of the output prefix of LEGACY and CRUNCHY keys.
pub const LEGACY_PREFIX_SIZE: usize = NON_RAW_PREFIX_SIZE;

/// The first byte of the prefix of LEGACY and CRUNCHY keys.
pub const LEGACY_START_BYTE: u8 = 0;

/// The bytes of the output prefix of TINK keys.
pub const TINK_PREFIX_SIZE: usize = NON_RAW_PREFIX_SIZE;

/// The first byte of the prefix of TINK keys.
pub const TINK_START_BYTE: u8 = 1;

/// The bytes of the output prefix of RAW keys.
pub const RAW_PREFIX_SIZE: usize = 0;

/// The prefix of RAW keys.
pub const RAW_PREFIX: [u8; 0] = [];

/// The prefix of what `key` makes: 01 and the id in four big-endian bytes for TINK, 00 and the id for LEGACY and
/// CRUNCHY, nothing for RAW.
///
/// # Errors
/// `UnknownPrefix` exactly if the prefix type is none of these, or `OutOfMemory`.
pub fn output_prefix(alloc: Global, key: &Key) -> Result<Bytes, TinkError>
    ensures answer { Answers result (told_prefix key.now) }
{
    match known_type(key.output_prefix_type) {
        Some(OutputPrefixType::Tink) => start_byte_and_id(alloc, TINK_START_BYTE, key.key_id),
        Some(OutputPrefixType::Legacy) | Some(OutputPrefixType::Crunchy) => {
            start_byte_and_id(alloc, LEGACY_START_BYTE, key.key_id)
        }
        Some(OutputPrefixType::Raw) => Ok(Bytes::new(alloc)),
        _ => Err(TinkError::new(Kind::UnknownPrefix)),
    }
}

// The prefix type of a number, if it is from 1 to 4.
pub(crate) fn known_type(number: i32) -> Option<OutputPrefixType>
    ensures value { result ≡ known_type number }
{
    match OutputPrefixType::try_from(number) {
        Ok(OutputPrefixType::UnknownPrefix) => None,
        Ok(known) => Some(known),
        Err(_) => None,
    }
}

fn start_byte_and_id(alloc: Global, start_byte: u8, key_id: u32) -> Result<Bytes, TinkError>
    ensures answer { Answers result (Ok (byte_and_id start_byte key_id)) }
{
    let mut prefix = Vec::with_capacity(alloc, NON_RAW_PREFIX_SIZE)?;
    prefix.push(start_byte)?;
    prefix.extend_from_slice(&key_id.to_be_bytes())?;
    Ok(Bytes::from_vec(prefix))
}
