//! The enums of keysets and keys. A message holds one as its number, an `i32`, which `try_from` turns into the enum and
//! `as i32` back.

ghost use Rattle.std.specs.Prelude.{◌≡◌};

use std::error::Error;
use std::fmt;

/// A number that the enum has not.
#[derive(Clone, Copy, Debug, PartialEq, Eq)]
pub struct UnknownValue;

impl fmt::Display for UnknownValue {
    fn fmt<W: fmt::Write>(&self, f: &mut fmt::Formatter<W>) -> fmt::Result {
        f.write_str("the enum has no such number")
    }
}

impl Error for UnknownValue {}

/// What a key of a keyset is used for.
#[derive(Clone, Copy, Debug, PartialEq, Eq)]
pub enum KeyStatusType {
    UnknownStatus = 0,
    /// Used.
    Enabled = 1,
    /// Not used, and its data is kept.
    Disabled = 2,
    /// Not used, and its data is gone.
    Destroyed = 3,
}

impl TryFrom<i32> for KeyStatusType {
    ghost use Rattle.tink_proto.specs.Enums.{IsNumbered, status_number};

    type Error = UnknownValue;

    ghost try_from_gives = { IsNumbered status_number };

    fn try_from(number: i32) -> Result<KeyStatusType, UnknownValue> {
        match number {
            0 => Ok(KeyStatusType::UnknownStatus),
            1 => Ok(KeyStatusType::Enabled),
            2 => Ok(KeyStatusType::Disabled),
            3 => Ok(KeyStatusType::Destroyed),
            _ => Err(UnknownValue),
        }
    }
}

/// The output prefix of a key.
#[derive(Clone, Copy, Debug, PartialEq, Eq)]
pub enum OutputPrefixType {
    UnknownPrefix = 0,
    /// 01 and the key's id in four big-endian bytes.
    Tink = 1,
    /// 00 and the key's id.
    Legacy = 2,
    /// Nothing.
    Raw = 3,
    /// 00 and the key's id.
    Crunchy = 4,
}

impl TryFrom<i32> for OutputPrefixType {
    ghost use Rattle.tink_proto.specs.Enums.{IsNumbered, prefix_number};

    type Error = UnknownValue;

    ghost try_from_gives = { IsNumbered prefix_number };

    fn try_from(number: i32) -> Result<OutputPrefixType, UnknownValue> {
        match number {
            0 => Ok(OutputPrefixType::UnknownPrefix),
            1 => Ok(OutputPrefixType::Tink),
            2 => Ok(OutputPrefixType::Legacy),
            3 => Ok(OutputPrefixType::Raw),
            4 => Ok(OutputPrefixType::Crunchy),
            _ => Err(UnknownValue),
        }
    }
}

/// What a key's data is.
#[derive(Clone, Copy, Debug, PartialEq, Eq)]
pub enum KeyMaterialType {
    UnknownKeymaterial = 0,
    Symmetric = 1,
    AsymmetricPrivate = 2,
    AsymmetricPublic = 3,
    /// Points to a key that is held elsewhere.
    Remote = 4,
}

impl TryFrom<i32> for KeyMaterialType {
    ghost use Rattle.tink_proto.specs.Enums.{IsNumbered, material_number};

    type Error = UnknownValue;

    ghost try_from_gives = { IsNumbered material_number };

    fn try_from(number: i32) -> Result<KeyMaterialType, UnknownValue> {
        match number {
            0 => Ok(KeyMaterialType::UnknownKeymaterial),
            1 => Ok(KeyMaterialType::Symmetric),
            2 => Ok(KeyMaterialType::AsymmetricPrivate),
            3 => Ok(KeyMaterialType::AsymmetricPublic),
            4 => Ok(KeyMaterialType::Remote),
            _ => Err(UnknownValue),
        }
    }
}

/// A hash function.
#[derive(Clone, Copy, Debug, PartialEq, Eq)]
pub enum HashType {
    UnknownHash = 0,
    Sha1 = 1,
    Sha384 = 2,
    Sha256 = 3,
    Sha512 = 4,
    Sha224 = 5,
}

impl TryFrom<i32> for HashType {
    ghost use Rattle.tink_proto.specs.Enums.{IsNumbered, hash_number};

    type Error = UnknownValue;

    ghost try_from_gives = { IsNumbered hash_number };

    fn try_from(number: i32) -> Result<HashType, UnknownValue> {
        match number {
            0 => Ok(HashType::UnknownHash),
            1 => Ok(HashType::Sha1),
            2 => Ok(HashType::Sha384),
            3 => Ok(HashType::Sha256),
            4 => Ok(HashType::Sha512),
            5 => Ok(HashType::Sha224),
            _ => Err(UnknownValue),
        }
    }
}
