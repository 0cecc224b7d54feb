//! What the two types of keys of streams share: sizes of keys, and hashes by their numbers.

ghost use Rattle.std.specs.Prelude.{◌≡◌, Some};
ghost use Rattle.loading_model.specs.Building as building;
ghost use Rattle.tink_core_subtle.specs.Hashes.{hash_named};

use hash_keys::Hash;
use tink_proto::HashType;

/// Whether a main key may have `main` bytes and the AES keys derived from it `derived` bytes. Each is 16 or 32,
/// and `derived` is no more than `main`.
pub fn are_key_sizes(main: usize, derived: u32) -> bool
    ensures { result ≡ building.are_key_sizes main derived }
{
    (main == 16 || main == 32) && (derived == 16 || derived == 32) && derived as usize <= main
}

/// The hash of a number in a message, if a hash has it.
pub fn hash_numbered(number: i32) -> Option<Hash>
    ensures { result ≡ building.hash_numbered number }
{
    match HashType::try_from(number) {
        Ok(HashType::Sha1) => Some(Hash::Sha1),
        Ok(HashType::Sha384) => Some(Hash::Sha384),
        Ok(HashType::Sha256) => Some(Hash::Sha256),
        Ok(HashType::Sha512) => Some(Hash::Sha512),
        Ok(HashType::Sha224) => Some(Hash::Sha224),
        Ok(HashType::UnknownHash) => None,
        Err(_) => None,
    }
}

/// The type of a hash.
pub fn type_of(hash: Hash) -> HashType
    ensures { hash_named result ≡ Some hash }
{
    match hash {
        Hash::Sha1 => HashType::Sha1,
        Hash::Sha224 => HashType::Sha224,
        Hash::Sha256 => HashType::Sha256,
        Hash::Sha384 => HashType::Sha384,
        Hash::Sha512 => HashType::Sha512,
    }
}
