//! The types of hashes by their numbers.

ghost use Rattle.std.specs.Prelude.{◌≡◌};
ghost use Rattle.tink_key_manager.specs.HashTypes.{hash_type_of};

use tink_proto::HashType;

/// The type of a number as a message holds it, the unknown one where no other has it.
pub fn hash_type_of(number: i32) -> HashType
    ensures { result ≡ hash_type_of number }
{
    match HashType::try_from(number) {
        Ok(hash) => hash,
        Err(_) => HashType::UnknownHash,
    }
}
