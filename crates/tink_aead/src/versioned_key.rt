//! AES keys with a version.

ghost use Rattle.std.specs.Prelude.{◌≡◌};
ghost use Rattle.tink_aead.specs.KeyTypes.{is_versioned_key};

use crate::subtle::validate_aes_key_size;

/// Whether a key has 16 or 32 bytes (AES, FIPS 197) and version 0.
pub fn is_versioned_key(version: u32, key: &[u8]) -> bool
    ensures { result ≡ is_versioned_key version key.now }
{
    version == 0 && validate_aes_key_size(key.len()).is_ok()
}
