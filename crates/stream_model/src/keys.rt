//! The keys of a stream's segments.

ghost use Rattle.std.specs.Prelude.{◌≡◌, ◌≤◌, length};
ghost use Rattle.hash_keys.specs.Hash.{hkdf_of};

use hash_keys::{Hash, hkdf_into};

/// Fills `keys` by HKDF from the main key, under the salt of a stream's header, with the associated data as info
/// (RFC 5869, 2). At most 64 bytes are derived.
pub fn derive_keys(hash: Hash, main_key: &[u8], salt: &[u8], aad: &[u8], keys: &mut [u8])
    requires { length keys.old ≤ 64 }
    ensures { keys.new ≡ hkdf_of hash main_key.now salt.now aad.now (length keys.old) }
{
    let Ok(()) = hkdf_into(hash, main_key, salt, aad, keys) else {
        unreachable!()
    };
}
