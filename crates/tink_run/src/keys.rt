//! What a command takes of a set of keys.

ghost use Rattle.std.specs.Prelude.{◌≡◌, true, is_some, Some};
ghost use Rattle.tink_streaming_keys.specs.StreamKinds.{key_in_set};
ghost use Rattle.tink_streaming_aead.specs.Wrapped.{key_in};

use tink_sets::{TypedEntry, TypedPrimitiveSet};
use tink_streaming_aead::StreamKind;

/// The primary key, which the keys have.
pub fn primary_key(keys: &TypedPrimitiveSet<StreamKind>) -> &TypedEntry<StreamKind>
    requires { is_some keys.now.primary ≡ true }
    ensures { key_in keys.now.primary ≡ Some (key_in_set result.now) }
{
    match &keys.primary {
        Some(entry) => entry,
        None => unreachable!(),
    }
}
