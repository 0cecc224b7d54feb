//! Loading: from the bytes of a keyset to the set of its keys of streams.

ghost use Rattle.std.specs.Prelude.{◌≡◌, true, is_some, IfOk};
ghost use Rattle.keyset_model.specs.Validity.{IsValid};
ghost use Rattle.tink.specs.LoadingRows.{rows, rows_by};
ghost use Rattle.tink_run.specs.AllKeys.{load};
ghost use Rattle.tink_run.specs.HeldKeys.{GivesLoaded};
ghost use Rattle.loading_model.specs.Loading.{load_keys};

use std::alloc::Global;
use tink_io::TinkError;
use tink_keysets::factory::typed_primitives;
use tink_keysets::keyset::{Handle, insecure};
use tink_primitives::Kinds;
use tink_registry::{KeyManager, Registry};
use tink_sets::TypedPrimitiveSet;
use tink_sets::sorts::StreamingAeads;
use tink_streaming_aead::StreamKind;

/// Loads the keys of streams of a keyset in the wire format, by the managers of all types of keys.
///
/// # Errors
/// The first that applies: `BadKeyset` if the bytes are no keyset. `InvalidKeyset` if it is not valid.
/// `UnsupportedKeyType` or `InvalidKey` of the first enabled key that does not build. `NoPrimary` if no
/// enabled key has the primary id. `WrongPrimitive` if an enabled key is none of streams. `OutOfMemory` may
/// come in place of each.
pub fn load(alloc: Global, bytes: &[u8]) -> Result<TypedPrimitiveSet<StreamKind>, TinkError>
    ensures answer { GivesLoaded result (load bytes.now) }
    ensures primary { IfOk result (λ set. is_some set.primary ≡ true) }
{
    let handle = insecure::valid_handle(alloc, bytes)?;
    build_all(alloc, &handle)
}

// The keys of streams of a valid keyset, by the managers of all types of keys.
fn build_all(alloc: Global, handle: &Handle) -> Result<TypedPrimitiveSet<StreamKind>, TinkError>
    requires { IsValid handle.now }
    ensures answer { GivesLoaded result (load_keys rows handle.now) }
    ensures primary { IfOk result (λ set. is_some set.primary ≡ true) }
{
    let registry = tink::key_managers(alloc)?;
    build(alloc, handle, &registry)
}

// The keys of streams of a valid keyset, by the managers of a registry.
fn build<M: KeyManager>(
    alloc: Global,
    handle: &Handle,
    registry: &Registry<M>,
) -> Result<TypedPrimitiveSet<StreamKind>, TinkError>
where
    M::Family: Kinds<StreamingAead = StreamKind>,
    requires { IsValid handle.now }
    ensures answer { GivesLoaded result
        (load_keys (rows_by M.url M.builds registry.now.managers) handle.now) }
    ensures primary { IfOk result (λ set. is_some set.primary ≡ true) }
{
    typed_primitives::<M, StreamingAeads>(alloc, handle, registry)
}
