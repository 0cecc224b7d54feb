//! The MACs of keysets.

use std::alloc::Global;
use test_util::{draws_of, enabled_key, handle_of, registry_of, succeeds};
use tink_core::keyset::{Handle, Manager};
use tink_core::registry::{KeyManager, Registry};
use tink_core::{Kinds, TinkError};
use tink_mac::{
    AesCmacKeyManager, CMAC_TYPE_URL, HMAC_TYPE_URL, HmacKeyManager, MacKind, WrappedMac,
    hmac_sha256_tag128_key_template, new,
};
use tink_proto::OutputPrefixType;

/// The first draws of the seed of 32 zero bytes (ChaCha20, RFC 8439, A.1): a key of 32 bytes, and the ids da41597c and
/// 5157488d.
const DRAWS: &[u8] =
    b"\x76\xb8\xe0\xad\xa0\xf1\x3d\x90\x40\x5d\x6a\xe5\x53\x86\xbd\x28\xbd\xd2\x19\xb8\xa0\x8d\xed\x1a\xa8\x36\xef\xcc\x8b\x77\x0d\xc7\xda\x41\x59\x7c\x51\x57\x48\x8d";

/// The id of the first key that they make.
pub const ID: u32 = 0xda41597c;

// HMAC-SHA256 with tags of 16 bytes, and the key of these draws.
const HMAC_KEY: &[u8] =
    b"\x12\x04\x08\x03\x10\x10\x1a\x20\x76\xb8\xe0\xad\xa0\xf1\x3d\x90\x40\x5d\x6a\xe5\x53\x86\xbd\x28\xbd\xd2\x19\xb8\xa0\x8d\xed\x1a\xa8\x36\xef\xcc\x8b\x77\x0d\xc7";

// AES-CMAC with tags of 16 bytes, and the same bytes as its key.
const CMAC_KEY: &[u8] =
    b"\x12\x20\x76\xb8\xe0\xad\xa0\xf1\x3d\x90\x40\x5d\x6a\xe5\x53\x86\xbd\x28\xbd\xd2\x19\xb8\xa0\x8d\xed\x1a\xa8\x36\xef\xcc\x8b\x77\x0d\xc7\x1a\x02\x08\x10";

/// An edit of a keyset: a new primary key by the template and these draws, or one of the key of the id.
pub enum Edit {
    Rotate,
    Disable,
    Enable,
    Delete,
}

/// A keyset: after these edits of an empty one, or of one key of the draws with this prefix and id.
pub enum Keys {
    Edited(&'static [Edit]),
    One(OutputPrefixType, u32),
}

// A new primary key by the template.
fn rotate(
    alloc: Global,
    registry: &Registry<HmacKeyManager>,
    manager: &mut Manager,
) -> Result<u32, TinkError> {
    match hmac_sha256_tag128_key_template(alloc) {
        Ok(kt) => match draws_of(alloc, DRAWS) {
            Ok(mut draws) => manager.rotate(alloc, &kt, registry, &mut draws),
            Err(e) => Err(e),
        },
        Err(e) => Err(e),
    }
}

fn edit_by(
    alloc: Global,
    registry: &Registry<HmacKeyManager>,
    manager: &mut Manager,
    edit: &Edit,
) -> Result<bool, TinkError> {
    match edit {
        Edit::Rotate => succeeds(rotate(alloc, registry, manager)),
        Edit::Disable => succeeds(manager.disable(ID)),
        Edit::Enable => succeeds(manager.enable(ID)),
        Edit::Delete => succeeds(manager.delete(ID)),
    }
}

fn edit_all(
    alloc: Global,
    registry: &Registry<HmacKeyManager>,
    manager: &mut Manager,
    edits: &[Edit],
) -> Result<(), TinkError> {
    for each in edits {
        edit_by(alloc, registry, manager, each)?;
    }
    Ok(())
}

fn keyset_after(
    alloc: Global,
    registry: &Registry<HmacKeyManager>,
    edits: &[Edit],
) -> Result<Handle, TinkError> {
    let mut manager = Manager::new(alloc);
    match edit_all(alloc, registry, &mut manager, edits) {
        Ok(()) => manager.handle(alloc),
        Err(e) => Err(e),
    }
}

fn one_key(
    alloc: Global,
    type_url: &str,
    key: &[u8],
    prefix: OutputPrefixType,
    id: u32,
) -> Result<Handle, TinkError> {
    match enabled_key(alloc, type_url, key, prefix, id) {
        Ok(key) => handle_of(id, vec![in alloc; key]?),
        Err(e) => Err(e),
    }
}

fn handle(
    alloc: Global,
    registry: &Registry<HmacKeyManager>,
    keys: &Keys,
) -> Result<Handle, TinkError> {
    match keys {
        Keys::Edited(edits) => keyset_after(alloc, registry, edits),
        Keys::One(prefix, id) => one_key(alloc, HMAC_TYPE_URL, HMAC_KEY, *prefix, *id),
    }
}

// The MACs of a handle.
fn macs_of<M: KeyManager>(
    alloc: Global,
    registry: &Registry<M>,
    h: Result<Handle, TinkError>,
) -> Result<WrappedMac<MacKind>, TinkError>
where
    M::Family: Kinds<Mac = MacKind>,
{
    match h {
        Ok(h) => new(alloc, &h, registry),
        Err(e) => Err(e),
    }
}

/// The MACs of a keyset.
pub fn macs(
    alloc: Global,
    registry: &Registry<HmacKeyManager>,
    keys: &Keys,
) -> Result<WrappedMac<MacKind>, TinkError> {
    macs_of(alloc, registry, handle(alloc, registry, keys))
}

/// Those of the key of AES-CMAC, which have 21 bytes too.
pub fn cmacs(alloc: Global) -> Result<WrappedMac<MacKind>, TinkError> {
    match registry_of(alloc, AesCmacKeyManager::new()) {
        Ok(registry) => {
            let h = one_key(alloc, CMAC_TYPE_URL, CMAC_KEY, OutputPrefixType::Tink, ID);
            macs_of(alloc, &registry, h)
        }
        Err(e) => Err(e),
    }
}
