//! What rows ask of MACs and of their keys.

use std::alloc::Global;
use test_util::{Answer, Ask, draws_of, gives, succeeds};
use tink_io::{Draws, TinkError};
use tink_mac::subtle::{AesCmac, Hmac, validate_cmac_params, validate_hmac_params};
use tink_mac::{AesCmacKeyManager, HmacKeyManager, MacKind, MacKinds};
use tink_primitives::{CloneIn, Mac, Primitive};
use tink_proto::{Bytes, HashType};
use tink_registry::KeyManager;

/// What a MAC is made of: the bytes of a key by its standard, with the size of its tags, or the encoding of one.
pub enum Of {
    AesCmac(usize),
    Hmac(HashType, usize),
    AesCmacKey,
    HmacKey,
}

/// A request of a row.
pub enum Asked {
    /// Whether this is the MAC's tag of a text: its key, the text and the tag.
    Tag(Of, &'static [u8], &'static [u8], &'static [u8]),
    /// Whether there is a MAC whose key has this number of bytes 7.
    New(Of, usize),
    /// Whether a key of this format is made of these draws, this number of them is left, also of a refusal, and this is
    /// its tag of `abc`.
    Make(Of, &'static [u8], &'static [u8], usize, &'static [u8]),
    /// Params of a key that is made: its hash, its size and that of its tags.
    AesCmacParams(usize, usize),
    HmacParams(HashType, usize, usize),
}

/// A name, a request, and the answer.
pub type Row = (&'static str, Asked, Answer);

/// The text of most rows.
pub const ABC: &[u8] = b"abc";

fn mac_of(built: Result<Primitive<MacKinds>, TinkError>) -> Result<MacKind, TinkError> {
    match built {
        Ok(p) => p.into_mac(),
        Err(e) => Err(e),
    }
}

fn new_mac(alloc: Global, of: &Of, key: &[u8]) -> Result<MacKind, TinkError> {
    match *of {
        Of::AesCmac(size) => Ok(MacKind::AesCmac(AesCmac::new(alloc, key, size)?)),
        Of::Hmac(hash, size) => Ok(MacKind::Hmac(Hmac::new(alloc, hash, key, size)?)),
        Of::AesCmacKey => mac_of(AesCmacKeyManager::new().primitive(alloc, key)),
        Of::HmacKey => mac_of(HmacKeyManager::new().primitive(alloc, key)),
    }
}

// A prepared copy of a copy, which was a primitive on its way.
fn copy_of(alloc: Global, mac: Result<MacKind, TinkError>) -> Result<MacKind, TinkError> {
    match mac {
        Ok(mac) => mac_of(Primitive::<MacKinds>::Mac(mac.try_clone(alloc)?).try_prepared(alloc)),
        Err(e) => Err(e),
    }
}

/// Whether a tag of a text, which is accepted, is also the one that is made; or how it is refused.
pub fn is_tag<M: Mac>(alloc: Global, mac: &M, tag: &[u8], text: &[u8]) -> Result<bool, TinkError> {
    match mac.verify_mac(alloc, tag, text) {
        Ok(()) => gives(mac.compute_mac(alloc, text), tag),
        Err(e) => Err(e),
    }
}

fn is_tag_of(
    alloc: Global,
    mac: Result<MacKind, TinkError>,
    tag: &[u8],
    text: &[u8],
) -> Result<bool, TinkError> {
    match mac {
        Ok(mac) => is_tag(alloc, &mac, tag, text),
        Err(e) => Err(e),
    }
}

fn new_key(alloc: Global, of: &Of, format: &[u8], draws: &mut Draws) -> Result<Bytes, TinkError> {
    match *of {
        Of::HmacKey => HmacKeyManager::new().new_key(alloc, format, draws),
        _ => AesCmacKeyManager::new().new_key(alloc, format, draws),
    }
}

// Whether this is a key's tag of `abc`.
fn has_tag(
    alloc: Global,
    of: &Of,
    key: Result<Bytes, TinkError>,
    tag: &[u8],
) -> Result<bool, TinkError> {
    match key {
        Ok(key) => is_tag_of(alloc, new_mac(alloc, of, key.as_slice()), tag, ABC),
        Err(e) => Err(e),
    }
}

// The same of a new key, of which so many draws are left.
fn is_made(
    alloc: Global,
    of: &Of,
    format: &[u8],
    draws: Result<Draws, TinkError>,
    left: usize,
    tag: &[u8],
) -> Result<bool, TinkError> {
    match draws {
        Ok(mut draws) => {
            let got = has_tag(alloc, of, new_key(alloc, of, format, &mut draws), tag);
            if draws.left() == left { got } else { Ok(false) }
        }
        Err(e) => Err(e),
    }
}

// `true` asks a copy of the MAC.
impl Ask<bool> for Asked {
    fn answer(&self, alloc: Global, of_copy: &mut bool) -> Result<bool, TinkError> {
        match *self {
            Asked::Tag(ref of, key, text, tag) => {
                let own = new_mac(alloc, of, key);
                let mac = if *of_copy { copy_of(alloc, own) } else { own };
                is_tag_of(alloc, mac, tag, text)
            }
            Asked::New(ref of, size) => succeeds(new_mac(alloc, of, &[7; 64][..size.min(64)])),
            Asked::Make(ref of, format, draws, left, tag) => {
                is_made(alloc, of, format, draws_of(alloc, draws), left, tag)
            }
            Asked::AesCmacParams(size, tags) => succeeds(validate_cmac_params(size, tags)),
            Asked::HmacParams(hash, size, tags) => succeeds(validate_hmac_params(hash, size, tags)),
        }
    }
}
