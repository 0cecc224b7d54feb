//! The MACs of keysets of HMAC keys.

ghost use Rattle.tink_io.specs.Answering.{Answers};
ghost use Rattle.tink_mac.specs.Wrapped.{primary_mac};

use crate::asked::is_tag;
use std::alloc::Global;
use test_util::{Answer, Ask, Verdict, ask_made, draws_of, gives, handle, registry_of, succeeds};
use tink_io::{Draws, Kind, TinkError};
use tink_keysets::keyset::{Handle, Manager};
use tink_mac::{
    HmacKeyManager, MacKind, WrappedMac, hmac_sha256_tag128_key_template, law_built_macs_are_sound,
    law_macs_outlive_commands, law_old_macs_verify, law_own_tags_accepted, new,
};
use tink_primitives::Mac;
use tink_proto::{Bytes, KeyTemplate};
use tink_registry::Registry;

// The MAC of a message by the primary key.
fn mac_of<P: Mac>(alloc: Global, mac: &WrappedMac<P>, message: &[u8]) -> Result<Bytes, TinkError>
    ensures { Answers result (primary_mac P.computes mac.now.ps.primary message.now) }
{
    mac.compute_mac(alloc, message)
}

type Macs = Registry<HmacKeyManager>;

// The draws of two new keys, each with its id.
const DRAWS: &[u8; 72] =
    b"\x03\x03\x03\x03\x03\x03\x03\x03\x03\x03\x03\x03\x03\x03\x03\x03\x03\x03\x03\x03\x03\x03\x03\x03\x03\x03\x03\x03\x03\x03\x03\x03\x03\x03\x03\x03\x04\x04\x04\x04\x04\x04\x04\x04\x04\x04\x04\x04\x04\x04\x04\x04\x04\x04\x04\x04\x04\x04\x04\x04\x04\x04\x04\x04\x04\x04\x04\x04\x04\x04\x04\x04";

// The handle of a key that is rotated.
fn rotate_keyset(
    alloc: Global,
    registry: &Macs,
    kt: &KeyTemplate,
    draws: &mut Draws,
    h: Handle,
) -> Result<Handle, TinkError> {
    let mut manager = Manager::new_from_handle(h);
    match manager.rotate(alloc, kt, registry, draws) {
        Ok(_) => manager.handle(alloc),
        Err(e) => Err(e),
    }
}

// A handle of one new key, and with another one behind it after a rotation.
fn made_handle(
    alloc: Global,
    registry: &Macs,
    kt: &KeyTemplate,
    draws: &mut Draws,
    rotates: bool,
) -> Result<Handle, TinkError> {
    match Handle::new(alloc, kt, registry, draws) {
        Ok(h) => {
            if rotates {
                rotate_keyset(alloc, registry, kt, draws, h)
            } else {
                Ok(h)
            }
        }
        Err(e) => Err(e),
    }
}

// The same by the template.
fn new_handle(alloc: Global, registry: &Macs, rotates: bool) -> Result<Handle, TinkError> {
    let mut draws = draws_of(alloc, DRAWS)?;
    match hmac_sha256_tag128_key_template(alloc) {
        Ok(kt) => made_handle(alloc, registry, &kt, &mut draws, rotates),
        Err(e) => Err(e),
    }
}

// The keyset of the MACs.
enum Keys {
    // That of these bytes.
    One(&'static [u8]),
    // One new key, and another one behind it after a rotation.
    New,
    Rotated,
}

fn handle_by(alloc: Global, registry: &Macs, keys: &Keys) -> Result<Handle, TinkError> {
    match *keys {
        Keys::One(keyset) => handle(alloc, keyset),
        Keys::New => new_handle(alloc, registry, false),
        Keys::Rotated => new_handle(alloc, registry, true),
    }
}

// What is asked of the MACs of `abc`.
enum Asked {
    // Whether this is made.
    Make(&'static [u8]),
    // Whether this is accepted.
    Accept(&'static [u8]),
    // Both, of a copy.
    Copy(&'static [u8]),
}

type Wrapped = WrappedMac<MacKind>;

impl Ask<Wrapped> for Asked {
    fn answer(&self, alloc: Global, macs: &mut Wrapped) -> Result<bool, TinkError> {
        match *self {
            Asked::Make(mac) => gives(mac_of(alloc, macs, b"abc"), mac),
            Asked::Accept(mac) => succeeds(macs.verify_mac(alloc, mac, b"abc")),
            Asked::Copy(mac) => match macs.try_clone(alloc) {
                Ok(copy) => is_tag(alloc, &copy, mac, b"abc"),
                Err(e) => Err(e),
            },
        }
    }
}

// What is asked of the MACs of a keyset.
struct Of(Keys, Asked);

impl Ask<Macs> for Of {
    fn answer(&self, alloc: Global, registry: &mut Macs) -> Result<bool, TinkError> {
        match handle_by(alloc, registry, &self.0) {
            Ok(h) => ask_made(alloc, new(alloc, &h, registry), &self.1),
            Err(e) => Err(e),
        }
    }
}

// One key of id 7, LEGACY, CRUNCHY or RAW: HMAC-SHA256 with tags of 16 bytes, and 16 bytes 5.
const LEGACY: Keys = Keys::One(
    b"\x08\x07\x12\x54\x0a\x4c\x0a\x2etype.googleapis.com/google.crypto.tink.HmacKey\x12\x18\x12\x04\x08\x03\x10\x10\x1a\x10\x05\x05\x05\x05\x05\x05\x05\x05\x05\x05\x05\x05\x05\x05\x05\x05\x18\x01\x10\x01\x18\x07\x20\x02",
);

const CRUNCHY: Keys = Keys::One(
    b"\x08\x07\x12\x54\x0a\x4c\x0a\x2etype.googleapis.com/google.crypto.tink.HmacKey\x12\x18\x12\x04\x08\x03\x10\x10\x1a\x10\x05\x05\x05\x05\x05\x05\x05\x05\x05\x05\x05\x05\x05\x05\x05\x05\x18\x01\x10\x01\x18\x07\x20\x04",
);

const RAW: Keys = Keys::One(
    b"\x08\x07\x12\x54\x0a\x4c\x0a\x2etype.googleapis.com/google.crypto.tink.HmacKey\x12\x18\x12\x04\x08\x03\x10\x10\x1a\x10\x05\x05\x05\x05\x05\x05\x05\x05\x05\x05\x05\x05\x05\x05\x05\x05\x18\x01\x10\x01\x18\x07\x20\x03",
);

const MISMATCH: Answer = Err(Kind::MacMismatch);

// The MACs of `abc` by Python's HMAC: that of a LEGACY key is of one zero byte more. LEGACY and CRUNCHY keys of an id
// have one prefix.
const LEGACY_MAC: &[u8] =
    b"\x00\x00\x00\x00\x07\x3a\xa9\xa2\x71\x63\xe7\xae\x40\x21\xe6\x8f\x2d\x18\xb5\xff\x5d";

const CRUNCHY_MAC: &[u8] =
    b"\x00\x00\x00\x00\x07\x9c\xfa\x63\xef\x90\x25\x9b\x41\x91\x9d\x99\xe8\xce\xe5\xfb\x4f";

const RAW_MAC: &[u8] = b"\x9c\xfa\x63\xef\x90\x25\x9b\x41\x91\x9d\x99\xe8\xce\xe5\xfb\x4f";

// The MACs of the new keys, whose bytes and ids are their draws.
const OLD_MAC: &[u8] =
    b"\x01\x03\x03\x03\x03\x1e\x7a\x35\xec\x8a\xdd\x9a\x37\xe8\x93\xf4\x41\xd0\x59\xea\x41";

const NEWER_MAC: &[u8] =
    b"\x01\x04\x04\x04\x04\xc2\xc0\xd5\xe5\xa4\x7d\xce\x4f\x85\x2f\x22\xa0\x5e\x7c\xac\xc0";

const ROWS: &[(&str, Of, Answer)] = &[
    (
        "a LEGACY key's MAC",
        Of(LEGACY, Asked::Make(LEGACY_MAC)),
        Ok(true),
    ),
    (
        "a CRUNCHY key's MAC",
        Of(CRUNCHY, Asked::Make(CRUNCHY_MAC)),
        Ok(true),
    ),
    ("a RAW key's MAC", Of(RAW, Asked::Make(RAW_MAC)), Ok(true)),
    ("LEGACY", Of(LEGACY, Asked::Accept(LEGACY_MAC)), Ok(true)),
    (
        "LEGACY on CRUNCHY",
        Of(LEGACY, Asked::Accept(CRUNCHY_MAC)),
        MISMATCH,
    ),
    ("CRUNCHY", Of(CRUNCHY, Asked::Accept(CRUNCHY_MAC)), Ok(true)),
    (
        "CRUNCHY on LEGACY",
        Of(CRUNCHY, Asked::Accept(LEGACY_MAC)),
        MISMATCH,
    ),
    ("RAW", Of(RAW, Asked::Accept(RAW_MAC)), Ok(true)),
    (
        "a MAC cut to nothing",
        Of(RAW, Asked::Accept(b"")),
        MISMATCH,
    ),
    (
        "a MAC cut to 1 byte",
        Of(RAW, Asked::Accept(b"\x9c")),
        MISMATCH,
    ),
    (
        "a MAC cut to 2 bytes",
        Of(RAW, Asked::Accept(b"\x9c\xfa")),
        MISMATCH,
    ),
    (
        "a MAC cut to 3 bytes",
        Of(RAW, Asked::Accept(b"\x9c\xfa\x63")),
        MISMATCH,
    ),
    (
        "a MAC cut to 4 bytes",
        Of(RAW, Asked::Accept(b"\x9c\xfa\x63\xef")),
        MISMATCH,
    ),
    (
        "a MAC cut to 5 bytes",
        Of(RAW, Asked::Accept(b"\x9c\xfa\x63\xef\x90")),
        MISMATCH,
    ),
    ("a copy", Of(LEGACY, Asked::Copy(LEGACY_MAC)), Ok(true)),
    // A MAC verifies after a rotation.
    (
        "a new key's MAC",
        Of(Keys::New, Asked::Make(OLD_MAC)),
        Ok(true),
    ),
    (
        "the old MAC after a rotation",
        Of(Keys::Rotated, Asked::Accept(OLD_MAC)),
        Ok(true),
    ),
    (
        "another new MAC",
        Of(Keys::Rotated, Asked::Make(NEWER_MAC)),
        Ok(true),
    ),
    (
        "which is accepted",
        Of(Keys::Rotated, Asked::Accept(NEWER_MAC)),
        Ok(true),
    ),
    (
        "and not before",
        Of(Keys::New, Asked::Accept(NEWER_MAC)),
        MISMATCH,
    ),
];

/// Each row, and that the laws hold of these types.
pub fn rows(alloc: Global, verdict: &mut Verdict) {
    law_old_macs_verify::<HmacKeyManager, MacKind>();
    law_own_tags_accepted();
    law_built_macs_are_sound();
    law_macs_outlive_commands::<HmacKeyManager, MacKind>();
    verdict.walk_made(
        alloc,
        registry_of(alloc, HmacKeyManager::new()),
        "the registry",
        ROWS,
    );
}
