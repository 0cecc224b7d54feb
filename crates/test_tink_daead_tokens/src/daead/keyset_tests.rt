//! The keys of AES-SIV, their template, and the deterministic AEADs of keysets.

ghost use Rattle.tink_io.specs.Answering.{Answers};
ghost use Rattle.tink_daead.specs.Wrapped.{primary_encrypts};

use std::alloc::Global;
use test_util::{
    Answer, Ask, NamedRegistry, Template, Verdict, ask_made, draws_of, gives,
    is_made_and_registered, registry_of, succeeds,
};
use tink_core::keyset::Handle;
use tink_core::keyset::insecure::{decode, new_handle};
use tink_core::registry::{KeyManager, Registry};
use tink_core::{DeterministicAead, Draws, Kind, TinkError};
use tink_daead::subtle::{AES_SIV_KEY_SIZE, AesSiv};
use tink_daead::{
    AES_SIV_KEY_VERSION, AES_SIV_TYPE_URL, AesSivKeyManager, WrappedDeterministicAead,
    aes_siv_key_template, init, law_ciphertexts_outlive_commands, law_old_ciphertexts_open, new,
};
use tink_proto::Bytes;

/// The primary key's prefix and its encryption of a text with associated data.
fn sealed_by<P: DeterministicAead>(
    aead: &WrappedDeterministicAead<P>,
    alloc: Global,
    text: &[u8],
    aad: &[u8],
) -> Result<Bytes, TinkError>
    ensures { Answers result (primary_encrypts P.encrypts aead.now.ps.primary text.now aad.now) }
{
    aead.encrypt_deterministically(alloc, text, aad)
}

enum Asked {
    // To build a key of a message.
    Build(&'static [u8]),
    // To make a key of a format, with so many draws, of which so many are left.
    Make(&'static [u8], usize, usize),
    // The manager and the template are registered.
    Register,
    // The template is of its URL, its format and its prefix, and stands in the registry beside its manager.
    Template,
    // What is asked of the AEADs of the keys under this primary id.
    Keyset(u32, Call),
}

enum Call {
    // They are made.
    Make,
    // `abc` is encrypted to these bytes.
    Seal(&'static [u8]),
    // These bytes are decrypted to it, and by a copy.
    Open(&'static [u8]),
    Copy(&'static [u8]),
}

// ---- keys

fn makes(alloc: Global, format: &[u8], draws: &mut Draws, left: usize) -> Result<bool, TinkError> {
    let answer = succeeds(AesSivKeyManager::new().new_key(alloc, format, draws));
    if draws.left() == left {
        answer
    } else {
        Ok(false)
    }
}

fn makes_by(alloc: Global, format: &[u8], n: usize, left: usize) -> Result<bool, TinkError> {
    match draws_of(alloc, &[7; 70][..n.min(70)]) {
        Ok(mut draws) => makes(alloc, format, &mut draws, left),
        Err(e) => Err(e),
    }
}

// ---- keysets

// The AEADs of a handle.
fn aead_of(alloc: Global, h: &Handle) -> Result<WrappedDeterministicAead<AesSiv>, TinkError> {
    match registry_of(alloc, AesSivKeyManager::new()) {
        Ok(registry) => new(alloc, h, &registry),
        Err(e) => Err(e),
    }
}

// A prefixed key of id 1 and a raw one of id 2, of which each byte is its id, in the wire format without a primary id.
const KEYS: &[u8] =
    b"\x12\x80\x01\x0a\x78\x0a\x30type.googleapis.com/google.crypto.tink.AesSivKey\x12\x42\x12\x40\x01\x01\x01\x01\x01\x01\x01\x01\x01\x01\x01\x01\x01\x01\x01\x01\x01\x01\x01\x01\x01\x01\x01\x01\x01\x01\x01\x01\x01\x01\x01\x01\x01\x01\x01\x01\x01\x01\x01\x01\x01\x01\x01\x01\x01\x01\x01\x01\x01\x01\x01\x01\x01\x01\x01\x01\x01\x01\x01\x01\x01\x01\x01\x01\x18\x01\x10\x01\x18\x01\x20\x01\x12\x80\x01\x0a\x78\x0a\x30type.googleapis.com/google.crypto.tink.AesSivKey\x12\x42\x12\x40\x02\x02\x02\x02\x02\x02\x02\x02\x02\x02\x02\x02\x02\x02\x02\x02\x02\x02\x02\x02\x02\x02\x02\x02\x02\x02\x02\x02\x02\x02\x02\x02\x02\x02\x02\x02\x02\x02\x02\x02\x02\x02\x02\x02\x02\x02\x02\x02\x02\x02\x02\x02\x02\x02\x02\x02\x02\x02\x02\x02\x02\x02\x02\x02\x18\x01\x10\x01\x18\x02\x20\x03";

fn handle(alloc: Global, primary: u32) -> Result<Handle, TinkError> {
    match decode(alloc, KEYS) {
        Ok(mut ks) => {
            ks.primary_key_id = primary;
            new_handle(ks)
        }
        Err(e) => Err(e),
    }
}

// Their AEADs, of which one is primary.
fn two_keys(alloc: Global, primary: u32) -> Result<WrappedDeterministicAead<AesSiv>, TinkError> {
    match handle(alloc, primary) {
        Ok(h) => aead_of(alloc, &h),
        Err(e) => Err(e),
    }
}

fn opens(
    alloc: Global,
    aead: &WrappedDeterministicAead<AesSiv>,
    bytes: &[u8],
) -> Result<bool, TinkError> {
    gives(
        aead.decrypt_deterministically(alloc, bytes, b"data"),
        b"abc",
    )
}

fn copy_opens(
    alloc: Global,
    aead: &WrappedDeterministicAead<AesSiv>,
    bytes: &[u8],
) -> Result<bool, TinkError> {
    match aead.try_clone(alloc) {
        Ok(copy) => opens(alloc, &copy, bytes),
        Err(e) => Err(e),
    }
}

impl Ask<WrappedDeterministicAead<AesSiv>> for Call {
    fn answer(
        &self,
        alloc: Global,
        aead: &mut WrappedDeterministicAead<AesSiv>,
    ) -> Result<bool, TinkError> {
        match *self {
            Call::Make => Ok(true),
            Call::Seal(want) => gives(sealed_by(aead, alloc, b"abc", b"data"), want),
            Call::Open(bytes) => opens(alloc, aead, bytes),
            Call::Copy(bytes) => copy_opens(alloc, aead, bytes),
        }
    }
}

const TEMPLATE: Template = Template("AES256_SIV", AES_SIV_TYPE_URL, b"\x08\x40", 1);

impl Ask<NamedRegistry> for Asked {
    fn answer(&self, alloc: Global, registry: &mut NamedRegistry) -> Result<bool, TinkError> {
        match *self {
            Asked::Build(key) => succeeds(AesSivKeyManager::new().primitive(alloc, key)),
            Asked::Make(format, n, left) => makes_by(alloc, format, n, left),
            Asked::Register => succeeds(init(alloc, registry)),
            Asked::Template => {
                is_made_and_registered(registry, &TEMPLATE, aes_siv_key_template(alloc))
            }
            Asked::Keyset(primary, ref call) => ask_made(alloc, two_keys(alloc, primary), call),
        }
    }
}

const INVALID: Answer = Err(Kind::InvalidKey);

const FAILED: Answer = Err(Kind::DecryptFailed);

// What pyca/cryptography 48 makes of `abc` under both keys, and a byte more.
const TINK: &[u8] =
    b"\x01\x00\x00\x00\x01\x49\xca\xf5\xe5\x8d\x86\x90\x7b\x6a\xba\xfc\x00\x40\xd5\x1f\x01\x1e\x3b\x80";

const TINK_LONGER: &[u8] =
    b"\x01\x00\x00\x00\x01\x49\xca\xf5\xe5\x8d\x86\x90\x7b\x6a\xba\xfc\x00\x40\xd5\x1f\x01\x1e\x3b\x80\x00";

const RAW: &[u8] = b"\x6a\x95\x95\x15\x87\xa6\xe3\x5e\x92\x37\xc9\x0c\x76\x42\x47\x37\x53\x41\x3c";

const RAW_LONGER: &[u8] =
    b"\x6a\x95\x95\x15\x87\xa6\xe3\x5e\x92\x37\xc9\x0c\x76\x42\x47\x37\x53\x41\x3c\x00";

// The bytes of a key are field 2 of its message, and its version field 1; the size of keys is field 1 of a format.
const ROWS: &[(&str, Asked, Answer)] = &[
    (
        "64 bytes",
        Asked::Build(b"\x12\x400123456789abcdefghijklmnopqrstuvwxyzABCDEFGHIJKLMNOPQRSTUVWXYZ+-"),
        Ok(true),
    ),
    (
        "32 bytes",
        Asked::Build(b"\x12\x200123456789abcdefghijklmnopqrstuv"),
        INVALID,
    ),
    (
        "48 bytes",
        Asked::Build(b"\x12\x300123456789abcdefghijklmnopqrstuvwxyzABCDEFGHIJKL"),
        INVALID,
    ),
    (
        "version 1",
        Asked::Build(
            b"\x08\x01\x12\x400123456789abcdefghijklmnopqrstuvwxyzABCDEFGHIJKLMNOPQRSTUVWXYZ+-",
        ),
        INVALID,
    ),
    ("70 draws", Asked::Make(b"\x08\x40", 70, 6), Ok(true)),
    (
        "63 draws",
        Asked::Make(b"\x08\x40", 63, 63),
        Err(Kind::RandomFault),
    ),
    (
        "keys of 32 bytes",
        Asked::Make(b"\x08\x20", 70, 70),
        Err(Kind::InvalidFormat),
    ),
    ("the registration", Asked::Register, Ok(true)),
    ("the template", Asked::Template, Ok(true)),
    (
        "the registration again",
        Asked::Register,
        Err(Kind::AlreadyRegistered),
    ),
    ("the template again", Asked::Template, Ok(true)),
    (
        "no primary key",
        Asked::Keyset(3, Call::Make),
        Err(Kind::InvalidKeyset),
    ),
    (
        "a prefixed key's",
        Asked::Keyset(1, Call::Seal(TINK)),
        Ok(true),
    ),
    (
        "a prefixed key's, by a raw one first",
        Asked::Keyset(2, Call::Open(TINK)),
        Ok(true),
    ),
    (
        "a prefixed key's, by a copy",
        Asked::Keyset(2, Call::Copy(TINK)),
        Ok(true),
    ),
    ("a raw key's", Asked::Keyset(2, Call::Seal(RAW)), Ok(true)),
    (
        "a raw key's, by a prefixed one first",
        Asked::Keyset(1, Call::Open(RAW)),
        Ok(true),
    ),
    (
        "a raw key's, by a copy",
        Asked::Keyset(1, Call::Copy(RAW)),
        Ok(true),
    ),
    (
        "a prefixed key's with a byte more",
        Asked::Keyset(2, Call::Open(TINK_LONGER)),
        FAILED,
    ),
    (
        "a raw key's with a byte more",
        Asked::Keyset(1, Call::Open(RAW_LONGER)),
        FAILED,
    ),
    (
        "a prefix alone",
        Asked::Keyset(1, Call::Open(b"\x01\x00\x00\x00\x01")),
        FAILED,
    ),
];

/// Each row, and that the laws hold of these types.
pub fn keys_and_keysets_are_as_the_rows_say(alloc: Global, verdict: &mut Verdict) {
    law_old_ciphertexts_open::<AesSivKeyManager, AesSiv>();
    law_ciphertexts_outlive_commands::<AesSivKeyManager, AesSiv>();
    verdict.walk(alloc, Registry::new(alloc), ROWS);
    let as_known = AES_SIV_KEY_VERSION == 0 && AES_SIV_KEY_SIZE == 64;
    verdict.expect(Ok(as_known), Ok(true), "the version and the size");
}
