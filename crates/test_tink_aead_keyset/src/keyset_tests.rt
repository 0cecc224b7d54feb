//! The AEADs of keysets.

ghost use Rattle.std.specs.Prelude.{[]};
ghost use Rattle.tink_io.specs.Answering.{Replies};
ghost use Rattle.tink_aead.specs.Wrapped.{primary_encrypts};

use std::alloc::Global;
use test_util::{Answer, Ask, Verdict, ask_made, draws_of, gives, handle, registry_of};
use tink_aead::{
    AeadKind, AesCtrHmacAeadKeyManager, AesGcmKeyManager, AesGcmSivKeyManager, WrappedAead,
    aes128_ctr_hmac_sha256_key_template, aes128_gcm_key_template,
    aes256_ctr_hmac_sha512_key_template, aes256_gcm_key_template,
    aes256_gcm_no_prefix_key_template, aes256_gcm_siv_no_prefix_key_template,
    law_ciphertexts_outlive_commands, new,
};
use tink_core::keyset::{Handle, Manager};
use tink_core::registry::{KeyManager, Registry};
use tink_core::{Aead, Draws, Kind, Kinds, TinkError};
use tink_proto::{Bytes, KeyTemplate};

/// Encrypts a text without associated data by the primary key.
fn sealed_by<P: Aead>(
    aead: &WrappedAead<P>,
    alloc: Global,
    text: &[u8],
    draws: &mut Draws,
) -> Result<Bytes, TinkError>
    ensures { Replies result (primary_encrypts P.encrypts aead.now.ps.primary text.now [] draws.old)
        draws.old draws.new }
{
    aead.encrypt(alloc, text, &[], draws)
}

// ---- texts by new keys

// The handle of one new key.
fn new_handle<M: KeyManager>(
    alloc: Global,
    registry: &Registry<M>,
    kt: &KeyTemplate,
) -> Result<Handle, TinkError> {
    match draws_of(alloc, &[3; 128]) {
        Ok(mut draws) => Handle::new(alloc, kt, registry, &mut draws),
        Err(e) => Err(e),
    }
}

// The AEADs of a handle's keys.
fn aead_of<M: KeyManager, P: Aead>(
    alloc: Global,
    registry: &Registry<M>,
    h: Result<Handle, TinkError>,
) -> Result<WrappedAead<P>, TinkError>
where
    M::Family: Kinds<Aead = P>,
{
    match h {
        Ok(h) => new(alloc, &h, registry),
        Err(e) => Err(e),
    }
}

// Those of one new key, in a registry of its manager.
fn aead_by<M: KeyManager + Drop, P: Aead>(
    alloc: Global,
    manager: M,
    kt: &KeyTemplate,
) -> Result<WrappedAead<P>, TinkError>
where
    M::Family: Kinds<Aead = P>,
{
    match registry_of(alloc, manager) {
        Ok(registry) => aead_of(alloc, &registry, new_handle(alloc, &registry, kt)),
        Err(e) => Err(e),
    }
}

fn sealed_with_data(alloc: Global, aead: &WrappedAead<AeadKind>) -> Result<Bytes, TinkError> {
    match draws_of(alloc, &[5; 16]) {
        Ok(mut draws) => aead.encrypt(alloc, b"abc", b"data", &mut draws),
        Err(e) => Err(e),
    }
}

// Whether these bytes are so many, and are decrypted to `abc`.
fn has_size(
    alloc: Global,
    aead: &WrappedAead<AeadKind>,
    sealed: &[u8],
    size: usize,
    data: &[u8],
) -> Result<bool, TinkError> {
    match gives(aead.decrypt(alloc, sealed, data), b"abc") {
        Ok(opens) => Ok(opens & (sealed.len() == size)),
        Err(e) => Err(e),
    }
}

// `abc` is encrypted to so many bytes, and these are decrypted with these data.
struct Size(usize, &'static [u8]);

impl Ask<WrappedAead<AeadKind>> for Size {
    fn answer(&self, alloc: Global, aead: &mut WrappedAead<AeadKind>) -> Result<bool, TinkError> {
        match sealed_with_data(alloc, aead) {
            Ok(sealed) => has_size(alloc, aead, sealed.as_slice(), self.0, self.1),
            Err(e) => Err(e),
        }
    }
}

enum Template {
    Gcm,
    RawGcm,
    RawGcmSiv,
    CtrHmacSha256,
    CtrHmacSha512,
}

fn template_of(alloc: Global, template: &Template) -> Result<KeyTemplate, TinkError> {
    match template {
        Template::Gcm => aes256_gcm_key_template(alloc),
        Template::RawGcm => aes256_gcm_no_prefix_key_template(alloc),
        Template::RawGcmSiv => aes256_gcm_siv_no_prefix_key_template(alloc),
        Template::CtrHmacSha256 => aes128_ctr_hmac_sha256_key_template(alloc),
        Template::CtrHmacSha512 => aes256_ctr_hmac_sha512_key_template(alloc),
    }
}

fn aead_for(
    alloc: Global,
    template: &Template,
    kt: &KeyTemplate,
) -> Result<WrappedAead<AeadKind>, TinkError> {
    match template {
        Template::Gcm | Template::RawGcm => aead_by(alloc, AesGcmKeyManager::new(), kt),
        Template::RawGcmSiv => aead_by(alloc, AesGcmSivKeyManager::new(), kt),
        _ => aead_by(alloc, AesCtrHmacAeadKeyManager::new(), kt),
    }
}

fn new_aead(alloc: Global, template: &Template) -> Result<WrappedAead<AeadKind>, TinkError> {
    match template_of(alloc, template) {
        Ok(kt) => aead_for(alloc, template, &kt),
        Err(e) => Err(e),
    }
}

const FAILED: Answer = Err(Kind::DecryptFailed);

// The size of what is made of `abc` with the associated data `data`, by a new key, and the data that it is opened with.
const NEW_KEYS: &[(&str, Template, Size, Answer)] = &[
    (
        "AES-GCM with a prefix",
        Template::Gcm,
        Size(36, b"data"),
        Ok(true),
    ),
    (
        "AES-GCM with a prefix, other data",
        Template::Gcm,
        Size(36, b"dat"),
        FAILED,
    ),
    (
        "AES-GCM without",
        Template::RawGcm,
        Size(31, b"data"),
        Ok(true),
    ),
    (
        "AES-GCM without, other data",
        Template::RawGcm,
        Size(31, b"dat"),
        FAILED,
    ),
    (
        "AES-GCM-SIV without a prefix",
        Template::RawGcmSiv,
        Size(31, b"data"),
        Ok(true),
    ),
    (
        "AES-GCM-SIV without a prefix, other data",
        Template::RawGcmSiv,
        Size(31, b"dat"),
        FAILED,
    ),
    (
        "CTR and SHA-256",
        Template::CtrHmacSha256,
        Size(40, b"data"),
        Ok(true),
    ),
    (
        "CTR and SHA-256, other data",
        Template::CtrHmacSha256,
        Size(40, b"dat"),
        FAILED,
    ),
    (
        "CTR and SHA-512",
        Template::CtrHmacSha512,
        Size(88, b"data"),
        Ok(true),
    ),
    (
        "CTR and SHA-512, other data",
        Template::CtrHmacSha512,
        Size(88, b"dat"),
        FAILED,
    ),
];

pub fn texts_by_new_keys(alloc: Global, verdict: &mut Verdict) {
    for (row, template, size, want) in NEW_KEYS {
        verdict.expect(ask_made(alloc, new_aead(alloc, template), size), *want, row);
    }
}

// ---- keysets of two keys

fn is_sealed(
    alloc: Global,
    aead: &WrappedAead<AeadKind>,
    n: usize,
    want: &[u8],
) -> Result<bool, TinkError> {
    match draws_of(alloc, &[9; 12][..n.min(12)]) {
        Ok(mut draws) => gives(sealed_by(aead, alloc, b"abc", &mut draws), want),
        Err(e) => Err(e),
    }
}

fn is_opened(
    alloc: Global,
    aead: &WrappedAead<AeadKind>,
    sealed: &[u8],
) -> Result<bool, TinkError> {
    gives(aead.decrypt(alloc, sealed, &[]), b"abc")
}

enum Call {
    // So many draws make this of `abc`.
    Seal(usize, &'static [u8]),
    // This is decrypted to `abc`.
    Open(&'static [u8]),
    // Both ciphertexts of a rotation are decrypted.
    OpenBoth,
}

fn open_both(alloc: Global, aead: &WrappedAead<AeadKind>) -> Result<bool, TinkError> {
    match is_opened(alloc, aead, OLD) {
        Ok(true) => is_opened(alloc, aead, NEWER),
        other => other,
    }
}

impl Ask<WrappedAead<AeadKind>> for Call {
    fn answer(&self, alloc: Global, aead: &mut WrappedAead<AeadKind>) -> Result<bool, TinkError> {
        match *self {
            Call::Seal(n, want) => is_sealed(alloc, aead, n, want),
            Call::Open(sealed) => is_opened(alloc, aead, sealed),
            Call::OpenBoth => open_both(alloc, aead),
        }
    }
}

fn asked_of(
    alloc: Global,
    registry: &Registry<AesGcmKeyManager>,
    keys: &[u8],
    call: &Call,
) -> Result<bool, TinkError> {
    ask_made(alloc, aead_of(alloc, registry, handle(alloc, keys)), call)
}

enum Asked {
    // What is asked of the AEADs of these keys.
    Keys(&'static [u8], Call),
    // The same, and then of those of the others.
    Both(&'static [u8], Call, &'static [u8], Call),
    // What is encrypted before a rotation and after it is decrypted.
    Rotation,
}

impl Ask<Registry<AesGcmKeyManager>> for Asked {
    fn answer(
        &self,
        alloc: Global,
        registry: &mut Registry<AesGcmKeyManager>,
    ) -> Result<bool, TinkError> {
        match *self {
            Asked::Keys(keys, ref call) => asked_of(alloc, registry, keys, call),
            Asked::Both(keys, ref call, others, ref then) => {
                match asked_of(alloc, registry, keys, call) {
                    Ok(true) => asked_of(alloc, registry, others, then),
                    other => other,
                }
            }
            Asked::Rotation => rotates(alloc, registry),
        }
    }
}

// Keysets of two AES-GCM keys, of which each byte is its id, in the wire format. One has a prefix, one is raw, and the
// first is primary.
const PREFIXED_FIRST: &[u8] =
    b"\x08\x01\x12\x50\x0a\x48\x0a\x30type.googleapis.com/google.crypto.tink.AesGcmKey\x12\x12\x1a\x10\x01\x01\x01\x01\x01\x01\x01\x01\x01\x01\x01\x01\x01\x01\x01\x01\x18\x01\x10\x01\x18\x01\x20\x01\x12\x50\x0a\x48\x0a\x30type.googleapis.com/google.crypto.tink.AesGcmKey\x12\x12\x1a\x10\x02\x02\x02\x02\x02\x02\x02\x02\x02\x02\x02\x02\x02\x02\x02\x02\x18\x01\x10\x01\x18\x02\x20\x03";

const RAW_FIRST: &[u8] =
    b"\x08\x02\x12\x50\x0a\x48\x0a\x30type.googleapis.com/google.crypto.tink.AesGcmKey\x12\x12\x1a\x10\x02\x02\x02\x02\x02\x02\x02\x02\x02\x02\x02\x02\x02\x02\x02\x02\x18\x01\x10\x01\x18\x02\x20\x03\x12\x50\x0a\x48\x0a\x30type.googleapis.com/google.crypto.tink.AesGcmKey\x12\x12\x1a\x10\x01\x01\x01\x01\x01\x01\x01\x01\x01\x01\x01\x01\x01\x01\x01\x01\x18\x01\x10\x01\x18\x01\x20\x01";

const OTHERS: &[u8] =
    b"\x08\x03\x12\x50\x0a\x48\x0a\x30type.googleapis.com/google.crypto.tink.AesGcmKey\x12\x12\x1a\x10\x03\x03\x03\x03\x03\x03\x03\x03\x03\x03\x03\x03\x03\x03\x03\x03\x18\x01\x10\x01\x18\x03\x20\x01\x12\x50\x0a\x48\x0a\x30type.googleapis.com/google.crypto.tink.AesGcmKey\x12\x12\x1a\x10\x04\x04\x04\x04\x04\x04\x04\x04\x04\x04\x04\x04\x04\x04\x04\x04\x18\x01\x10\x01\x18\x04\x20\x03";

// What pyca/cryptography 48 makes of `abc` under both keys, by twelve draws of 9.
const BY_PREFIXED: &[u8] =
    b"\x01\x00\x00\x00\x01\x09\x09\x09\x09\x09\x09\x09\x09\x09\x09\x09\x09\x4d\xc0\xfd\xb1\x2e\xaf\xb9\x3e\x87\x95\x0a\x01\x65\x2e\xd2\x74\xc4\x83\x70";

const BY_RAW: &[u8] =
    b"\x09\x09\x09\x09\x09\x09\x09\x09\x09\x09\x09\x09\x25\xda\x43\xdc\x2b\x13\xcf\x2a\x30\x0c\xf3\x10\x13\x59\x2a\xa9\x6c\xec\x22";

// What the AEAD of one keyset is asked, and then, in a row of both, that of another.
const KEYSETS: &[(&str, Asked, Answer)] = &[
    (
        "a prefixed key's, by its keyset",
        Asked::Both(
            PREFIXED_FIRST,
            Call::Seal(12, BY_PREFIXED),
            PREFIXED_FIRST,
            Call::Open(BY_PREFIXED),
        ),
        Ok(true),
    ),
    (
        "a prefixed key's, by a raw one first",
        Asked::Both(
            PREFIXED_FIRST,
            Call::Seal(12, BY_PREFIXED),
            RAW_FIRST,
            Call::Open(BY_PREFIXED),
        ),
        Ok(true),
    ),
    (
        "a prefixed key's, by other keys",
        Asked::Both(
            PREFIXED_FIRST,
            Call::Seal(12, BY_PREFIXED),
            OTHERS,
            Call::Open(BY_PREFIXED),
        ),
        FAILED,
    ),
    (
        "a raw key's, by its keyset",
        Asked::Both(
            RAW_FIRST,
            Call::Seal(12, BY_RAW),
            RAW_FIRST,
            Call::Open(BY_RAW),
        ),
        Ok(true),
    ),
    (
        "a raw key's, by a prefixed one first",
        Asked::Both(
            RAW_FIRST,
            Call::Seal(12, BY_RAW),
            PREFIXED_FIRST,
            Call::Open(BY_RAW),
        ),
        Ok(true),
    ),
    (
        "a raw key's, by other keys",
        Asked::Both(
            RAW_FIRST,
            Call::Seal(12, BY_RAW),
            OTHERS,
            Call::Open(BY_RAW),
        ),
        FAILED,
    ),
    (
        "too few draws",
        Asked::Both(
            PREFIXED_FIRST,
            Call::Seal(11, BY_PREFIXED),
            PREFIXED_FIRST,
            Call::Open(BY_PREFIXED),
        ),
        Err(Kind::RandomFault),
    ),
    (
        "a prefix alone",
        Asked::Keys(PREFIXED_FIRST, Call::Open(b"\x01\x00\x00\x00\x01")),
        FAILED,
    ),
    ("both ciphertexts of a rotation", Asked::Rotation, Ok(true)),
];

// ---- a rotation

// What pyca/cryptography 48 makes of `abc` by twelve draws of 9, under the first key and the one of the rotation.
const OLD: &[u8] =
    b"\x01\x03\x03\x03\x03\x09\x09\x09\x09\x09\x09\x09\x09\x09\x09\x09\x09\xd4\x1c\x3b\x74\xac\x84\x8f\x93\xd5\xfc\x79\xf8\x7c\xc0\xfe\xc1\x32\x9a\xf6";

const NEWER: &[u8] =
    b"\x01\x04\x04\x04\x04\x09\x09\x09\x09\x09\x09\x09\x09\x09\x09\x09\x09\x71\x4a\xff\x3d\x01\x8a\xc0\x3d\xd4\xbd\x6d\xb9\x34\x85\xf3\x67\x68\x11\xe6";

fn rotate(
    alloc: Global,
    registry: &Registry<AesGcmKeyManager>,
    kt: &KeyTemplate,
    manager: &mut Manager,
) -> Result<u32, TinkError> {
    match draws_of(alloc, &[4; 20]) {
        Ok(mut draws) => manager.rotate(alloc, kt, registry, &mut draws),
        Err(e) => Err(e),
    }
}

// The keys after a rotation by the template.
fn rotate_keyset(
    alloc: Global,
    registry: &Registry<AesGcmKeyManager>,
    kt: &KeyTemplate,
    h: Handle,
) -> Result<Handle, TinkError> {
    let mut manager = Manager::new_from_handle(h);
    match rotate(alloc, registry, kt, &mut manager) {
        Ok(_) => manager.handle(alloc),
        Err(e) => Err(e),
    }
}

fn copy_opens(alloc: Global, aead: &WrappedAead<AeadKind>) -> Result<bool, TinkError> {
    ask_made(alloc, aead.try_clone(alloc), &Call::OpenBoth)
}

// The newer one is made, and both are decrypted, by a copy too.
struct Later;

impl Ask<WrappedAead<AeadKind>> for Later {
    fn answer(&self, alloc: Global, aead: &mut WrappedAead<AeadKind>) -> Result<bool, TinkError> {
        match is_sealed(alloc, aead, 12, NEWER) {
            Ok(true) => match open_both(alloc, aead) {
                Ok(true) => copy_opens(alloc, aead),
                other => other,
            },
            other => other,
        }
    }
}

// Whether a handle's keys make the old ciphertext, and after a rotation what is said.
fn outlives_a_rotation(
    alloc: Global,
    registry: &Registry<AesGcmKeyManager>,
    kt: &KeyTemplate,
    h: Handle,
) -> Result<bool, TinkError> {
    match ask_made(alloc, new(alloc, &h, registry), &Call::Seal(12, OLD)) {
        Ok(true) => ask_made(
            alloc,
            aead_of(alloc, registry, rotate_keyset(alloc, registry, kt, h)),
            &Later,
        ),
        other => other,
    }
}

fn rotates_by(
    alloc: Global,
    registry: &Registry<AesGcmKeyManager>,
    kt: &KeyTemplate,
) -> Result<bool, TinkError> {
    match new_handle(alloc, registry, kt) {
        Ok(h) => outlives_a_rotation(alloc, registry, kt, h),
        Err(e) => Err(e),
    }
}

fn rotates(alloc: Global, registry: &Registry<AesGcmKeyManager>) -> Result<bool, TinkError> {
    match aes128_gcm_key_template(alloc) {
        Ok(kt) => rotates_by(alloc, registry, &kt),
        Err(e) => Err(e),
    }
}

/// Each row of a keyset, and that the law holds of these types.
pub fn keysets_are_as_the_rows_say(alloc: Global, verdict: &mut Verdict) {
    let made = registry_of(alloc, AesGcmKeyManager::new());
    verdict.walk_made(alloc, made, "the registry", KEYSETS);
    law_ciphertexts_outlive_commands::<AesGcmKeyManager, AeadKind>();
}
