//! Envelopes over a remote key.

ghost use Rattle.std.specs.Prelude.{[]};
ghost use Rattle.tink_io.specs.Answering.{Answers};
ghost use Rattle.tink_aead.specs.Envelope.{data_key_aead, envelope_decrypts};

use std::alloc::Global;
use test_util::{Answer, Verdict, draws_of, gives, kind_of, registry_of, template};
use tink_aead::subtle::{AesCtr, AesGcm, EncryptThenAuthenticate};
use tink_aead::{AES_GCM_TYPE_URL, AesGcmKeyManager, KmsEnvelopeAead, aes128_gcm_key_template};
use tink_core::registry::{KeyManager, Registry};
use tink_core::{Aead, CloneIn, Kind, TinkError};
use tink_mac::subtle::Hmac;
use tink_mac::{HmacKeyManager, hmac_sha256_tag128_key_template};
use tink_proto::{Bytes, HashType, KeyTemplate};

/// The text of an envelope without associated data.
fn opened_by<A: Aead, M: KeyManager>(
    envelope: &KmsEnvelopeAead<'_, A, M>,
    alloc: Global,
    ciphertext: &[u8],
) -> Result<Bytes, TinkError>
    ensures { Answers result (envelope_decrypts (A.decrypts envelope.now.remote)
        (data_key_aead M.url M.builds envelope.now.registry.now.managers envelope.now.dek_template.type_url)
        M.Family.Aead.decrypts ciphertext.now []) }
{
    envelope.decrypt(alloc, ciphertext, &[])
}

// ---- what an envelope stands on

// A remote key of sixteen bytes of this value.
fn remote_of(alloc: Global, byte: u8) -> Result<AesGcm, TinkError> {
    AesGcm::new(alloc, &[byte; 16])
}

// ---- sealing

// By pyca/cryptography 48: a data key of the first sixteen draws, under a remote key of sixteen bytes 9.
const SEALED: &[u8] =
    b"\x00\x00\x00\x2e\x10\x11\x12\x13\x14\x15\x16\x17\x18\x19\x1a\x1b\xe5\xd7\x67\x63\xc3\xd2\x73\xa2\xdf\xb4\xaf\x35\xd3\x29\xc9\x0f\xd8\x37\x2a\xa2\x5e\xc2\x4d\xea\x09\xf5\x12\x10\x8a\x4f\x05\xb1\xe4\x8c\x1c\x1d\x1e\x1f\x20\x21\x22\x23\x24\x25\x26\x27\x38\x8b\x7d\xe5\xb5\x0e\xf2\x61\xdd\xdc\x14\x2e\xa7\x98\xd5\xf1\xbb\x50\xff";

// Draws that count up from 0.
const DRAWS: &[u8; 60] =
    b"\x00\x01\x02\x03\x04\x05\x06\x07\x08\x09\x0a\x0b\x0c\x0d\x0e\x0f\x10\x11\x12\x13\x14\x15\x16\x17\x18\x19\x1a\x1b\x1c\x1d\x1e\x1f\x20\x21\x22\x23\x24\x25\x26\x27\x28\x29\x2a\x2b\x2c\x2d\x2e\x2f\x30\x31\x32\x33\x34\x35\x36\x37\x38\x39\x3a\x3b";

// ---- a remote key that refuses

type Composed = EncryptThenAuthenticate<AesCtr, Hmac>;

// Its tags are of another size than its MAC's.
fn remote_that_refuses(alloc: Global) -> Result<Composed, TinkError> {
    let mac = Hmac::new(alloc, HashType::Sha256, &[2; 16], 16)?;
    match AesCtr::new(alloc, &[1; 16], 16) {
        Ok(cipher) => EncryptThenAuthenticate::new(cipher, mac, 20),
        Err(e) => Err(e),
    }
}

// ---- what is asked of envelopes

enum Asked {
    // To seal `abc` to those bytes, by so many draws that count up, of which so many are left.
    Seal(usize, usize),
    // To open these bytes to `abc`, with data and without.
    Open(&'static [u8], &'static [u8]),
    OpenWithoutData(&'static [u8]),
    // To open those bytes by a copy.
    Copy,
    // To refuse them with a bit changed at each place.
    Changes,
}

fn seals<E: Aead>(alloc: Global, envelope: &E, n: usize, left: usize) -> Result<bool, TinkError> {
    let mut draws = draws_of(alloc, &DRAWS[..n.min(60)])?;
    let sealed = envelope.encrypt(alloc, b"abc", b"some data", &mut draws);
    if draws.left() == left {
        gives(sealed, SEALED)
    } else {
        Ok(false)
    }
}

fn copy_opens<E: Aead + CloneIn>(alloc: Global, envelope: &E) -> Result<bool, TinkError> {
    match envelope.try_clone(alloc) {
        Ok(copy) => gives(copy.decrypt(alloc, SEALED, b"some data"), b"abc"),
        Err(e) => Err(e),
    }
}

// Whether those bytes are refused with a bit changed at a place, and at each.
fn refuses_change<E: Aead>(alloc: Global, envelope: &E, i: usize) -> Result<bool, TinkError> {
    let mut changed = SEALED.to_vec(alloc)?;
    if let Some(byte) = changed.get_mut(i) {
        *byte ^= 128;
    }
    let refused = kind_of(envelope.decrypt(alloc, &changed, b"some data"));
    Ok(refused == Some(Kind::DecryptFailed))
}

fn refuses_changes<E: Aead>(alloc: Global, envelope: &E) -> Result<bool, TinkError> {
    for i in 0..SEALED.len() {
        if !refuses_change(alloc, envelope, i)? {
            return Ok(false);
        }
    }
    Ok(true)
}

fn does<A: Aead + CloneIn, M: KeyManager>(
    alloc: Global,
    envelope: &KmsEnvelopeAead<'_, A, M>,
    asked: &Asked,
) -> Result<bool, TinkError> {
    match asked {
        Asked::Seal(n, left) => seals(alloc, envelope, *n, *left),
        Asked::Open(input, data) => gives(envelope.decrypt(alloc, input, data), b"abc"),
        Asked::OpenWithoutData(input) => gives(opened_by(envelope, alloc, input), b"abc"),
        Asked::Copy => copy_opens(alloc, envelope),
        Asked::Changes => refuses_changes(alloc, envelope),
    }
}

// What an envelope stands on.
enum Of {
    // AES-GCM keys under a remote key of bytes of this value.
    Gcm(u8),
    // A format of 17 bytes, and MAC keys in a registry of AES-GCM keys.
    BadFormat,
    OtherType,
    // MAC keys in a registry of them.
    Macs,
    // A remote key that refuses.
    Refusing,
}

fn does_in<A: Aead + CloneIn + Drop, M: KeyManager>(
    alloc: Global,
    registry: &Registry<M>,
    kt: KeyTemplate,
    remote: Result<A, TinkError>,
    asked: &Asked,
) -> Result<bool, TinkError> {
    match remote {
        Ok(remote) => does(alloc, &KmsEnvelopeAead::new(kt, remote, registry), asked),
        Err(e) => Err(e),
    }
}

fn template_for(alloc: Global, of: &Of) -> Result<KeyTemplate, TinkError> {
    match of {
        Of::BadFormat => template(alloc, AES_GCM_TYPE_URL, b"\x10\x11", 1),
        Of::OtherType | Of::Macs => hmac_sha256_tag128_key_template(alloc),
        _ => aes128_gcm_key_template(alloc),
    }
}

fn does_by<M: KeyManager>(
    alloc: Global,
    registry: &Registry<M>,
    of: &Of,
    asked: &Asked,
) -> Result<bool, TinkError> {
    let kt = template_for(alloc, of)?;
    match of {
        Of::Gcm(byte) => does_in(alloc, registry, kt, remote_of(alloc, *byte), asked),
        Of::Refusing => does_in(alloc, registry, kt, remote_that_refuses(alloc), asked),
        _ => does_in(alloc, registry, kt, remote_of(alloc, 9), asked),
    }
}

fn does_with<M: KeyManager + Drop>(
    alloc: Global,
    km: M,
    of: &Of,
    asked: &Asked,
) -> Result<bool, TinkError> {
    match registry_of(alloc, km) {
        Ok(registry) => does_by(alloc, &registry, of, asked),
        Err(e) => Err(e),
    }
}

fn answer_row(alloc: Global, of: &Of, asked: &Asked) -> Result<bool, TinkError> {
    match of {
        Of::Macs => does_with(alloc, HmacKeyManager::new(), of, asked),
        _ => does_with(alloc, AesGcmKeyManager::new(), of, asked),
    }
}

const NO_DRAWS: Answer = Err(Kind::RandomFault);

const FAILED: Answer = Err(Kind::DecryptFailed);

const SHORT: Answer = Err(Kind::TooShort);

const INVALID: Answer = Err(Kind::InvalidKey);

const WRONG: Answer = Err(Kind::WrongPrimitive);

const UNSUPPORTED: Answer = Err(Kind::UnsupportedKeyType);

// By pyca/cryptography 48: envelopes of `payload` whose data keys are nothing, one of version 1, and one of HMAC-SHA256
// with tags of 16 bytes and the bytes 0 to 31. The remote key has bytes 9, and its nonce bytes 7.
const OF_NOTHING: &[u8] =
    b"\x00\x00\x00\x1c\x07\x07\x07\x07\x07\x07\x07\x07\x07\x07\x07\x07\xca\x5b\xf1\x32\x6b\xf2\xeb\x85\x14\x5c\x02\xcf\xca\x21\xa2\x4b\x70\x61\x79\x6c\x6f\x61\x64";

const OF_VERSION_1: &[u8] =
    b"\x00\x00\x00\x1e\x07\x07\x07\x07\x07\x07\x07\x07\x07\x07\x07\x07\x9f\x6d\x90\x1c\xde\xc8\x4f\xba\x57\x59\xb8\xba\x22\x12\x2a\xa1\x04\xc2\x70\x61\x79\x6c\x6f\x61\x64";

const OF_MACS: &[u8] =
    b"\x00\x00\x00\x44\x07\x07\x07\x07\x07\x07\x07\x07\x07\x07\x07\x07\x85\x68\x58\xf8\x70\x93\x27\x0f\x24\x23\x41\x87\xd3\xc7\xfe\xef\xee\x78\x6c\x8d\xae\xbc\xe5\x4d\xa8\xe9\xd5\x4d\x93\x29\xef\x89\x7e\x20\x02\xa4\xa1\x47\x28\xcd\x32\x2e\x31\xc4\x2d\xaf\x0f\x70\x48\xe3\x8b\x46\x54\xd3\xb9\xc7\x70\x61\x79\x6c\x6f\x61\x64";

const ROWS: &[(&str, Of, Asked, Answer)] = &[
    (
        "sealed by 40 of 41 draws",
        Of::Gcm(9),
        Asked::Seal(41, 1),
        Ok(true),
    ),
    (
        "opened",
        Of::Gcm(9),
        Asked::Open(SEALED, b"some data"),
        Ok(true),
    ),
    ("opened by a copy", Of::Gcm(9), Asked::Copy, Ok(true)),
    // Key, remote and payload draw in this order.
    ("15 draws", Of::Gcm(9), Asked::Seal(15, 15), NO_DRAWS),
    ("27 draws", Of::Gcm(9), Asked::Seal(27, 11), NO_DRAWS),
    ("39 draws", Of::Gcm(9), Asked::Seal(39, 11), NO_DRAWS),
    (
        "a format of 17 bytes",
        Of::BadFormat,
        Asked::Seal(60, 60),
        Err(Kind::InvalidFormat),
    ),
    // Other data and another remote key are refused.
    (
        "other data",
        Of::Gcm(9),
        Asked::Open(SEALED, b"some dat"),
        FAILED,
    ),
    (
        "another remote key",
        Of::Gcm(8),
        Asked::Open(SEALED, b"some data"),
        FAILED,
    ),
    (
        "no data",
        Of::Gcm(9),
        Asked::OpenWithoutData(SEALED),
        FAILED,
    ),
    // Four bytes or fewer are too short, and the remote key refuses an encrypted key of one byte.
    ("nothing", Of::Gcm(9), Asked::OpenWithoutData(b""), SHORT),
    ("a byte", Of::Gcm(9), Asked::OpenWithoutData(b"\x00"), SHORT),
    (
        "two bytes",
        Of::Gcm(9),
        Asked::OpenWithoutData(b"\x00\x00"),
        SHORT,
    ),
    (
        "three bytes",
        Of::Gcm(9),
        Asked::OpenWithoutData(b"\x00\x00\x00"),
        SHORT,
    ),
    (
        "four bytes",
        Of::Gcm(9),
        Asked::OpenWithoutData(b"\x00\x00\x00\x01"),
        SHORT,
    ),
    (
        "a key of a byte",
        Of::Gcm(9),
        Asked::OpenWithoutData(b"\x00\x00\x00\x01\xff"),
        SHORT,
    ),
    // Lengths of 0 and past the end are refused.
    (
        "the length 0",
        Of::Gcm(9),
        Asked::OpenWithoutData(b"\x00\x00\x00\x00\xff"),
        FAILED,
    ),
    (
        "the length 2",
        Of::Gcm(9),
        Asked::OpenWithoutData(b"\x00\x00\x00\x02\xff"),
        FAILED,
    ),
    (
        "the length 2^32 - 1",
        Of::Gcm(9),
        Asked::OpenWithoutData(b"\xff\xff\xff\xff\xff"),
        FAILED,
    ),
    // Data keys that do not build are refused.
    (
        "a data key of no bytes",
        Of::Gcm(9),
        Asked::OpenWithoutData(OF_NOTHING),
        INVALID,
    ),
    (
        "a data key of version 1",
        Of::Gcm(9),
        Asked::OpenWithoutData(OF_VERSION_1),
        INVALID,
    ),
    (
        "keys of another type, sealing",
        Of::OtherType,
        Asked::Seal(60, 60),
        UNSUPPORTED,
    ),
    (
        "keys of another type, opening",
        Of::OtherType,
        Asked::Open(SEALED, b"some data"),
        UNSUPPORTED,
    ),
    // No draw is taken for a payload.
    (
        "a data key of another sort, sealing",
        Of::Macs,
        Asked::Seal(60, 16),
        WRONG,
    ),
    (
        "a data key of another sort, opening",
        Of::Macs,
        Asked::OpenWithoutData(OF_MACS),
        WRONG,
    ),
    // It refuses after its draws, and none is taken after them.
    (
        "a remote key refuses, sealing",
        Of::Refusing,
        Asked::Seal(60, 28),
        Err(Kind::BadTagSize),
    ),
    (
        "a remote key refuses, opening",
        Of::Refusing,
        Asked::Open(SEALED, b"some data"),
        Err(Kind::MacMismatch),
    ),
    (
        "a changed bit at each place",
        Of::Gcm(9),
        Asked::Changes,
        Ok(true),
    ),
];

pub fn envelopes_seal_open_and_refuse(alloc: Global, verdict: &mut Verdict) {
    for (row, of, asked, want) in ROWS {
        verdict.expect(answer_row(alloc, of, asked), *want, row);
    }
}
