//! Outside vectors, refusals and copies of the AEADs by AES under one key.

ghost use Rattle.std.specs.Prelude.{[]};
ghost use Rattle.tink_io.specs.Answering.{Answers};
ghost use Rattle.tink_aead_subtle.specs.AesAeads.{gcm_decrypts};

use crate::asking::{Asked, Sealed, does_if_made};
use std::alloc::Global;
use test_util::{Answer, Verdict, draws_of, gives, kind_of};
use tink_aead_subtle::{
    AES_BLOCK_SIZE_IN_BYTES, AES_CTR_MIN_IV_SIZE, AES_GCM_IV_SIZE, AES_GCM_SIV_NONCE_SIZE,
    AES_GCM_SIV_TAG_SIZE, AES_GCM_TAG_SIZE, AesCtr, AesGcm, AesGcmSiv, IndCpaCipher,
    validate_aes_key_size,
};
use tink_io::{Kind, TinkError};
use tink_primitives::{Aead, CloneIn};
use tink_proto::Bytes;

/// The text of a ciphertext without associated data.
fn opened_by(aead: &AesGcm, alloc: Global, ciphertext: &[u8]) -> Result<Bytes, TinkError>
    ensures { Answers result (gcm_decrypts aead.now.key ciphertext.now []) }
{
    aead.decrypt(alloc, ciphertext, &[])
}

// ---- counter mode

// What a copy makes of a ciphertext.
fn text_by_a_copy(alloc: Global, cipher: &AesCtr, sealed: &[u8]) -> Result<Bytes, TinkError> {
    match cipher.try_clone(alloc) {
        Ok(copy) => copy.decrypt(alloc, sealed),
        Err(e) => Err(e),
    }
}

// Whether the text is encrypted to these bytes by as many draws as they begin with, and decrypted again by a copy.
fn applies(alloc: Global, key: &[u8], iv_size: usize, of: &Sealed) -> Result<bool, TinkError> {
    let mut draws = draws_of(alloc, &of.sealed[..of.sealed.len().min(iv_size)])?;
    let cipher = AesCtr::new(alloc, key, iv_size)?;
    let sealed = cipher.encrypt(alloc, of.text, &mut draws)?;
    let opened = text_by_a_copy(alloc, &cipher, of.sealed)?;
    let is_sealed = sealed.as_slice() == of.sealed && draws.left() == 0;
    Ok(is_sealed && opened.as_slice() == of.text)
}

enum Of {
    Gcm,
    GcmSiv,
}

// The name, the AEAD, the key, and what is encrypted behind a nonce.
type Vector = (&'static str, Of, &'static [u8], Sealed);

const GCM_DATA: &[u8] =
    b"\xfe\xed\xfa\xce\xde\xad\xbe\xef\xfe\xed\xfa\xce\xde\xad\xbe\xef\xab\xad\xda\xd2";

const GCM_TEXT: &[u8] =
    b"\xd9\x31\x32\x25\xf8\x84\x06\xe5\xa5\x59\x09\xc5\xaf\xf5\x26\x9a\x86\xa7\xa9\x53\x15\x34\xf7\xda\x2e\x4c\x30\x3d\x8a\x31\x8a\x72\x1c\x3c\x0c\x95\x95\x68\x09\x53\x2f\xcf\x0e\x24\x49\xa6\xb5\x25\xb1\x6a\xed\xf5\xaa\x0d\xe6\x57\xba\x63\x7b\x39";

const VECTORS: &[Vector] = &[
    // Test cases 4 and 16 of the GCM specification share all but the key.
    (
        "GCM, the small key",
        Of::Gcm,
        b"\xfe\xff\xe9\x92\x86\x65\x73\x1c\x6d\x6a\x8f\x94\x67\x30\x83\x08",
        Sealed {
            data: GCM_DATA,
            text: GCM_TEXT,
            sealed: b"\xca\xfe\xba\xbe\xfa\xce\xdb\xad\xde\xca\xf8\x88\x42\x83\x1e\xc2\x21\x77\x74\x24\x4b\x72\x21\xb7\x84\xd0\xd4\x9c\xe3\xaa\x21\x2f\x2c\x02\xa4\xe0\x35\xc1\x7e\x23\x29\xac\xa1\x2e\x21\xd5\x14\xb2\x54\x66\x93\x1c\x7d\x8f\x6a\x5a\xac\x84\xaa\x05\x1b\xa3\x0b\x39\x6a\x0a\xac\x97\x3d\x58\xe0\x91\x5b\xc9\x4f\xbc\x32\x21\xa5\xdb\x94\xfa\xe9\x5a\xe7\x12\x1a\x47",
        },
    ),
    (
        "GCM, the large key",
        Of::Gcm,
        b"\xfe\xff\xe9\x92\x86\x65\x73\x1c\x6d\x6a\x8f\x94\x67\x30\x83\x08\xfe\xff\xe9\x92\x86\x65\x73\x1c\x6d\x6a\x8f\x94\x67\x30\x83\x08",
        Sealed {
            data: GCM_DATA,
            text: GCM_TEXT,
            sealed: b"\xca\xfe\xba\xbe\xfa\xce\xdb\xad\xde\xca\xf8\x88\x52\x2d\xc1\xf0\x99\x56\x7d\x07\xf4\x7f\x37\xa3\x2a\x84\x42\x7d\x64\x3a\x8c\xdc\xbf\xe5\xc0\xc9\x75\x98\xa2\xbd\x25\x55\xd1\xaa\x8c\xb0\x8e\x48\x59\x0d\xbb\x3d\xa7\xb0\x8b\x10\x56\x82\x88\x38\xc5\xf6\x1e\x63\x93\xba\x7a\x0a\xbc\xc9\xf6\x62\x76\xfc\x6e\xce\x0f\x4e\x17\x68\xcd\xdf\x88\x53\xbb\x2d\x55\x1b",
        },
    ),
    // RFC 8452, C.1 and C.2.
    (
        "GCM-SIV, the small key",
        Of::GcmSiv,
        b"\x01\x00\x00\x00\x00\x00\x00\x00\x00\x00\x00\x00\x00\x00\x00\x00",
        Sealed {
            data: b"",
            text: b"\x01\x00\x00\x00\x00\x00\x00\x00",
            sealed: b"\x03\x00\x00\x00\x00\x00\x00\x00\x00\x00\x00\x00\xb5\xd8\x39\x33\x0a\xc7\xb7\x86\x57\x87\x82\xff\xf6\x01\x3b\x81\x5b\x28\x7c\x22\x49\x3a\x36\x4c",
        },
    ),
    (
        "GCM-SIV, the large key",
        Of::GcmSiv,
        b"\x01\x00\x00\x00\x00\x00\x00\x00\x00\x00\x00\x00\x00\x00\x00\x00\x00\x00\x00\x00\x00\x00\x00\x00\x00\x00\x00\x00\x00\x00\x00\x00",
        Sealed {
            data: b"\x01",
            text: b"\x02\x00\x00\x00\x00\x00\x00\x00",
            sealed: b"\x03\x00\x00\x00\x00\x00\x00\x00\x00\x00\x00\x00\x1d\xe2\x29\x67\x23\x7a\x81\x32\x91\x21\x3f\x26\x7e\x3b\x45\x2f\x02\xd0\x1a\xe3\x3e\x4e\xc8\x54",
        },
    ),
];

// The same of counter mode: the name, the key, and the size of vectors.
type CtrVector = (&'static str, &'static [u8], usize, Sealed);

const CTR_TEXT: &[u8] =
    b"\x6b\xc1\xbe\xe2\x2e\x40\x9f\x96\xe9\x3d\x7e\x11\x73\x93\x17\x2a\xae\x2d\x8a\x57\x1e\x03\xac\x9c\x9e\xb7\x6f\xac\x45\xaf\x8e\x51\x30\xc8\x1c\x46\xa3\x5c\xe4\x11\xe5\xfb\xc1\x19\x1a\x0a\x52\xef\xf6\x9f\x24\x45\xdf\x4f\x9b\x17\xad\x2b\x41\x7b\xe6\x6c\x37\x10";

const CTR_VECTORS: &[CtrVector] = &[
    // SP 800-38A, F.5.1 and F.5.5, share all but the key.
    (
        "counter mode, the small key",
        b"\x2b\x7e\x15\x16\x28\xae\xd2\xa6\xab\xf7\x15\x88\x09\xcf\x4f\x3c",
        16,
        Sealed {
            data: b"",
            text: CTR_TEXT,
            sealed: b"\xf0\xf1\xf2\xf3\xf4\xf5\xf6\xf7\xf8\xf9\xfa\xfb\xfc\xfd\xfe\xff\x87\x4d\x61\x91\xb6\x20\xe3\x26\x1b\xef\x68\x64\x99\x0d\xb6\xce\x98\x06\xf6\x6b\x79\x70\xfd\xff\x86\x17\x18\x7b\xb9\xff\xfd\xff\x5a\xe4\xdf\x3e\xdb\xd5\xd3\x5e\x5b\x4f\x09\x02\x0d\xb0\x3e\xab\x1e\x03\x1d\xda\x2f\xbe\x03\xd1\x79\x21\x70\xa0\xf3\x00\x9c\xee",
        },
    ),
    (
        "counter mode, the large key",
        b"\x60\x3d\xeb\x10\x15\xca\x71\xbe\x2b\x73\xae\xf0\x85\x7d\x77\x81\x1f\x35\x2c\x07\x3b\x61\x08\xd7\x2d\x98\x10\xa3\x09\x14\xdf\xf4",
        16,
        Sealed {
            data: b"",
            text: CTR_TEXT,
            sealed: b"\xf0\xf1\xf2\xf3\xf4\xf5\xf6\xf7\xf8\xf9\xfa\xfb\xfc\xfd\xfe\xff\x60\x1e\xc3\x13\x77\x57\x89\xa5\xb7\xa7\xf5\x04\xbb\xf3\xd2\x28\xf4\x43\xe3\xca\x4d\x62\xb5\x9a\xca\x84\xe9\x90\xca\xca\xf5\xc5\x2b\x09\x30\xda\xa2\x3d\xe9\x4c\xe8\x70\x17\xba\x2d\x84\x98\x8d\xdf\xc9\xc5\x8d\xb6\x7a\xad\xa6\x13\xc2\xdd\x08\x45\x79\x41\xa6",
        },
    ),
    // By pyca/cryptography 48.
    (
        "a vector of 12 bytes, the small key",
        b"\x00\x01\x02\x03\x04\x05\x06\x07\x08\x09\x0a\x0b\x0c\x0d\x0e\x0f",
        12,
        Sealed {
            data: b"",
            text: b"twenty bytes of text",
            sealed: b"\x64\x65\x66\x67\x68\x69\x6a\x6b\x6c\x6d\x6e\x6f\x3a\x35\x3e\x49\x84\xb5\xf0\x38\x5c\x13\x71\xe8\xec\xfb\x3d\xc2\x11\xe7\xd4\x71",
        },
    ),
    (
        "a vector of 12 bytes, the large key",
        b"\x00\x01\x02\x03\x04\x05\x06\x07\x08\x09\x0a\x0b\x0c\x0d\x0e\x0f\x10\x11\x12\x13\x14\x15\x16\x17\x18\x19\x1a\x1b\x1c\x1d\x1e\x1f",
        12,
        Sealed {
            data: b"",
            text: b"twenty bytes of text",
            sealed: b"\x64\x65\x66\x67\x68\x69\x6a\x6b\x6c\x6d\x6e\x6f\x13\xac\x47\xc4\x27\x35\x69\xb4\x59\xd1\x8e\x0a\x04\x30\x76\x3e\x14\xfe\xad\x7b",
        },
    ),
];

fn answer_row(
    alloc: Global,
    of: &Of,
    key: &[u8],
    sealed: &Sealed,
    asked: &Asked,
) -> Result<bool, TinkError> {
    match of {
        Of::Gcm => does_if_made(alloc, AesGcm::new(alloc, key), sealed, asked),
        Of::GcmSiv => does_if_made(alloc, AesGcmSiv::new(alloc, key), sealed, asked),
    }
}

// Test case 1: a nonce of zeros, and the tag.
const EMPTY: &[u8] =
    b"\x00\x00\x00\x00\x00\x00\x00\x00\x00\x00\x00\x00\x58\xe2\xfc\xce\xfa\x7e\x30\x61\x36\x7f\x1d\x57\xa4\xe7\x45\x5a";

// Whether the empty text is opened without data.
fn opens_empty(alloc: Global) -> Result<bool, TinkError> {
    match AesGcm::new(alloc, &[0; 16]) {
        Ok(aead) => gives(opened_by(&aead, alloc, EMPTY), b""),
        Err(e) => Err(e),
    }
}

const FAILED: Answer = Err(Kind::DecryptFailed);

// What is asked of each vector. Eleven draws are too few, and stay.
const OF_VECTOR: &[(Asked, Answer)] = &[
    (Asked::Encrypt(12, 0), Ok(true)),
    (Asked::Copy, Ok(true)),
    (Asked::Encrypt(11, 11), Err(Kind::RandomFault)),
    (Asked::Decrypt(1, None), FAILED),
    (Asked::Decrypt(0, Some(b"other data")), FAILED),
    (Asked::Open(&[0; 27], b""), Err(Kind::TooShort)),
    (Asked::Open(&[0; 28], b""), FAILED),
    (Asked::Changes(Kind::DecryptFailed), Ok(true)),
];

pub fn ciphertexts_are_those_of_the_specifications(alloc: Global, verdict: &mut Verdict) {
    for (row, of, key, sealed) in VECTORS {
        for (asked, want) in OF_VECTOR {
            verdict.expect(answer_row(alloc, of, key, sealed, asked), *want, row);
        }
    }
    for (row, key, iv_size, sealed) in CTR_VECTORS {
        verdict.expect(applies(alloc, key, *iv_size, sealed), Ok(true), row);
    }
    verdict.expect(opens_empty(alloc), Ok(true), "an empty text");
}

// ---- sizes

// Whether each call that takes a key answers this on it.
fn answers_on_a_key(alloc: Global, key: &[u8], want: Option<Kind>) -> bool {
    let size = kind_of(validate_aes_key_size(key.len()));
    let gcm = kind_of(AesGcm::new(alloc, key));
    let siv = kind_of(AesGcmSiv::new(alloc, key));
    let ctr = kind_of(AesCtr::new(alloc, key, 12));
    size == want && gcm == want && siv == want && ctr == want
}

// What is to be answered on a size.
fn kind_if_bad(is_good: bool, kind: Kind) -> Option<Kind> {
    if is_good { None } else { Some(kind) }
}

// Whether keys and vectors of n bytes are taken or refused.
fn are_taken(alloc: Global, n: usize) -> bool {
    let key = [7u8; 64];
    let vector = kind_of(AesCtr::new(alloc, &[0; 16], n));
    let of_keys = kind_if_bad(n == 16 || n == 32, Kind::BadKeySize);
    let of_vectors = kind_if_bad(n >= 12 && n <= 16, Kind::BadIvSize);
    answers_on_a_key(alloc, &key[..n.min(64)], of_keys) && vector == of_vectors
}

// The size of a cipher's key.
fn key_len(cipher: Result<AesCtr, TinkError>) -> Result<usize, TinkError> {
    match cipher {
        Ok(cipher) => Ok(cipher.key_len()),
        Err(e) => Err(e),
    }
}

// Whether keys have their size, and nonces, vectors, tags and blocks theirs.
fn have_their_sizes(alloc: Global) -> Result<bool, TinkError> {
    let small = key_len(AesCtr::new(alloc, &[0; 16], 12))?;
    let large = key_len(AesCtr::new(alloc, &[0; 32], 16))?;
    let sizes = [
        AES_GCM_IV_SIZE,
        AES_GCM_TAG_SIZE,
        AES_GCM_SIV_NONCE_SIZE,
        AES_GCM_SIV_TAG_SIZE,
        AES_CTR_MIN_IV_SIZE,
        AES_BLOCK_SIZE_IN_BYTES,
    ];
    Ok(small == 16 && large == 32 && sizes == [12, 16, 12, 16, 12, 16])
}

// ---- the size of vectors

// A cipher whose size of vectors was set.
fn cipher_of(alloc: Global, iv_size: usize) -> Result<AesCtr, TinkError> {
    let mut cipher = AesCtr::new(alloc, &[0; 16], 16)?;
    cipher.iv_size = iv_size;
    Ok(cipher)
}

// What is asked of a cipher whose size of vectors was set.
enum AskedOfCtr {
    // To encrypt `abc` by fifteen draws, of which so many are left, to so many bytes.
    Encrypt(usize, usize),
    // To decrypt so many zeros, to so many bytes.
    Decrypt(usize, usize),
}

// Whether there are so many bytes.
fn has_size(answer: Result<Bytes, TinkError>, size: usize) -> Result<bool, TinkError> {
    match answer {
        Ok(bytes) => Ok(bytes.as_slice().len() == size),
        Err(e) => Err(e),
    }
}

fn encrypts_abc(
    alloc: Global,
    cipher: &AesCtr,
    left: usize,
    size: usize,
) -> Result<bool, TinkError> {
    let mut draws = draws_of(alloc, &[1; 15])?;
    let told = has_size(cipher.encrypt(alloc, b"abc", &mut draws), size);
    if draws.left() == left {
        told
    } else {
        Ok(false)
    }
}

fn does(alloc: Global, iv_size: usize, asked: &AskedOfCtr) -> Result<bool, TinkError> {
    let cipher = cipher_of(alloc, iv_size)?;
    match asked {
        AskedOfCtr::Encrypt(left, size) => encrypts_abc(alloc, &cipher, *left, *size),
        AskedOfCtr::Decrypt(n, size) => has_size(
            cipher.decrypt(alloc, &[0; 40][..(*n).min(40)]),
            *size,
        ),
    }
}

const BAD_SIZE: Answer = Err(Kind::BadIvSize);

const IV_SIZES: &[(&str, usize, AskedOfCtr, Answer)] = &[
    (
        "15 draws for vectors of 16",
        16,
        AskedOfCtr::Encrypt(15, 0),
        Err(Kind::RandomFault),
    ),
    (
        "encryption by vectors of 17",
        17,
        AskedOfCtr::Encrypt(15, 0),
        BAD_SIZE,
    ),
    (
        "encryption by vectors of 4",
        4,
        AskedOfCtr::Encrypt(11, 7),
        Ok(true),
    ),
    (
        "15 bytes for vectors of 16",
        16,
        AskedOfCtr::Decrypt(15, 0),
        Err(Kind::TooShort),
    ),
    (
        "16 bytes for vectors of 16",
        16,
        AskedOfCtr::Decrypt(16, 0),
        Ok(true),
    ),
    (
        "decryption by vectors of 17",
        17,
        AskedOfCtr::Decrypt(40, 0),
        BAD_SIZE,
    ),
];

/// Keys and vectors of each size, and a cipher by its size of vectors.
pub fn sizes_are_taken_or_refused(alloc: Global, verdict: &mut Verdict) {
    for n in 0..64usize {
        let taken = are_taken(alloc, n);
        verdict.expect(Ok(taken), Ok(true), "a key and a vector of a size");
    }
    for (row, iv_size, asked, want) in IV_SIZES {
        verdict.expect(does(alloc, *iv_size, asked), *want, row);
    }
    verdict.expect(have_their_sizes(alloc), Ok(true), "the sizes");
}
