//! Segments of both kinds that Python made, and segments in the place of their texts.

ghost use Rattle.std.specs.Prelude.{◌≡◌, ◌≤◌, length};
ghost use Rattle.tink_streaming_ciphers.specs.SegmentKeys.{overhead_under};
ghost use Rattle.tink_streaming_ciphers.specs.StreamSegments.{nonce_length_by};

use crate::segment_callers::{segment_by, segment_by_gcm};
use hash_keys::Hash;
use std::alloc::Global;
use test_util::{Answer, Ask, Verdict};
use tink_io::{Kind, TinkError};
use tink_proto::Bytes;
use tink_streaming_ciphers::{CtrHmacSegment, GcmSegment, StreamSegment};
use tink_streaming_segment::{SegmentDecrypter, SegmentEncrypter};

const TEXT: &[u8; 38] = b"a text of more than two blocks, by ten";

const NONCE: &[u8; 16] = b"\x01\x02\x03\x04\x05\x06\x07\x08\x09\x0a\x0b\x0c\x0d\x0e\x0f\x10";

const ONES: &[u8; 16] = &[1; 16];

const SMALL_KEY: &[u8; 16] = b"\x00\x01\x02\x03\x04\x05\x06\x07\x08\x09\x0a\x0b\x0c\x0d\x0e\x0f";

const LARGE_KEY: &[u8; 32] =
    b"\x00\x01\x02\x03\x04\x05\x06\x07\x08\x09\x0a\x0b\x0c\x0d\x0e\x0f\x10\x11\x12\x13\x14\x15\x16\x17\x18\x19\x1a\x1b\x1c\x1d\x1e\x1f";

// The text's segment by GCM under the small key, and under the large one.
const SMALL: &[u8; 54] =
    b"\x67\x25\x1c\x43\x4b\x81\x7f\xaa\x5e\x7c\x60\x2a\xdf\xbd\x4d\x41\xa9\xaa\x89\x7d\x9a\xd6\x83\x4c\x3f\xc9\x54\x34\x8f\xfa\x40\x7c\xa7\x1e\xb1\x33\x08\xfd\x35\xaa\x32\xc7\x55\x3d\x9e\x2b\x69\x33\x9a\x20\x28\xb9\x18\x02";

const LARGE: &[u8; 54] =
    b"\x64\xca\x2e\xb0\x94\xe0\xd0\xe9\x2a\x82\x0e\x28\x62\x76\xca\x5c\x2a\x22\x8f\xde\xe3\x1a\x3f\xe5\xc3\x33\x96\x47\xf5\xc5\x5a\xe5\xe6\x9d\xbb\xab\x0b\xdb\x6d\x06\xb4\x6f\xd9\xe9\x97\xc7\xe0\x45\x19\xb1\xb0\xeb\x08\x99";

// The empty text's segment under the small key.
const EMPTY: &[u8; 16] = b"\x93\xe3\xcc\x75\x25\x12\x1b\x93\x4e\xf6\x08\xc1\x53\x7c\x11\x59";

// Keys of AES-256 and of HMAC.
const AES_KEY: &[u8; 32] =
    b"\x73\x7e\x1e\x2c\x6b\x2f\xbe\x48\x16\xaa\xf1\x0a\xd5\x53\xbe\xf2\x29\x89\x55\x4b\x44\x2f\xd5\xec\x6e\xb0\xf0\xb1\xcf\xdc\x77\xe5";

const HMAC_KEY: &[u8; 32] =
    b"\x79\x8a\x69\x56\xb0\x0d\xc2\x32\x2a\x12\xb0\xe2\x17\xab\xae\xa8\x5b\x69\x33\x6a\x33\x4d\x8d\xb2\x8a\x11\xed\x70\xa5\xc0\xa8\x1c";

// The text's segment in counter mode under them, with the first 20 bytes of HMAC with SHA-512.
const SHA512: &[u8; 58] =
    b"\xbf\xcf\x0c\x76\x9b\x15\x47\xaa\x31\xdb\x6c\x99\x62\x11\xbc\xde\x5e\x01\xfc\xdc\x41\x46\x3e\x79\xab\x70\x15\x4d\xe4\x5d\xd9\xd1\xfb\x98\x33\xbb\xa3\x25\x77\x1a\x46\xee\x35\xbf\xc0\x34\x72\x09\xc7\x5b\xbc\xc0\x12\xff\x58\xdb\x60\x0f";

// The text's segment in counter mode under the small key, which is the nonce too, with the first 12 bytes of HMAC with
// SHA-256 under the large key.
const SHA256: &[u8; 50] =
    b"\x6b\xb4\x7f\xd0\x39\x1a\xd0\x2a\x97\xe3\xf9\x37\xb4\x36\xca\x2e\x6a\x02\x82\xb4\x12\x6f\x1d\xb6\xf8\xb6\x92\x6c\x20\xd7\x23\xfc\x78\x54\xb4\xc7\x74\x72\x9c\x3a\x33\xd2\x5c\x18\x47\x98\xeb\x5f\x11\xea";

fn sha512() -> CtrHmacSegment
    ensures { overhead_under result ≡ 20 }
{
    CtrHmacSegment::new(AES_KEY, HMAC_KEY, Hash::Sha512, 20)
}

fn sha256() -> CtrHmacSegment
    ensures { overhead_under result ≡ 12 }
{
    CtrHmacSegment::new(SMALL_KEY, LARGE_KEY, Hash::Sha256, 12)
}

// Segments by either cipher as the kind of both.
fn gcm_kind() -> StreamSegment
    ensures { nonce_length_by result ≡ 12 }
{
    StreamSegment::Gcm(GcmSegment::new(LARGE_KEY))
}

fn ctr_hmac_kind() -> StreamSegment
    ensures { nonce_length_by result ≡ 16 }
{
    StreamSegment::CtrHmac(sha256())
}

// The cipher of a row.
enum By {
    Small,
    Large,
    Sha512,
    Sha256,
}

// One that makes memory for what it answers: GCM under the small key, or one of both kinds.
enum Own {
    Small,
    GcmKind,
    CtrHmacKind,
}

// What is asked of a cipher.
enum Asked {
    // that it makes of a text this segment
    Makes(By, &'static [u8], &'static [u8]),
    // that it opens a segment under a nonce to this text
    Opens(By, &'static [u8; 16], &'static [u8], &'static [u8]),
    // that in memory of its own it makes of the text this segment, and that it opens it
    MakesOwn(Own, &'static [u8]),
    OpensOwn(Own),
    // that the segment of so many bytes of text is the same where it is made in the text's place
    GcmInPlace(usize),
    CtrHmacInPlace(usize),
    // that the segments of the kind of GCM are longer by so many bytes, as the sealing and as the opening side tell it
    Overhead(usize),
}

// Whether a text has this segment.
fn makes<E: SegmentEncrypter>(cipher: &E, nonce: &[u8], text: &[u8], want: &[u8]) -> bool
    requires nonce { length nonce.now ≡ E.nonce_length cipher.now }
    requires overhead { E.overhead_of cipher.now ≤ 20 }
{
    let text = &text[..text.len().min(38)];
    let mut out = [0u8; 58];
    let segment = &mut out[..text.len() + cipher.overhead()];
    cipher.encrypt_segment_into(text, nonce, segment);
    &*segment == want
}

// Whether a segment has this text, or why it is refused, where nothing is written.
fn opens<D: SegmentDecrypter>(
    cipher: &D,
    nonce: &[u8],
    segment: &[u8],
    want: &[u8],
) -> Result<bool, TinkError>
    requires nonce { length nonce.now ≡ D.nonce_length cipher.now }
{
    let segment = &segment[..segment.len().min(58)];
    let n = segment.len().saturating_sub(cipher.overhead());
    let mut out = [7u8; 58];
    let text = &mut out[..n];
    match cipher.decrypt_segment_into(segment, nonce, text) {
        Ok(()) => Ok(&*text == want),
        Err(e) if out == [7; 58] => Err(e),
        Err(_) => Ok(false),
    }
}

fn made_by(by: &By, text: &[u8], want: &[u8]) -> bool {
    match *by {
        By::Small => makes(&GcmSegment::new(SMALL_KEY), &NONCE[..12], text, want),
        By::Large => makes(&GcmSegment::new(LARGE_KEY), &NONCE[..12], text, want),
        By::Sha512 => makes(&sha512(), NONCE, text, want),
        By::Sha256 => makes(&sha256(), SMALL_KEY, text, want),
    }
}

fn opened_by(by: &By, nonce: &[u8; 16], segment: &[u8], want: &[u8]) -> Result<bool, TinkError> {
    match *by {
        By::Small => opens(&GcmSegment::new(SMALL_KEY), &nonce[..12], segment, want),
        By::Large => opens(&GcmSegment::new(LARGE_KEY), &nonce[..12], segment, want),
        By::Sha512 => opens(&sha512(), nonce, segment, want),
        By::Sha256 => opens(&sha256(), nonce, segment, want),
    }
}

fn own_segment(alloc: Global, own: &Own) -> Result<Bytes, TinkError> {
    match *own {
        Own::Small => segment_by_gcm(
            alloc,
            SMALL_KEY,
            &[1, 2, 3, 4, 5, 6, 7, 8, 9, 10, 11, 12],
            TEXT,
        ),
        Own::GcmKind => segment_by(alloc, &gcm_kind(), &NONCE[..12], TEXT),
        Own::CtrHmacKind => segment_by(alloc, &ctr_hmac_kind(), SMALL_KEY, TEXT),
    }
}

fn own_text(alloc: Global, own: &Own) -> Result<Bytes, TinkError> {
    match *own {
        Own::Small => GcmSegment::new(SMALL_KEY).decrypt_segment(alloc, SMALL, &NONCE[..12]),
        Own::GcmKind => gcm_kind().decrypt_segment(alloc, LARGE, &NONCE[..12]),
        Own::CtrHmacKind => ctr_hmac_kind().decrypt_segment(alloc, SHA256, SMALL_KEY),
    }
}

// Whether what came in memory of its own is this.
fn is(told: Result<Bytes, TinkError>, want: &[u8]) -> Result<bool, TinkError> {
    match told {
        Ok(bytes) => Ok(bytes.as_slice() == want),
        Err(e) => Err(e),
    }
}

// Whether the segment of a text is the same where it is made in the text's place, whatever stands behind the text.
fn are_same<E: SegmentEncrypter>(
    cipher: &E,
    nonce: &[u8],
    text: &[u8],
    want: &mut [u8; 320],
    got: &mut [u8; 320],
) -> bool
    requires nonce { length nonce.now ≡ E.nonce_length cipher.now }
    requires overhead { E.overhead_of cipher.now ≤ 20 }
    requires text { length text.now ≤ 300 }
{
    let size = text.len() + cipher.overhead();
    let want = &mut want[..size];
    let got = &mut got[..size];
    cipher.encrypt_segment_into(text, nonce, want);
    got[..text.len()].copy_from_slice(text);
    cipher.encrypt_segment_in_place(got, nonce);
    *got == *want
}

// Whether it is for a text of so many bytes.
fn is_same_in_place<E: SegmentEncrypter>(cipher: &E, nonce: &[u8], n: usize) -> bool
    requires nonce { length nonce.now ≡ E.nonce_length cipher.now }
    requires overhead { E.overhead_of cipher.now ≤ 20 }
{
    let mut text = [0u8; 300];
    for i in 0..300 {
        text[i] = (i % 251) as u8;
    }
    let text = &text[..n.min(300)];
    are_same(cipher, nonce, text, &mut [0; 320], &mut [0xa5; 320])
}

fn has_overhead(cipher: StreamSegment, want: usize) -> bool {
    SegmentEncrypter::overhead(&cipher) == want && SegmentDecrypter::overhead(&cipher) == want
}

impl Ask<()> for Asked {
    fn answer(&self, alloc: Global, _of: &mut ()) -> Result<bool, TinkError> {
        match *self {
            Asked::Makes(ref by, text, want) => Ok(made_by(by, text, want)),
            Asked::Opens(ref by, nonce, segment, want) => opened_by(by, nonce, segment, want),
            Asked::MakesOwn(ref own, want) => is(own_segment(alloc, own), want),
            Asked::OpensOwn(ref own) => is(own_text(alloc, own), TEXT),
            Asked::GcmInPlace(n) => {
                Ok(is_same_in_place(&GcmSegment::new(SMALL_KEY), &NONCE[..12], n))
            }
            Asked::CtrHmacInPlace(n) => Ok(is_same_in_place(&sha256(), SMALL_KEY, n)),
            Asked::Overhead(n) => Ok(has_overhead(gcm_kind(), n)),
        }
    }
}

const REFUSED: Answer = Err(Kind::DecryptFailed);

const GCM_ROWS: &[(&str, Asked, Answer)] = &[
    ("small key", Asked::Makes(By::Small, TEXT, SMALL), Ok(true)),
    (
        "small key, opened",
        Asked::Opens(By::Small, NONCE, SMALL, TEXT),
        Ok(true),
    ),
    ("large key", Asked::Makes(By::Large, TEXT, LARGE), Ok(true)),
    (
        "large key, opened",
        Asked::Opens(By::Large, NONCE, LARGE, TEXT),
        Ok(true),
    ),
    // the empty text has a tag
    ("empty", Asked::Makes(By::Small, b"", EMPTY), Ok(true)),
    (
        "empty, opened",
        Asked::Opens(By::Small, NONCE, EMPTY, b""),
        Ok(true),
    ),
    // a byte is changed
    (
        "by GCM, byte 0",
        Asked::Opens(
            By::Large,
            NONCE,
            b"\x65\xca\x2e\xb0\x94\xe0\xd0\xe9\x2a\x82\x0e\x28\x62\x76\xca\x5c\x2a\x22\x8f\xde\xe3\x1a\x3f\xe5\xc3\x33\x96\x47\xf5\xc5\x5a\xe5\xe6\x9d\xbb\xab\x0b\xdb\x6d\x06\xb4\x6f\xd9\xe9\x97\xc7\xe0\x45\x19\xb1\xb0\xeb\x08\x99",
            TEXT,
        ),
        REFUSED,
    ),
    (
        "by GCM, byte 37",
        Asked::Opens(
            By::Large,
            NONCE,
            b"\x64\xca\x2e\xb0\x94\xe0\xd0\xe9\x2a\x82\x0e\x28\x62\x76\xca\x5c\x2a\x22\x8f\xde\xe3\x1a\x3f\xe5\xc3\x33\x96\x47\xf5\xc5\x5a\xe5\xe6\x9d\xbb\xab\x0b\xda\x6d\x06\xb4\x6f\xd9\xe9\x97\xc7\xe0\x45\x19\xb1\xb0\xeb\x08\x99",
            TEXT,
        ),
        REFUSED,
    ),
    (
        "by GCM, byte 38",
        Asked::Opens(
            By::Large,
            NONCE,
            b"\x64\xca\x2e\xb0\x94\xe0\xd0\xe9\x2a\x82\x0e\x28\x62\x76\xca\x5c\x2a\x22\x8f\xde\xe3\x1a\x3f\xe5\xc3\x33\x96\x47\xf5\xc5\x5a\xe5\xe6\x9d\xbb\xab\x0b\xdb\x6c\x06\xb4\x6f\xd9\xe9\x97\xc7\xe0\x45\x19\xb1\xb0\xeb\x08\x99",
            TEXT,
        ),
        REFUSED,
    ),
    (
        "by GCM, byte 53",
        Asked::Opens(
            By::Large,
            NONCE,
            b"\x64\xca\x2e\xb0\x94\xe0\xd0\xe9\x2a\x82\x0e\x28\x62\x76\xca\x5c\x2a\x22\x8f\xde\xe3\x1a\x3f\xe5\xc3\x33\x96\x47\xf5\xc5\x5a\xe5\xe6\x9d\xbb\xab\x0b\xdb\x6d\x06\xb4\x6f\xd9\xe9\x97\xc7\xe0\x45\x19\xb1\xb0\xeb\x08\x98",
            TEXT,
        ),
        REFUSED,
    ),
    (
        "another nonce",
        Asked::Opens(By::Large, ONES, LARGE, TEXT),
        REFUSED,
    ),
    (
        "the segment of another key",
        Asked::Opens(By::Large, NONCE, SMALL, TEXT),
        REFUSED,
    ),
    (
        "15 bytes",
        Asked::Opens(
            By::Small,
            NONCE,
            b"\x93\xe3\xcc\x75\x25\x12\x1b\x93\x4e\xf6\x08\xc1\x53\x7c\x11",
            b"",
        ),
        REFUSED,
    ),
];

// In counter mode.
const CTR_HMAC_ROWS: &[(&str, Asked, Answer)] = &[
    ("SHA-512", Asked::Makes(By::Sha512, TEXT, SHA512), Ok(true)),
    (
        "SHA-512, opened",
        Asked::Opens(By::Sha512, NONCE, SHA512, TEXT),
        Ok(true),
    ),
    ("SHA-256", Asked::Makes(By::Sha256, TEXT, SHA256), Ok(true)),
    (
        "SHA-256, opened",
        Asked::Opens(By::Sha256, SMALL_KEY, SHA256, TEXT),
        Ok(true),
    ),
    (
        "in counter mode, byte 0",
        Asked::Opens(
            By::Sha512,
            NONCE,
            b"\xbe\xcf\x0c\x76\x9b\x15\x47\xaa\x31\xdb\x6c\x99\x62\x11\xbc\xde\x5e\x01\xfc\xdc\x41\x46\x3e\x79\xab\x70\x15\x4d\xe4\x5d\xd9\xd1\xfb\x98\x33\xbb\xa3\x25\x77\x1a\x46\xee\x35\xbf\xc0\x34\x72\x09\xc7\x5b\xbc\xc0\x12\xff\x58\xdb\x60\x0f",
            TEXT,
        ),
        REFUSED,
    ),
    (
        "in counter mode, byte 38",
        Asked::Opens(
            By::Sha512,
            NONCE,
            b"\xbf\xcf\x0c\x76\x9b\x15\x47\xaa\x31\xdb\x6c\x99\x62\x11\xbc\xde\x5e\x01\xfc\xdc\x41\x46\x3e\x79\xab\x70\x15\x4d\xe4\x5d\xd9\xd1\xfb\x98\x33\xbb\xa3\x25\x76\x1a\x46\xee\x35\xbf\xc0\x34\x72\x09\xc7\x5b\xbc\xc0\x12\xff\x58\xdb\x60\x0f",
            TEXT,
        ),
        REFUSED,
    ),
    (
        "in counter mode, byte 57",
        Asked::Opens(
            By::Sha512,
            NONCE,
            b"\xbf\xcf\x0c\x76\x9b\x15\x47\xaa\x31\xdb\x6c\x99\x62\x11\xbc\xde\x5e\x01\xfc\xdc\x41\x46\x3e\x79\xab\x70\x15\x4d\xe4\x5d\xd9\xd1\xfb\x98\x33\xbb\xa3\x25\x77\x1a\x46\xee\x35\xbf\xc0\x34\x72\x09\xc7\x5b\xbc\xc0\x12\xff\x58\xdb\x60\x0e",
            TEXT,
        ),
        REFUSED,
    ),
    (
        "19 bytes",
        Asked::Opens(
            By::Sha512,
            NONCE,
            b"\xbf\xcf\x0c\x76\x9b\x15\x47\xaa\x31\xdb\x6c\x99\x62\x11\xbc\xde\x5e\x01\xfc",
            b"",
        ),
        REFUSED,
    ),
];

// In memory of its own, and in the text's place.
const OWN_ROWS: &[(&str, Asked, Answer)] = &[
    ("own", Asked::MakesOwn(Own::Small, SMALL), Ok(true)),
    ("own, opened", Asked::OpensOwn(Own::Small), Ok(true)),
    (
        "kind of GCM",
        Asked::MakesOwn(Own::GcmKind, LARGE),
        Ok(true),
    ),
    (
        "kind of GCM, opened",
        Asked::OpensOwn(Own::GcmKind),
        Ok(true),
    ),
    (
        "kind of counter mode",
        Asked::MakesOwn(Own::CtrHmacKind, SHA256),
        Ok(true),
    ),
    (
        "kind of counter mode, opened",
        Asked::OpensOwn(Own::CtrHmacKind),
        Ok(true),
    ),
    ("overhead", Asked::Overhead(16), Ok(true)),
    // no bytes, a part of a block, whole blocks, and many
    ("GCM in place, 0", Asked::GcmInPlace(0), Ok(true)),
    ("GCM in place, 1", Asked::GcmInPlace(1), Ok(true)),
    ("GCM in place, 15", Asked::GcmInPlace(15), Ok(true)),
    ("GCM in place, 16", Asked::GcmInPlace(16), Ok(true)),
    ("GCM in place, 17", Asked::GcmInPlace(17), Ok(true)),
    ("GCM in place, 300", Asked::GcmInPlace(300), Ok(true)),
    (
        "counter mode in place, 0",
        Asked::CtrHmacInPlace(0),
        Ok(true),
    ),
    (
        "counter mode in place, 1",
        Asked::CtrHmacInPlace(1),
        Ok(true),
    ),
    (
        "counter mode in place, 15",
        Asked::CtrHmacInPlace(15),
        Ok(true),
    ),
    (
        "counter mode in place, 16",
        Asked::CtrHmacInPlace(16),
        Ok(true),
    ),
    (
        "counter mode in place, 17",
        Asked::CtrHmacInPlace(17),
        Ok(true),
    ),
    (
        "counter mode in place, 300",
        Asked::CtrHmacInPlace(300),
        Ok(true),
    ),
];

pub fn segments_are_made_and_opened_by_gcm(alloc: Global, verdict: &mut Verdict) {
    verdict.walk(alloc, (), GCM_ROWS);
}

pub fn segments_are_made_and_opened_in_counter_mode(alloc: Global, verdict: &mut Verdict) {
    verdict.walk(alloc, (), CTR_HMAC_ROWS);
}

pub fn segments_are_made_in_memory_and_in_place(alloc: Global, verdict: &mut Verdict) {
    verdict.walk(alloc, (), OWN_ROWS);
}
