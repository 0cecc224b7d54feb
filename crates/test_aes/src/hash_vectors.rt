//! Vectors of FIPS 180-4 for digests, RFC 2202 and RFC 4231 for HMAC, and RFC 5869 for HKDF.

ghost use Rattle.std.specs.Prelude.{◌≡◌, ◌++◌, take};
ghost use Rattle.hash_keys.specs.Hash.{hmac_of};

use crate::rows;
use crate::rows::Row;
use hash_keys::{Hash, OutputTooLong, hkdf_into, hmac_into};

// A caller's use of `hmac_into`: a tag of 16 bytes over a header and a text.
fn tag_of(key: &[u8], header: &[u8], text: &[u8]) -> [u8; 16]
    ensures { result ≡ take 16 (hmac_of Hash.Sha256 key.now (header.now ++ text.now)) }
{
    let mut tag = [0u8; 16];
    hmac_into(Hash::Sha256, key, header, text, &[], &mut tag);
    tag
}

// Whether the digest begins so.
fn begins(h: Hash, message: &[u8], front: &[u8]) -> bool {
    let mut out = [0u8; 64];
    let digest = &mut out[..h.digest_size()];
    h.hash_into(message, digest);
    digest.starts_with(front)
}

// Whether the whole HMAC of the joined parts is this one.
fn has_hmac(h: Hash, key: &[u8], a: &[u8], b: &[u8], c: &[u8], want: &[u8]) -> bool {
    let mut out = [0u8; 64];
    let tag = &mut out[..h.digest_size()];
    hmac_into(h, key, a, b, c, tag);
    *tag == *want
}

// The same of `LONG_KEYS` under a key of n bytes, at most 131.
fn has_long_hmac(h: Hash, n: usize, want: &[u8]) -> bool {
    has_hmac(h, &[0xaa; 131][..n.min(131)], b"", LONG_KEYS, b"", want)
}

// Whether they are derived.
fn derives(h: Hash, asked: &Derivation) -> bool {
    let mut out = [0u8; 5100];
    let key = &mut out[..asked.3.min(5100)];
    let told = hkdf_into(h, asked.0, asked.1, asked.2, key);
    told.is_ok() && key.ends_with(asked.4)
}

// Whether one byte more is refused, and nothing is written.
fn refuses_more(h: Hash, ikm: &[u8]) -> bool {
    let mut key = [7u8; 5101];
    let told = hkdf_into(h, ikm, SALT, INFO, &mut key);
    told == Err(OutputTooLong) && key == [7; 5101]
}

/// This number of bytes, at most 5,100, of some material, a salt and an info, and the last of them.
pub struct Derivation(
    &'static [u8],
    &'static [u8],
    &'static [u8],
    usize,
    &'static [u8],
);

/// A request to a hash.
pub enum Asked {
    // A digest of `abc` that begins so.
    Digest(&'static [u8]),
    // HMAC of test case 1, and of test case 6 under a key of so many bytes, at most 131.
    ShortKey(&'static [u8]),
    LongKey(usize, &'static [u8]),
    // The front of HMAC of test case 1.
    Tag([u8; 16]),
    Derive(Derivation),
    // More than 255 digests of SHA-1, of some material.
    DeriveMore(&'static [u8]),
}

const LONG_KEYS: &[u8] = b"Test Using Larger Than Block-Size Key - Hash Key First";

/// Whether it does that.
pub fn holds(h: Hash, asked: &Asked) -> bool {
    match asked {
        Asked::Digest(front) => begins(h, b"abc", front),
        Asked::ShortKey(want) => has_hmac(h, &[0x0b; 20], b"Hi", b" ", b"There", want),
        Asked::LongKey(n, want) => has_long_hmac(h, *n, want),
        Asked::Tag(want) => tag_of(&[0x0b; 20], b"Hi ", b"There") == *want,
        Asked::Derive(asked) => derives(h, asked),
        Asked::DeriveMore(ikm) => refuses_more(h, ikm),
    }
}

/// Digests of `abc`.
pub const DIGESTS: &[Row] = &[
    Row(
        "SHA-1",
        rows::Asked::Hash(Hash::Sha1, Asked::Digest(b"\xa9\x99\x3e\x36")),
    ),
    Row(
        "SHA-224",
        rows::Asked::Hash(Hash::Sha224, Asked::Digest(b"\x23\x09\x7d\x22")),
    ),
    Row(
        "SHA-256",
        rows::Asked::Hash(Hash::Sha256, Asked::Digest(b"\xba\x78\x16\xbf")),
    ),
    Row(
        "SHA-384",
        rows::Asked::Hash(Hash::Sha384, Asked::Digest(b"\xcb\x00\x75\x3f")),
    ),
    Row(
        "SHA-512",
        rows::Asked::Hash(Hash::Sha512, Asked::Digest(b"\xdd\xaf\x35\xa1")),
    ),
];

/// Test case 1 of RFC 2202, and of RFC 4231, and test case 6.
pub const TAGS: &[Row] = &[
    Row(
        "HMAC-SHA-1 under a short key",
        rows::Asked::Hash(
            Hash::Sha1,
            Asked::ShortKey(
                b"\xb6\x17\x31\x86\x55\x05\x72\x64\xe2\x8b\xc0\xb6\xfb\x37\x8c\x8e\xf1\x46\xbe\x00",
            ),
        ),
    ),
    Row(
        "HMAC-SHA-224 under a short key",
        rows::Asked::Hash(
            Hash::Sha224,
            Asked::ShortKey(
                b"\x89\x6f\xb1\x12\x8a\xbb\xdf\x19\x68\x32\x10\x7c\xd4\x9d\xf3\x3f\x47\xb4\xb1\x16\x99\x12\xba\x4f\x53\x68\x4b\x22",
            ),
        ),
    ),
    Row(
        "HMAC-SHA-256 under a short key",
        rows::Asked::Hash(
            Hash::Sha256,
            Asked::ShortKey(
                b"\xb0\x34\x4c\x61\xd8\xdb\x38\x53\x5c\xa8\xaf\xce\xaf\x0b\xf1\x2b\x88\x1d\xc2\x00\xc9\x83\x3d\xa7\x26\xe9\x37\x6c\x2e\x32\xcf\xf7",
            ),
        ),
    ),
    Row(
        "HMAC-SHA-384 under a short key",
        rows::Asked::Hash(
            Hash::Sha384,
            Asked::ShortKey(
                b"\xaf\xd0\x39\x44\xd8\x48\x95\x62\x6b\x08\x25\xf4\xab\x46\x90\x7f\x15\xf9\xda\xdb\xe4\x10\x1e\xc6\x82\xaa\x03\x4c\x7c\xeb\xc5\x9c\xfa\xea\x9e\xa9\x07\x6e\xde\x7f\x4a\xf1\x52\xe8\xb2\xfa\x9c\xb6",
            ),
        ),
    ),
    Row(
        "HMAC-SHA-512 under a short key",
        rows::Asked::Hash(
            Hash::Sha512,
            Asked::ShortKey(
                b"\x87\xaa\x7c\xde\xa5\xef\x61\x9d\x4f\xf0\xb4\x24\x1a\x1d\x6c\xb0\x23\x79\xf4\xe2\xce\x4e\xc2\x78\x7a\xd0\xb3\x05\x45\xe1\x7c\xde\xda\xa8\x33\xb7\xd6\xb8\xa7\x02\x03\x8b\x27\x4e\xae\xa3\xf4\xe4\xbe\x9d\x91\x4e\xeb\x61\xf1\x70\x2e\x69\x6c\x20\x3a\x12\x68\x54",
            ),
        ),
    ),
    Row(
        "HMAC-SHA-1 under a long key",
        rows::Asked::Hash(
            Hash::Sha1,
            Asked::LongKey(
                80,
                b"\xaa\x4a\xe5\xe1\x52\x72\xd0\x0e\x95\x70\x56\x37\xce\x8a\x3b\x55\xed\x40\x21\x12",
            ),
        ),
    ),
    Row(
        "HMAC-SHA-224 under a long key",
        rows::Asked::Hash(
            Hash::Sha224,
            Asked::LongKey(
                131,
                b"\x95\xe9\xa0\xdb\x96\x20\x95\xad\xae\xbe\x9b\x2d\x6f\x0d\xbc\xe2\xd4\x99\xf1\x12\xf2\xd2\xb7\x27\x3f\xa6\x87\x0e",
            ),
        ),
    ),
    Row(
        "HMAC-SHA-256 under a long key",
        rows::Asked::Hash(
            Hash::Sha256,
            Asked::LongKey(
                131,
                b"\x60\xe4\x31\x59\x1e\xe0\xb6\x7f\x0d\x8a\x26\xaa\xcb\xf5\xb7\x7f\x8e\x0b\xc6\x21\x37\x28\xc5\x14\x05\x46\x04\x0f\x0e\xe3\x7f\x54",
            ),
        ),
    ),
    Row(
        "HMAC-SHA-384 under a long key",
        rows::Asked::Hash(
            Hash::Sha384,
            Asked::LongKey(
                131,
                b"\x4e\xce\x08\x44\x85\x81\x3e\x90\x88\xd2\xc6\x3a\x04\x1b\xc5\xb4\x4f\x9e\xf1\x01\x2a\x2b\x58\x8f\x3c\xd1\x1f\x05\x03\x3a\xc4\xc6\x0c\x2e\xf6\xab\x40\x30\xfe\x82\x96\x24\x8d\xf1\x63\xf4\x49\x52",
            ),
        ),
    ),
    Row(
        "HMAC-SHA-512 under a long key",
        rows::Asked::Hash(
            Hash::Sha512,
            Asked::LongKey(
                131,
                b"\x80\xb2\x42\x63\xc7\xc1\xa3\xeb\xb7\x14\x93\xc1\xdd\x7b\xe8\xb4\x9b\x46\xd1\xf4\x1b\x4a\xee\xc1\x12\x1b\x01\x37\x83\xf8\xf3\x52\x6b\x56\xd0\x37\xe0\x5f\x25\x98\xbd\x0f\xd2\x21\x5d\x6a\x1e\x52\x95\xe6\x4f\x73\xf6\x3f\x0a\xec\x8b\x91\x5a\x98\x5d\x78\x65\x98",
            ),
        ),
    ),
    Row(
        "the front of HMAC",
        rows::Asked::Hash(
            Hash::Sha256,
            Asked::Tag(*b"\xb0\x34\x4c\x61\xd8\xdb\x38\x53\x5c\xa8\xaf\xce\xaf\x0b\xf1\x2b"),
        ),
    ),
];

const SALT: &[u8] = b"\x00\x01\x02\x03\x04\x05\x06\x07\x08\x09\x0a\x0b\x0c";

const INFO: &[u8] = b"\xf0\xf1\xf2\xf3\xf4\xf5\xf6\xf7\xf8\xf9";

// Test cases 1, 4 and 2 of RFC 5869 (A.1, A.4, A.2). The last digest of 255 is that of Python's hmac module.
pub const KEYS: &[Row] = &[
    Row(
        "HKDF, case 1",
        rows::Asked::Hash(
            Hash::Sha256,
            Asked::Derive(Derivation(
                &[0x0b; 22],
                SALT,
                INFO,
                42,
                b"\x3c\xb2\x5f\x25\xfa\xac\xd5\x7a\x90\x43\x4f\x64\xd0\x36\x2f\x2a\x2d\x2d\x0a\x90\xcf\x1a\x5a\x4c\x5d\xb0\x2d\x56\xec\xc4\xc5\xbf\x34\x00\x72\x08\xd5\xb8\x87\x18\x58\x65",
            )),
        ),
    ),
    Row(
        "HKDF, case 4",
        rows::Asked::Hash(
            Hash::Sha1,
            Asked::Derive(Derivation(
                &[0x0b; 11],
                SALT,
                INFO,
                42,
                b"\x08\x5a\x01\xea\x1b\x10\xf3\x69\x33\x06\x8b\x56\xef\xa5\xad\x81\xa4\xf1\x4b\x82\x2f\x5b\x09\x15\x68\xa9\xcd\xd4\xf1\x55\xfd\xa2\xc2\x2e\x42\x24\x78\xd3\x05\xf3\xf8\x96",
            )),
        ),
    ),
    Row(
        "HKDF, case 2",
        rows::Asked::Hash(
            Hash::Sha256,
            Asked::Derive(Derivation(
                b"\x00\x01\x02\x03\x04\x05\x06\x07\x08\x09\x0a\x0b\x0c\x0d\x0e\x0f\x10\x11\x12\x13\x14\x15\x16\x17\x18\x19\x1a\x1b\x1c\x1d\x1e\x1f\x20\x21\x22\x23\x24\x25\x26\x27\x28\x29\x2a\x2b\x2c\x2d\x2e\x2f\x30\x31\x32\x33\x34\x35\x36\x37\x38\x39\x3a\x3b\x3c\x3d\x3e\x3f\x40\x41\x42\x43\x44\x45\x46\x47\x48\x49\x4a\x4b\x4c\x4d\x4e\x4f",
                b"\x60\x61\x62\x63\x64\x65\x66\x67\x68\x69\x6a\x6b\x6c\x6d\x6e\x6f\x70\x71\x72\x73\x74\x75\x76\x77\x78\x79\x7a\x7b\x7c\x7d\x7e\x7f\x80\x81\x82\x83\x84\x85\x86\x87\x88\x89\x8a\x8b\x8c\x8d\x8e\x8f\x90\x91\x92\x93\x94\x95\x96\x97\x98\x99\x9a\x9b\x9c\x9d\x9e\x9f\xa0\xa1\xa2\xa3\xa4\xa5\xa6\xa7\xa8\xa9\xaa\xab\xac\xad\xae\xaf",
                b"\xb0\xb1\xb2\xb3\xb4\xb5\xb6\xb7\xb8\xb9\xba\xbb\xbc\xbd\xbe\xbf\xc0\xc1\xc2\xc3\xc4\xc5\xc6\xc7\xc8\xc9\xca\xcb\xcc\xcd\xce\xcf\xd0\xd1\xd2\xd3\xd4\xd5\xd6\xd7\xd8\xd9\xda\xdb\xdc\xdd\xde\xdf\xe0\xe1\xe2\xe3\xe4\xe5\xe6\xe7\xe8\xe9\xea\xeb\xec\xed\xee\xef\xf0\xf1\xf2\xf3\xf4\xf5\xf6\xf7\xf8\xf9\xfa\xfb\xfc\xfd\xfe\xff",
                82,
                b"\xb1\x1e\x39\x8d\xc8\x03\x27\xa1\xc8\xe7\xf7\x8c\x59\x6a\x49\x34\x4f\x01\x2e\xda\x2d\x4e\xfa\xd8\xa0\x50\xcc\x4c\x19\xaf\xa9\x7c\x59\x04\x5a\x99\xca\xc7\x82\x72\x71\xcb\x41\xc6\x5e\x59\x0e\x09\xda\x32\x75\x60\x0c\x2f\x09\xb8\x36\x77\x93\xa9\xac\xa3\xdb\x71\xcc\x30\xc5\x81\x79\xec\x3e\x87\xc1\x4c\x01\xd5\xc1\xf3\x43\x4f\x1d\x87",
            )),
        ),
    ),
    Row(
        "no bytes",
        rows::Asked::Hash(
            Hash::Sha1,
            Asked::Derive(Derivation(&[0x0b; 11], SALT, INFO, 0, b"")),
        ),
    ),
    Row(
        "255 digests",
        rows::Asked::Hash(
            Hash::Sha1,
            Asked::Derive(Derivation(
                &[0x0b; 11],
                SALT,
                INFO,
                5100,
                b"\x95\x3c\xc4\x7d\xf6\x76\x10\xd3\xc9\xda\x03\xa2\x85\x4f\x3b\xef\x5a\xff\xfa\x4a",
            )),
        ),
    ),
    Row(
        "one byte more",
        rows::Asked::Hash(Hash::Sha1, Asked::DeriveMore(&[0x0b; 11])),
    ),
];
