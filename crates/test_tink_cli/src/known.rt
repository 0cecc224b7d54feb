//! Bytes that are known: files of keys, a text, its streams and its token. Keysets are in the wire format.

/// A keyset of one AES-GCM key without a prefix, of the id YYYY.
pub const KEYS: &[u8] = b"\
    \x08\xd9\xb2\xe5\xca\x05\x12T\nH\n0type.googleapis.com/google.crypto.tink.AesGcmKey\x12\x12\x1a\x10fedcba98765\
    43210\x18\x01\x10\x01\x18\xd9\xb2\xe5\xca\x05 \x03";

/// It in JSON, by Python's `json`.
pub const KEYS_JSON: &[u8] = b"\
    {\n  \"key\": [\n    {\n      \"keyData\": {\n        \"keyMaterialType\": \"SYMMETRIC\",\n        \"typeUrl\"\
    : \"type.googleapis.com/google.crypto.tink.AesGcmKey\",\n        \"value\": \"GhBmZWRjYmE5ODc2NTQzMjEw\"\n    \
    \x20 },\n      \"keyId\": 1499027801,\n      \"outputPrefixType\": \"RAW\",\n      \"status\": \"ENABLED\"\n  \
    \x20 }\n  ],\n  \"primaryKeyId\": 1499027801\n}";

/// It with a new primary key of the id ZZZZ.
pub const ROTATED: &[u8] = b"\
    \x08\xda\xb4\xe9\xd2\x05\x12T\nH\n0type.googleapis.com/google.crypto.tink.AesGcmKey\x12\x12\x1a\x10fedcba98765\
    43210\x18\x01\x10\x01\x18\xd9\xb2\xe5\xca\x05 \x03\x12T\nH\n0type.googleapis.com/google.crypto.tink.AesGcmKey\
    \x12\x12\x1a\x100123456789abcdef\x18\x01\x10\x01\x18\xda\xb4\xe9\xd2\x05 \x01";

/// The same with the first one as the primary key.
pub const PROMOTED: &[u8] = b"\
    \x08\xd9\xb2\xe5\xca\x05\x12T\nH\n0type.googleapis.com/google.crypto.tink.AesGcmKey\x12\x12\x1a\x10fedcba98765\
    43210\x18\x01\x10\x01\x18\xd9\xb2\xe5\xca\x05 \x03\x12T\nH\n0type.googleapis.com/google.crypto.tink.AesGcmKey\
    \x12\x12\x1a\x100123456789abcdef\x18\x01\x10\x01\x18\xda\xb4\xe9\xd2\x05 \x01";

/// The rotated one with the first key disabled.
pub const DISABLED: &[u8] = b"\
    \x08\xda\xb4\xe9\xd2\x05\x12T\nH\n0type.googleapis.com/google.crypto.tink.AesGcmKey\x12\x12\x1a\x10fedcba98765\
    43210\x18\x01\x10\x02\x18\xd9\xb2\xe5\xca\x05 \x03\x12T\nH\n0type.googleapis.com/google.crypto.tink.AesGcmKey\
    \x12\x12\x1a\x100123456789abcdef\x18\x01\x10\x01\x18\xda\xb4\xe9\xd2\x05 \x01";

/// The rotated one with the first key destroyed.
pub const DESTROYED: &[u8] = b"\
    \x08\xda\xb4\xe9\xd2\x05\x12\n\x10\x03\x18\xd9\xb2\xe5\xca\x05 \x03\x12T\nH\n0type.googleapis.com/google.crypt\
    o.tink.AesGcmKey\x12\x12\x1a\x100123456789abcdef\x18\x01\x10\x01\x18\xda\xb4\xe9\xd2\x05 \x01";

/// The rotated one without the first key.
pub const DELETED: &[u8] = b"\
    \x08\xda\xb4\xe9\xd2\x05\x12T\nH\n0type.googleapis.com/google.crypto.tink.AesGcmKey\x12\x12\x1a\x100123456789a\
    bcdef\x18\x01\x10\x01\x18\xda\xb4\xe9\xd2\x05 \x01";

/// A master keyset: an AES-GCM key of the id MMMM, under TINK.
pub const MASTER: &[u8] = b"\
    \x08\xcd\x9a\xb5\xea\x04\x12T\nH\n0type.googleapis.com/google.crypto.tink.AesGcmKey\x12\x12\x1a\x100123456789a\
    bcdef\x18\x01\x10\x01\x18\xcd\x9a\xb5\xea\x04 \x01";

/// The keyset under the master with the data `data` and the nonce `twelve bytes`, by Python's `cryptography`.
pub const WRAPPED: &[u8] = b"\
    \x12}\x01MMMMtwelve bytesv;\xcf\xadt\x02FaDX7\xf3\xc1\x00\xbc\xed\x05g\x0e\xbdl\xaf76`\xa4\x8d\x1f\x0d\x1c\xaa\
    \xcfYg\x81vo\x85\xce\x17Oo\x95t\xb2\x95\xfa\xa8\x9d\"\x0d\xc1\xec\x9f\xb0J\x92<\xd3=\xfb]\xa2\xa0\x88Dz\xf6 \
    \x89\xaa\xfb'^\x91{\x03\xc7\xbe\xc9\xe5S\x9e\x0f\xe0\x91\x01\x84{\xa3\xed\x04\xc4\x19\x83\xbb\x8f\x98\xb7?\x18\
    \xf4K\xaeQu\x94\xe6\x1aD\x08\xd9\xb2\xe5\xca\x05\x12<\n0type.googleapis.com/google.crypto.tink.AesGcmKey\x10\
    \x01\x18\xd9\xb2\xe5\xca\x05 \x03";

/// A key of HMAC-SHA256 with the id 7, a prefix and tags of 16.
pub const MACS: &[u8] = b"\
    \x08\x07\x12T\nL\n.type.googleapis.com/google.crypto.tink.HmacKey\x12\x18\x12\x04\x08\x03\x10\x10\x1a\x10 !\"#\
    $%&'()*+,-./\x18\x01\x10\x01\x18\x07 \x01";

/// A text.
pub const TEXT: &[u8] = b"a text of two chunks";

/// Its first nine bytes.
pub const NINE: &[u8] = b"a text of";

/// Its stream under `CTR_35` with the data `May` and random bytes that count up, by an independent model.
pub const SEALED: &[u8] = b"\
    \x18\x00\x01\x02\x03\x04\x05\x06\x07\x08\x09\n\x0b\x0c\x0d\x0e\x0f\x10\x11\x12\x13\x14\x15\x16\x09\xe12\x9e\
    \xa6\x90\x9f\xed)\xb3\xec\x903\xbf\x03\x9e\xf1\xe9G\xc6\xd8\xf8\xf7E\xf4\xaa\xa1/k2F\x13\xe6'\x1b\x84\x1c\x02\
    \x89/";

/// Its stream under `GCM_41` with the data `June` and the same random bytes.
pub const MOVED: &[u8] = b"\
    \x18\x00\x01\x02\x03\x04\x05\x06\x07\x08\x09\n\x0b\x0c\x0d\x0e\x0f\x10\x11\x12\x13\x14\x15\x16\xc3\x1bY\x1d\
    \xc9\x802\x0d\x93\xeb\xe2K\x1a\xafS^\xbdZ\"\xe1N\xa2\xc4\x08\xd0\xb3U\n}\xf97_\x9a\xe7\xa5\x02\xb8yU~\xed\xd4\
    \xefR\x08\xd0\x88\x9cZ=\x9d\x8d";

/// Its token under the MACs.
pub const TOKEN: &[u8] = b"YSB0ZXh0IG9mIHR3byBjaHVua3M.AQAAAAcCk2wVHG1hBYbQ3VD2ex4O";
