//! Keysets in JSON: each call once, refusals, short calls and faults.

use crate::stored::{Asked, KEYSET, Reading, Writing};
use tink_io::Kind;

const TEXT: &[u8] = b"{
  \"key\": [
    {
      \"keyData\": {
        \"keyMaterialType\": \"SYMMETRIC\",
        \"typeUrl\": \"type.googleapis.com/google.crypto.tink.AesCtrHmacStreamingKey\",
        \"value\": \"Eg0IgCAQEBgDIgQIAxAgGhAAAQIDBAUGBwgJCgsMDQ4P\"
      },
      \"keyId\": 16909060,
      \"outputPrefixType\": \"RAW\",
      \"status\": \"ENABLED\"
    }
  ],
  \"primaryKeyId\": 16909060
}";

pub const READINGS: &[Reading] = &[
    // The source is at its end after the first, and no bytes are no value.
    Reading {
        bytes: TEXT,
        piece: 31,
        fails: &[],
        rows: &[
            ("a text in pieces", Asked::Keyset(KEYSET), Ok(true)),
            ("no text", Asked::Keyset(b""), Err(Kind::BadJson)),
            ("no encrypted text", Asked::Encrypted, Err(Kind::BadJson)),
        ],
        ends: true,
    },
    Reading {
        bytes: b"{} {}",
        piece: 0,
        fails: &[],
        rows: &[("two texts", Asked::Keyset(b""), Err(Kind::BadJson))],
        ends: true,
    },
    Reading {
        bytes: TEXT,
        piece: 50,
        fails: &[2],
        rows: &[(
            "a fault at the second call",
            Asked::Keyset(b""),
            Err(Kind::ReadFault),
        )],
        ends: false,
    },
];

pub const WRITINGS: &[Writing] = &[
    Writing {
        name: "texts in pieces",
        piece: 31,
        fails: &[],
        encrypted: b"\xff\xfe",
        want: Ok(true),
        first: TEXT,
        size: TEXT.len(),
        other: b"{\n  \"encryptedKeyset\": \"//4=\"\n}",
    },
    Writing {
        name: "a text to a sink that fails at its second call",
        piece: 50,
        fails: &[2],
        encrypted: b"",
        want: Err(Kind::WriteFault),
        first: TEXT,
        size: 50,
        other: b"",
    },
];
