//! Keysets in the wire format: each call once, short calls and faults, and a caller's contract.

ghost use Rattle.std.specs.Prelude.{◌≡◌, IfOk, IfSome, Some};
ghost use Rattle.tink_proto.specs.Messages.{keyset as keyset_table};
ghost use Rattle.wire_format.specs.Message.{decoded};

use crate::stored::{Asked, KEYSET, Reading, Writing};
use std::alloc::Global;
use test_util::Verdict;
use tink_io::{Kind, Source, SureSource, TinkError};
use tink_keyset_io::BinaryReader;
use tink_keysets::keyset::Reader;
use tink_proto::Keyset;

pub const READINGS: &[Reading] = &[
    // The source is at its end after the first: a message with no field is a keyset without keys.
    Reading {
        bytes: KEYSET,
        piece: 7,
        fails: &[],
        rows: &[
            ("a keyset in pieces", Asked::Keyset(KEYSET), Ok(true)),
            ("no keys", Asked::Keyset(b""), Ok(true)),
            ("no info", Asked::Encrypted, Ok(true)),
        ],
        ends: true,
    },
    Reading {
        bytes: b"\x08\x84",
        piece: 0,
        fails: &[],
        rows: &[(
            "a keyset that is cut off",
            Asked::Keyset(b""),
            Err(Kind::BadKeyset),
        )],
        ends: true,
    },
    Reading {
        bytes: b"\x12\x05\xaa",
        piece: 0,
        fails: &[],
        rows: &[(
            "an encrypted keyset that is cut off",
            Asked::Encrypted,
            Err(Kind::BadKeyset),
        )],
        ends: true,
    },
    Reading {
        bytes: KEYSET,
        piece: 50,
        fails: &[2],
        rows: &[(
            "a source that fails at its second call",
            Asked::Keyset(b""),
            Err(Kind::ReadFault),
        )],
        ends: false,
    },
];

pub const WRITINGS: &[Writing] = &[
    Writing {
        name: "keysets in pieces",
        piece: 5,
        fails: &[],
        encrypted: b"\xaa\xbb",
        want: Ok(true),
        first: KEYSET,
        size: KEYSET.len(),
        other: b"\x12\x02\xaa\xbb",
    },
    Writing {
        name: "a keyset to a sink that fails at its second call",
        piece: 50,
        fails: &[2],
        encrypted: b"",
        want: Err(Kind::WriteFault),
        first: KEYSET,
        size: 50,
        other: b"",
    },
];

// The keyset that a source has.
#[tactic(auto, using(tink_keyset_io::proofs::ReadingLemmas::gives_message))]
fn keyset_of<S: Source + Drop>(alloc: Global, source: S) -> Result<Keyset, TinkError>
    ensures { IfOk result (λ ks. IfSome (S.left source) (λ text. decoded keyset_table.read text ≡ Some ks)) }
{
    BinaryReader::new(source).read(alloc)
}

// Whether a source of so many zeros and then these bytes gives a keyset of one key, with its primary id.
fn gives_keyset(alloc: Global, zeros: usize, bytes: &[u8]) -> Result<bool, TinkError> {
    let mut text = vec![in alloc; 0u8; zeros]?;
    text.extend_from_slice(bytes)?;
    match keyset_of(alloc, SureSource::new(text)) {
        Ok(ks) => Ok(ks.primary_key_id == 0x01020304 && ks.key.as_slice().len() == 1),
        Err(e) => Err(e),
    }
}

pub fn a_source_gives_its_keyset_and_no_more_than_67108864_bytes(
    alloc: Global,
    verdict: &mut Verdict,
) {
    let keyset = gives_keyset(alloc, 0, KEYSET);
    verdict.expect(keyset, Ok(true), "the keyset");
    let more = gives_keyset(alloc, 67_108_865, b"");
    verdict.expect(more, Err(Kind::KeysetTooLong), "a byte more");
}
