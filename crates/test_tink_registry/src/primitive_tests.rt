//! Each conversion of a primitive.

ghost use Rattle.std.specs.Prelude.{◌≡◌, [], Ok};
ghost use Rattle.tink_io.specs.Answering.{Replies};
ghost use Rattle.tink_primitives.specs.Sorts.{as_aead};

use crate::plain::{Plain, Plains};
use std::alloc::Global;
use test_util::{Answer, Ask, Verdict, gives, succeeds};
use tink_io::{Draws, Kind, TinkError};
use tink_primitives::{Aead, CloneIn, Kinds, Primitive};
use tink_proto::Bytes;
use tink_sets::sorts::{
    Aeads, DeterministicAeads, HybridDecrypters, HybridEncrypters, Macs, Prfs, Signers, Sort,
    StreamingAeads, Verifiers,
};

/// Encrypts where the primitive is an AEAD.
fn encrypt_by<K: Kinds>(
    p: Primitive<K>,
    alloc: Global,
    text: &[u8],
    draws: &mut Draws,
) -> Result<Bytes, TinkError>
    ensures { (aead : K.Aead) → as_aead p ≡ Ok aead
        → Replies result (K.Aead.encrypts aead text.now [] draws.old) draws.old draws.new }
{
    match p.into_aead() {
        Ok(aead) => aead.encrypt(alloc, text, &[], draws),
        Err(e) => Err(e),
    }
}

// The nine sorts.
enum Name {
    Aead,
    DeterministicAead,
    HybridDecrypt,
    HybridEncrypt,
    Mac,
    Prf,
    Signer,
    StreamingAead,
    Verifier,
    // As an AEAD that encrypts abc to itself.
    Encrypting,
}

fn primitive(of: &Name) -> Primitive<Plains> {
    match *of {
        Name::Aead | Name::Encrypting => Primitive::Aead(Plain),
        Name::DeterministicAead => Primitive::DeterministicAead(Plain),
        Name::HybridDecrypt => Primitive::HybridDecrypt(Plain),
        Name::HybridEncrypt => Primitive::HybridEncrypt(Plain),
        Name::Mac => Primitive::Mac(Plain),
        Name::Prf => Primitive::Prf(Plain),
        Name::Signer => Primitive::Signer(Plain),
        Name::StreamingAead => Primitive::StreamingAead(Plain),
        Name::Verifier => Primitive::Verifier(Plain),
    }
}

fn picked_by<S: Sort<Plains>>(p: Primitive<Plains>) -> Result<bool, TinkError> {
    succeeds(S::pick(p))
}

// Whether the conversion to a sort hands the primitive out.
fn pick_by_name(alloc: Global, p: Primitive<Plains>, sort: &Name) -> Result<bool, TinkError> {
    match *sort {
        Name::Aead => picked_by::<Aeads>(p),
        Name::DeterministicAead => picked_by::<DeterministicAeads>(p),
        Name::HybridDecrypt => picked_by::<HybridDecrypters>(p),
        Name::HybridEncrypt => picked_by::<HybridEncrypters>(p),
        Name::Mac => picked_by::<Macs>(p),
        Name::Prf => picked_by::<Prfs>(p),
        Name::Signer => picked_by::<Signers>(p),
        Name::StreamingAead => picked_by::<StreamingAeads>(p),
        Name::Verifier => picked_by::<Verifiers>(p),
        Name::Encrypting => gives(
            encrypt_by(p, alloc, b"abc", &mut Draws::new(Vec::new(alloc))),
            b"abc",
        ),
    }
}

fn copy_picked(alloc: Global, p: &Primitive<Plains>, sort: &Name) -> Result<bool, TinkError> {
    match p.try_clone(alloc) {
        Ok(copy) => pick_by_name(alloc, copy, sort),
        Err(e) => Err(e),
    }
}

// A primitive's sort, and the sort that it is asked for as. `true` asks a copy of it.
struct As(Name, Name);

impl Ask<bool> for As {
    fn answer(&self, alloc: Global, of_copy: &mut bool) -> Result<bool, TinkError> {
        if *of_copy {
            copy_picked(alloc, &primitive(&self.0), &self.1)
        } else {
            pick_by_name(alloc, primitive(&self.0), &self.1)
        }
    }
}

const WRONG: Answer = Err(Kind::WrongPrimitive);

// A primitive is handed out as its sort, and refused as another.
const CONVERSIONS: &[(&str, As, Answer)] = &[
    ("AEAD", As(Name::Aead, Name::Aead), Ok(true)),
    (
        "deterministic AEAD",
        As(Name::DeterministicAead, Name::DeterministicAead),
        Ok(true),
    ),
    (
        "hybrid decryption",
        As(Name::HybridDecrypt, Name::HybridDecrypt),
        Ok(true),
    ),
    (
        "hybrid encryption",
        As(Name::HybridEncrypt, Name::HybridEncrypt),
        Ok(true),
    ),
    ("MAC", As(Name::Mac, Name::Mac), Ok(true)),
    ("PRF", As(Name::Prf, Name::Prf), Ok(true)),
    ("signer", As(Name::Signer, Name::Signer), Ok(true)),
    (
        "streaming AEAD",
        As(Name::StreamingAead, Name::StreamingAead),
        Ok(true),
    ),
    ("verifier", As(Name::Verifier, Name::Verifier), Ok(true)),
    (
        "deterministic AEAD as AEAD",
        As(Name::DeterministicAead, Name::Aead),
        WRONG,
    ),
    (
        "AEAD as deterministic AEAD",
        As(Name::Aead, Name::DeterministicAead),
        WRONG,
    ),
    (
        "hybrid encryption as decryption",
        As(Name::HybridEncrypt, Name::HybridDecrypt),
        WRONG,
    ),
    (
        "hybrid decryption as encryption",
        As(Name::HybridDecrypt, Name::HybridEncrypt),
        WRONG,
    ),
    ("PRF as MAC", As(Name::Prf, Name::Mac), WRONG),
    ("MAC as PRF", As(Name::Mac, Name::Prf), WRONG),
    ("MAC as AEAD", As(Name::Mac, Name::Aead), WRONG),
    (
        "verifier as signer",
        As(Name::Verifier, Name::Signer),
        WRONG,
    ),
    (
        "AEAD as streaming AEAD",
        As(Name::Aead, Name::StreamingAead),
        WRONG,
    ),
    (
        "signer as verifier",
        As(Name::Signer, Name::Verifier),
        WRONG,
    ),
    (
        "an AEAD encrypts",
        As(Name::Aead, Name::Encrypting),
        Ok(true),
    ),
    (
        "another sort does not encrypt",
        As(Name::Prf, Name::Encrypting),
        WRONG,
    ),
];

fn conversions(alloc: Global, verdict: &mut Verdict, of_copy: bool) {
    verdict.walk(alloc, of_copy, CONVERSIONS);
}

/// A primitive and its copy.
pub fn rows(alloc: Global, verdict: &mut Verdict) {
    conversions(alloc, verdict, false);
    conversions(alloc, verdict, true);
}
