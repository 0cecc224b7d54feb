//! Which entry of a set answers, and which handles give a set of one sort.

ghost use Rattle.std.specs.Prelude.{◌≡◌, true, is_some, IfOk, Err};
ghost use Rattle.tink_sets.specs.Accepting.{accepted};
ghost use Rattle.tink_io.specs.declared.error.Kind.TheVariants.{DecryptFailed, MacMismatch};
ghost use Rattle.tink_io.specs.Answering.{Answers};
ghost use Rattle.tink_sets.specs.Groups.{group_of};
ghost use Rattle.test_tink_factory.specs.TestKeys as test_keys;

use crate::building_tests::{KeyRow, handle, manager};
use std::alloc::Global;
use test_util::{
    Answer, TestAead, TestKinds, TestManager, URL, Verdict, enabled_key, registry_of, succeeds,
};
use tink_io::{Kind, TinkError};
use tink_keysets::factory::{Question, ask_behind_prefix, ask_entries, typed_primitives};
use tink_keysets::keyset::Handle;
use tink_primitives::{Kinds, Primitive};
use tink_proto::{Bytes, OutputPrefixType};
use tink_registry::{KeyManager, Registry};
use tink_sets::sorts::{Aeads, Macs};
use tink_sets::{PrimitiveSet, TypedEntry, TypedPrimitiveSet};

// The id of the entry whose key is the input.
struct Holds;

impl Question<TestAead> for Holds {
    type Answer = u32;

    ghost answers = { λ _ e input. test_keys.held e.primitive.key e.key_id input };

    fn ask(
        &self,
        _alloc: Global,
        entry: &TypedEntry<TestAead>,
        input: &[u8],
    ) -> Result<u32, TinkError> {
        if entry.primitive.key.as_slice() == input {
            Ok(entry.key_id)
        } else {
            Err(TinkError::new(Kind::DecryptFailed))
        }
    }

    ghost answers_told = { λ _ e input. test_keys.held_told e.primitive.key e.key_id input };
}

// For which there is never memory.
struct Starved;

impl Question<TestAead> for Starved {
    type Answer = u32;

    ghost answers = { λ _ _ _. Err MacMismatch };

    fn ask(
        &self,
        _alloc: Global,
        _entry: &TypedEntry<TestAead>,
        _input: &[u8],
    ) -> Result<u32, TinkError> {
        Err(TinkError::new(Kind::OutOfMemory))
    }

    ghost answers_told = { λ _ _ _. tt };
}

/// The MACs of a handle.
fn macs_of<M: KeyManager>(
    alloc: Global,
    h: &Handle,
    registry: &Registry<M>,
) -> Result<TypedPrimitiveSet<<M::Family as Kinds>::Mac>, TinkError>
    ensures { IfOk result (λ set. is_some set.primary ≡ true) }
{
    typed_primitives::<M, Macs>(alloc, h, registry)
}

fn put(
    alloc: Global,
    set: &mut PrimitiveSet<TestKinds>,
    prefix: OutputPrefixType,
    id: u32,
    held: &[u8],
) -> Result<(), TinkError> {
    let of = enabled_key(alloc, URL, held, prefix, id)?;
    let key = Bytes::from_slice(alloc, held)?;
    set.put(alloc, Primitive::Aead(TestAead { key }), &of)
}

// The entries of ids 7 and 9 with a prefix, and of 8, 5, 6 and 4 without one.
const SIX: &[(OutputPrefixType, u32, &[u8])] = &[
    (OutputPrefixType::Tink, 7, b"ab"),
    (OutputPrefixType::Raw, 8, b"\x01\x00\x00\x00\x07ab"),
    (OutputPrefixType::Raw, 5, b"\x01\x00\x00\x00\x07cd"),
    (OutputPrefixType::Raw, 6, b"\x01\x00\x00\x00\x07cd"),
    (OutputPrefixType::Tink, 9, b""),
    (OutputPrefixType::Raw, 4, b"\x01\x00\x00\x00\x09"),
];

fn put_six(alloc: Global, set: &mut PrimitiveSet<TestKinds>) -> Result<(), TinkError> {
    for (prefix, id, held) in SIX {
        put(alloc, set, *prefix, *id, held)?;
    }
    Ok(())
}

// Their set.
fn set_of_six(alloc: Global) -> Result<TypedPrimitiveSet<TestAead>, TinkError> {
    let mut set = PrimitiveSet::new(alloc);
    put_six(alloc, &mut set)?;
    TypedPrimitiveSet::from_set_aead(alloc, set)
}

// What a set of one sort is asked.
enum Asked {
    // Its entries in order, or those behind the prefix alone.
    Entries,
    BehindPrefix,
    // The same, where there is no memory.
    Starved,
}

// What the first entry that accepts an input answers on it, those of its prefix before those without one.
fn first_of<P, Q: Question<P>>(
    alloc: Global,
    set: &TypedPrimitiveSet<P>,
    question: &Q,
    input: &[u8],
) -> Result<Q::Answer, TinkError>
    ensures { Answers result (accepted (Q.answers question.now) (group_of set.now.entries) DecryptFailed input.now) }
{
    ask_entries(alloc, set, question, input, Kind::DecryptFailed)
}

// Whether the entry of the id answers.
fn answers(
    alloc: Global,
    set: &TypedPrimitiveSet<TestAead>,
    asked: &Asked,
    input: &[u8],
    id: u32,
) -> Result<bool, TinkError> {
    let answer = match asked {
        Asked::Entries => first_of(alloc, set, &Holds, input),
        Asked::BehindPrefix => ask_behind_prefix(alloc, set, &Holds, input, Kind::MacMismatch),
        Asked::Starved => ask_behind_prefix(alloc, set, &Starved, input, Kind::MacMismatch),
    };
    match answer {
        Ok(found) => Ok(found == id),
        Err(e) => Err(e),
    }
}

const NO_MEMORY: Answer = Err(Kind::OutOfMemory);

// An input, and the id of the entry that answers: one of the prefix on the rest, the first without a prefix on the
// whole, or none. Five bytes are no prefix.
const INPUTS: &[(&str, Asked, &[u8], u32, Answer)] = &[
    (
        "by the prefix",
        Asked::Entries,
        b"\x01\x00\x00\x00\x07ab",
        7,
        Ok(true),
    ),
    (
        "by the first without one",
        Asked::Entries,
        b"\x01\x00\x00\x00\x07cd",
        5,
        Ok(true),
    ),
    (
        "by none",
        Asked::Entries,
        b"\x01\x00\x00\x00\x07ef",
        0,
        Err(Kind::DecryptFailed),
    ),
    (
        "five bytes",
        Asked::Entries,
        b"\x01\x00\x00\x00\x09",
        4,
        Ok(true),
    ),
    (
        "behind a prefix",
        Asked::BehindPrefix,
        b"\x01\x00\x00\x00\x07ab",
        7,
        Ok(true),
    ),
    (
        "five bytes, behind a prefix",
        Asked::BehindPrefix,
        b"\x01\x00\x00\x00\x09",
        0,
        Err(Kind::MacMismatch),
    ),
    (
        "no memory by a prefix",
        Asked::Starved,
        b"\x01\x00\x00\x00\x07ab",
        0,
        NO_MEMORY,
    ),
    (
        "no memory by none",
        Asked::Starved,
        b"\x01\x00\x00\x00\x03ab",
        0,
        NO_MEMORY,
    ),
];

fn ask_all(verdict: &mut Verdict, alloc: Global, set: &TypedPrimitiveSet<TestAead>) {
    for (row, asked, input, id, want) in INPUTS {
        verdict.expect(answers(alloc, set, asked, input, *id), *want, row);
    }
}

pub fn entries_are_asked_in_order(alloc: Global, verdict: &mut Verdict) {
    match set_of_six(alloc) {
        Ok(set) => ask_all(verdict, alloc, &set),
        Err(e) => verdict.expect(Err(e), Ok(true), "a set of six"),
    }
}

// ---- sets of one sort of a handle

// Whether the primary entry holds `cd`, and the one of id 8 holds `ab`.
fn has_both(alloc: Global, set: &TypedPrimitiveSet<TestAead>) -> Result<bool, TinkError> {
    let is_primary = match &set.primary {
        Some(primary) => primary.primitive.key.as_slice() == b"cd".as_slice(),
        None => false,
    };
    Ok(is_primary && answers(alloc, set, &Asked::Entries, b"ab", 8)?)
}

fn are_aeads(
    alloc: Global,
    set: Result<TypedPrimitiveSet<TestAead>, TinkError>,
) -> Result<bool, TinkError> {
    match set {
        Ok(set) => has_both(alloc, &set),
        Err(e) => Err(e),
    }
}

fn gives_set_by(
    alloc: Global,
    registry: &Registry<TestManager>,
    h: &Handle,
    of_macs: bool,
) -> Result<bool, TinkError> {
    if of_macs {
        succeeds(macs_of(alloc, h, registry))
    } else {
        are_aeads(
            alloc,
            typed_primitives::<TestManager, Aeads>(alloc, h, registry),
        )
    }
}

// By a registry whose manager takes keys of any length, and builds a streaming AEAD of one byte.
fn gives_set(alloc: Global, rows: &[KeyRow], of_macs: bool) -> Result<bool, TinkError> {
    let registry = registry_of(alloc, manager(true))?;
    match handle(alloc, 7, rows) {
        Ok(h) => gives_set_by(alloc, &registry, &h, of_macs),
        Err(e) => Err(e),
    }
}

const WRONG: Answer = Err(Kind::WrongPrimitive);

// Keys, of which 7 is the primary id, and whether MACs are asked for, and else AEADs. A streaming key of another id than
// the primary one is refused for that first.
const HANDLES: &[(&str, &[KeyRow], bool, Answer)] = &[
    (
        "two AEADs",
        &[
            (Some((URL, b"ab", 1)), 1, 8, 3),
            (Some((URL, b"cd", 1)), 1, 7, 1),
        ],
        false,
        Ok(true),
    ),
    (
        "a streaming AEAD",
        &[
            (Some((URL, b"a", 1)), 1, 8, 3),
            (Some((URL, b"cd", 1)), 1, 7, 1),
        ],
        false,
        WRONG,
    ),
    (
        "AEADs as MACs",
        &[
            (Some((URL, b"ab", 1)), 1, 8, 3),
            (Some((URL, b"cd", 1)), 1, 7, 1),
        ],
        true,
        WRONG,
    ),
    (
        "no primary key, of public ones",
        &[(Some((URL, b"a", 3)), 1, 8, 3)],
        false,
        Err(Kind::NoPrimary),
    ),
    (
        "no primary key",
        &[(Some((URL, b"a", 1)), 1, 8, 3)],
        false,
        Err(Kind::InvalidKeyset),
    ),
];

pub fn a_handle_gives_a_set_of_one_sort(alloc: Global, verdict: &mut Verdict) {
    for (row, keys, of_macs, want) in HANDLES {
        verdict.expect(gives_set(alloc, keys, *of_macs), *want, row);
    }
}
