//! Sets of test primitives.

ghost use Rattle.std.specs.Prelude.{◌≡◌, ◌∷◌, [], Ok, IfOk, OnOk, OnErr};
ghost use Rattle.tink_sets.specs.Groups.{AddsLast, AreGroupsOf, HaveSameGroups};
ghost use Rattle.tink_sets.specs.Entries.{entry_of, prefix_of};

use std::alloc::Global;
use std::collections::BTreeMap;
use test_util::{Answer, Ask, TestAead, TestKinds, Verdict, ask_made, gives, succeeds};
use tink_io::{Kind, TinkError};
use tink_primitives::{KeyId, Kinds, Never, Primitive};
use tink_proto::{Bytes, Key, KeyStatusType, OutputPrefixType};
use tink_sets::cryptofmt::{
    LEGACY_PREFIX_SIZE, LEGACY_START_BYTE, NON_RAW_PREFIX_SIZE, RAW_PREFIX, RAW_PREFIX_SIZE,
    TINK_PREFIX_SIZE, TINK_START_BYTE, output_prefix,
};
use tink_sets::{Entry, PrimitiveSet, TypedPrimitiveSet};

// An AEAD that is known by the one byte of its key.
fn aead_of_number(alloc: Global, number: u8) -> Result<TestAead, TinkError> {
    Ok(TestAead {
        key: Bytes::from_slice(alloc, &[number])?,
    })
}

fn aead(alloc: Global, number: u8) -> Result<Primitive<TestKinds>, TinkError> {
    Ok(Primitive::Aead(aead_of_number(alloc, number)?))
}

fn key_of(prefix: OutputPrefixType, status: i32) -> Key {
    Key {
        key_data: None,
        status,
        key_id: 0x01020304,
        output_prefix_type: prefix as i32,
    }
}

/// The set of one key.
fn set_of_one<K: Kinds>(
    alloc: Global,
    p: Primitive<K>,
    key: &Key,
) -> Result<PrimitiveSet<K>, TinkError>
    ensures { IfOk result (λ set. AreGroupsOf prefix_of (entry_of p key.now ∷ []) set.entries) }
{
    let mut set = PrimitiveSet::new(alloc);
    let put = set.put(alloc, p, key);
    value_if_ok(set, put)
}

// A value after a call of it that was Ok. Generic in the value, which is then let go in one step.
fn value_if_ok<A: Drop>(value: A, told: Result<(), TinkError>) -> Result<A, TinkError>
    ensures { IfOk result (λ kept. (told ≡ Ok tt) × (kept ≡ value)) }
{
    match told {
        Ok(()) => Ok(value),
        Err(e) => Err(e),
    }
}

/// The id of the entry that a key adds.
fn added_id<K: Kinds>(
    alloc: Global,
    set: &mut PrimitiveSet<K>,
    p: Primitive<K>,
    key: &Key,
) -> Result<KeyId, TinkError>
    ensures ok { OnOk result (AddsLast prefix_of (entry_of p key.now) set.old.entries set.new.entries) }
    ensures err { OnErr result (HaveSameGroups set.old.entries set.new.entries) }
    ensures primary { set.new.primary ≡ set.old.primary }
{
    match set.add(alloc, p, key) {
        Ok(entry) => Ok(entry.key_id),
        Err(e) => Err(e),
    }
}

// Whether the key of an AEAD is this byte.
fn is_number(held: &TestAead, number: u8) -> bool {
    held.key.as_slice() == [number].as_slice()
}

fn has_number(entry: &Entry<TestKinds>, number: u8) -> bool {
    match &entry.primitive {
        Primitive::Aead(p) | Primitive::StreamingAead(p) => is_number(p, number),
        _ => false,
    }
}

// By what call an entry is added.
enum How {
    // It answers nothing.
    Put,
    // It lends the entry.
    Lend,
    // It answers the key's id.
    Id,
}

// An entry of the number that is added for a key of the type and the status.
struct Added(How, u8, OutputPrefixType, i32);

// The RAW entries are two, of these numbers.
struct Raws(u8, u8);

// What is asked of a set.
enum Step {
    // An entry is added.
    Add(Added),
    // A RAW entry and a TINK one are each added, or the set is left.
    Both(Added, Added),
    // There are so many RAW and TINK entries, or more.
    Hold(usize),
    Raws(Raws),
    // Those of a copy.
    CopiedRaws(Raws),
    // So many entries have the prefix.
    Count(&'static [u8], usize),
    // A key of the type has the prefix.
    Prefix(OutputPrefixType, &'static [u8]),
    // The sizes of prefixes and their first bytes.
    Constants,
}

// Whether an entry that is lent has the number.
fn is_numbered(entry: Result<&Entry<TestKinds>, TinkError>, number: u8) -> Result<bool, TinkError> {
    match entry {
        Ok(entry) => Ok(has_number(entry, number)),
        Err(e) => Err(e),
    }
}

fn is_id(id: Result<KeyId, TinkError>) -> Result<bool, TinkError> {
    match id {
        Ok(id) => Ok(id == 0x01020304),
        Err(e) => Err(e),
    }
}

fn add_by(
    alloc: Global,
    set: &mut PrimitiveSet<TestKinds>,
    p: Primitive<TestKinds>,
    entry: &Added,
    key: &Key,
) -> Result<bool, TinkError> {
    match entry.0 {
        How::Put => succeeds(set.put(alloc, p, key)),
        How::Lend => is_numbered(set.add(alloc, p, key), entry.1),
        How::Id => is_id(added_id(alloc, set, p, key)),
    }
}

fn add(alloc: Global, set: &mut PrimitiveSet<TestKinds>, entry: &Added) -> Result<bool, TinkError> {
    match aead(alloc, entry.1) {
        Ok(p) => add_by(alloc, set, p, entry, &key_of(entry.2, entry.3)),
        Err(e) => Err(e),
    }
}

// How many TINK entries there are.
fn tinks(set: &PrimitiveSet<TestKinds>) -> usize {
    set.entries_for_prefix(&[1, 1, 2, 3, 4]).len()
}

fn both(alloc: Global, set: &mut PrimitiveSet<TestKinds>, raw: &Added, tink: &Added) -> bool {
    let raws = set.raw_entries().len();
    let others = tinks(set);
    let one = add(alloc, set, raw).is_ok();
    let other = add(alloc, set, tink).is_ok();
    (set.raw_entries().len() == raws.wrapping_add(one as usize))
        & (tinks(set) == others.wrapping_add(other as usize))
}

impl Ask<PrimitiveSet<TestKinds>> for Raws {
    fn answer(&self, _alloc: Global, set: &mut PrimitiveSet<TestKinds>) -> Result<bool, TinkError> {
        match set.raw_entries() {
            [a, b] => Ok(has_number(a, self.0) & has_number(b, self.1)),
            _ => Ok(false),
        }
    }
}

fn are_constants() -> bool {
    let sizes = [
        NON_RAW_PREFIX_SIZE,
        TINK_PREFIX_SIZE,
        LEGACY_PREFIX_SIZE,
        RAW_PREFIX_SIZE,
    ];
    (sizes == [5, 5, 5, 0]) & (TINK_START_BYTE == 1) & (LEGACY_START_BYTE == 0)
}

impl Ask<PrimitiveSet<TestKinds>> for Step {
    fn answer(&self, alloc: Global, set: &mut PrimitiveSet<TestKinds>) -> Result<bool, TinkError> {
        match *self {
            Step::Add(ref entry) => add(alloc, set, entry),
            Step::Both(ref raw, ref tink) => Ok(both(alloc, set, raw, tink)),
            Step::Hold(n) => Ok(n <= set.raw_entries().len().wrapping_add(tinks(set))),
            Step::Raws(ref raws) => raws.answer(alloc, set),
            Step::CopiedRaws(ref raws) => ask_made(alloc, set.try_clone(alloc), raws),
            Step::Count(prefix, n) => Ok(set.entries_for_prefix(prefix).len() == n),
            Step::Prefix(prefix, want) => gives(output_prefix(alloc, &key_of(prefix, 1)), want),
            Step::Constants => Ok(are_constants()),
        }
    }
}

const TINK: OutputPrefixType = OutputPrefixType::Tink;

const RAW: OutputPrefixType = OutputPrefixType::Raw;

const UNKNOWN: OutputPrefixType = OutputPrefixType::UnknownPrefix;

// The steps of a new set. The keys have the id 01020304.
const STEPS: &[(&str, Step, Answer)] = &[
    ("the constants", Step::Constants, Ok(true)),
    // A prefix is a byte and the id.
    (
        "TINK",
        Step::Prefix(TINK, &[TINK_START_BYTE, 1, 2, 3, 4]),
        Ok(true),
    ),
    (
        "CRUNCHY",
        Step::Prefix(OutputPrefixType::Crunchy, &[0, 1, 2, 3, 4]),
        Ok(true),
    ),
    (
        "LEGACY",
        Step::Prefix(OutputPrefixType::Legacy, &[LEGACY_START_BYTE, 1, 2, 3, 4]),
        Ok(true),
    ),
    ("RAW", Step::Prefix(RAW, &RAW_PREFIX), Ok(true)),
    (
        "an unknown type",
        Step::Prefix(UNKNOWN, &[]),
        Err(Kind::UnknownPrefix),
    ),
    // A key that may not stand is refused.
    (
        "a key of no prefix",
        Step::Add(Added(How::Put, 7, UNKNOWN, 1)),
        Err(Kind::UnknownPrefix),
    ),
    (
        "a disabled key of no prefix",
        Step::Add(Added(How::Put, 7, UNKNOWN, 2)),
        Err(Kind::NotEnabled),
    ),
    ("no entry of a refused key", Step::Count(b"", 0), Ok(true)),
    // Entries stand in the order of adding.
    (
        "a RAW entry",
        Step::Add(Added(How::Put, 7, RAW, 1)),
        Ok(true),
    ),
    (
        "a TINK entry",
        Step::Add(Added(How::Put, 8, TINK, 1)),
        Ok(true),
    ),
    (
        "another RAW entry",
        Step::Add(Added(How::Put, 9, RAW, 1)),
        Ok(true),
    ),
    ("the RAW entries", Step::Raws(Raws(7, 9)), Ok(true)),
    (
        "one TINK entry",
        Step::Count(b"\x01\x01\x02\x03\x04", 1),
        Ok(true),
    ),
    (
        "no LEGACY entry",
        Step::Count(b"\x00\x01\x02\x03\x04", 0),
        Ok(true),
    ),
    (
        "the RAW entries of a copy",
        Step::CopiedRaws(Raws(7, 9)),
        Ok(true),
    ),
    // An added entry is lent.
    (
        "the number of an entry",
        Step::Add(Added(How::Lend, 5, RAW, 1)),
        Ok(true),
    ),
    (
        "the id of an entry",
        Step::Add(Added(How::Id, 6, RAW, 1)),
        Ok(true),
    ),
];

// Those of another one. A call that is refused for `OutOfMemory` adds nothing, and one that isn't adds one entry.
const ENTRIES: &[(&str, Step, Answer)] = &[
    (
        "the entries",
        Step::Both(Added(How::Put, 0, RAW, 1), Added(How::Lend, 0, TINK, 1)),
        Ok(true),
    ),
    (
        "the entries",
        Step::Both(Added(How::Put, 1, RAW, 1), Added(How::Lend, 1, TINK, 1)),
        Ok(true),
    ),
    (
        "the entries",
        Step::Both(Added(How::Put, 2, RAW, 1), Added(How::Lend, 2, TINK, 1)),
        Ok(true),
    ),
    (
        "the entries",
        Step::Both(Added(How::Put, 3, RAW, 1), Added(How::Lend, 3, TINK, 1)),
        Ok(true),
    ),
    (
        "the entries",
        Step::Both(Added(How::Put, 4, RAW, 1), Added(How::Lend, 4, TINK, 1)),
        Ok(true),
    ),
    (
        "the entries",
        Step::Both(Added(How::Put, 5, RAW, 1), Added(How::Lend, 5, TINK, 1)),
        Ok(true),
    ),
    (
        "the entries",
        Step::Both(Added(How::Put, 6, RAW, 1), Added(How::Lend, 6, TINK, 1)),
        Ok(true),
    ),
    (
        "the entries",
        Step::Both(Added(How::Put, 7, RAW, 1), Added(How::Lend, 7, TINK, 1)),
        Ok(true),
    ),
    (
        "the entries",
        Step::Both(Added(How::Put, 8, RAW, 1), Added(How::Lend, 8, TINK, 1)),
        Ok(true),
    ),
    // Nearly all are added.
    ("the entries", Step::Hold(17), Ok(true)),
];

// ---- sets of one sort

// The set of a RAW AEAD of the number 7.
fn set_of_seven(alloc: Global) -> Result<PrimitiveSet<TestKinds>, TinkError> {
    match aead(alloc, 7) {
        Ok(p) => set_of_one(alloc, p, &key_of(RAW, 1)),
        Err(e) => Err(e),
    }
}

// A set whose primary entry is a streaming AEAD, and that has no other one.
fn set_of_a_primary(alloc: Global) -> Result<PrimitiveSet<TestKinds>, TinkError> {
    let primitive = Primitive::StreamingAead(aead_of_number(alloc, 1)?);
    Ok(PrimitiveSet {
        primary: Some(Entry {
            key_id: 5,
            primitive,
            prefix: Bytes::new(alloc),
            prefix_type: OutputPrefixType::Raw,
            status: KeyStatusType::Enabled,
        }),
        entries: BTreeMap::new(alloc),
    })
}

enum Held {
    Nothing,
    Seven,
    StreamingPrimary,
}

fn set_of(alloc: Global, held: &Held) -> Result<PrimitiveSet<TestKinds>, TinkError> {
    match *held {
        Held::Nothing => Ok(PrimitiveSet::new(alloc)),
        Held::Seven => set_of_seven(alloc),
        Held::StreamingPrimary => set_of_a_primary(alloc),
    }
}

// As what a set is taken.
enum Sorted {
    Aeads,
    StreamingAeads,
    // AEADs, of which the first RAW one has the number 7, and those of a copy.
    Sevens,
    CopiedSevens,
    // A sort that the family does not have.
    Other(Other),
}

enum Other {
    DeterministicAeads,
    HybridDecrypters,
    HybridEncrypters,
    Macs,
    Prfs,
    Signers,
    Verifiers,
}

// The number of the first RAW entry is 7, and there is none of another prefix.
struct Seven;

impl Ask<TypedPrimitiveSet<TestAead>> for Seven {
    fn answer(
        &self,
        _alloc: Global,
        typed: &mut TypedPrimitiveSet<TestAead>,
    ) -> Result<bool, TinkError> {
        match typed.raw_entries() {
            Some([entry, ..]) => Ok(
                is_number(&entry.primitive, 7) & typed.entries_for_prefix(&[1]).is_none(),
            ),
            _ => Ok(false),
        }
    }
}

// That is so of a copy.
struct CopiedSeven;

impl Ask<TypedPrimitiveSet<TestAead>> for CopiedSeven {
    fn answer(
        &self,
        alloc: Global,
        typed: &mut TypedPrimitiveSet<TestAead>,
    ) -> Result<bool, TinkError> {
        ask_made(alloc, typed.try_clone(alloc), &Seven)
    }
}

// The set as one of a sort that the family does not have.
fn others(
    alloc: Global,
    set: PrimitiveSet<TestKinds>,
    sort: &Other,
) -> Result<TypedPrimitiveSet<Never>, TinkError> {
    match *sort {
        Other::DeterministicAeads => TypedPrimitiveSet::from_set_deterministic_aead(alloc, set),
        Other::HybridDecrypters => TypedPrimitiveSet::from_set_hybrid_decrypt(alloc, set),
        Other::HybridEncrypters => TypedPrimitiveSet::from_set_hybrid_encrypt(alloc, set),
        Other::Macs => TypedPrimitiveSet::from_set_mac(alloc, set),
        Other::Prfs => TypedPrimitiveSet::from_set_prf(alloc, set),
        Other::Signers => TypedPrimitiveSet::from_set_signer(alloc, set),
        Other::Verifiers => TypedPrimitiveSet::from_set_verifier(alloc, set),
    }
}

// Whether the set is one of the sort.
fn is_of(alloc: Global, set: PrimitiveSet<TestKinds>, sort: &Sorted) -> Result<bool, TinkError> {
    match *sort {
        Sorted::Aeads => succeeds(TypedPrimitiveSet::from_set_aead(alloc, set)),
        Sorted::StreamingAeads => succeeds(TypedPrimitiveSet::from_set_streaming_aead(alloc, set)),
        Sorted::Sevens => ask_made(alloc, TypedPrimitiveSet::from_set_aead(alloc, set), &Seven),
        Sorted::CopiedSevens => {
            ask_made(
                alloc,
                TypedPrimitiveSet::from_set_aead(alloc, set),
                &CopiedSeven,
            )
        }
        Sorted::Other(ref sort) => succeeds(others(alloc, set, sort)),
    }
}

// A set, and as what it is taken.
struct Of(Held, Sorted);

impl Ask<()> for Of {
    fn answer(&self, alloc: Global, _of: &mut ()) -> Result<bool, TinkError> {
        match set_of(alloc, &self.0) {
            Ok(set) => is_of(alloc, set, &self.1),
            Err(e) => Err(e),
        }
    }
}

// Each sort of a set of nothing, and of sets of one primitive.
const SORTS: &[(&str, Of, Answer)] = &[
    ("no AEADs", Of(Held::Nothing, Sorted::Aeads), Ok(true)),
    (
        "no deterministic AEADs",
        Of(Held::Nothing, Sorted::Other(Other::DeterministicAeads)),
        Ok(true),
    ),
    (
        "no hybrid decryptions",
        Of(Held::Nothing, Sorted::Other(Other::HybridDecrypters)),
        Ok(true),
    ),
    (
        "no hybrid encryptions",
        Of(Held::Nothing, Sorted::Other(Other::HybridEncrypters)),
        Ok(true),
    ),
    (
        "no MACs",
        Of(Held::Nothing, Sorted::Other(Other::Macs)),
        Ok(true),
    ),
    (
        "no pseudorandom functions",
        Of(Held::Nothing, Sorted::Other(Other::Prfs)),
        Ok(true),
    ),
    (
        "no signers",
        Of(Held::Nothing, Sorted::Other(Other::Signers)),
        Ok(true),
    ),
    (
        "no streaming AEADs",
        Of(Held::Nothing, Sorted::StreamingAeads),
        Ok(true),
    ),
    (
        "no verifiers",
        Of(Held::Nothing, Sorted::Other(Other::Verifiers)),
        Ok(true),
    ),
    (
        "an AEAD as MACs",
        Of(Held::Seven, Sorted::Other(Other::Macs)),
        Err(Kind::WrongPrimitive),
    ),
    (
        "a primary streaming AEAD",
        Of(Held::StreamingPrimary, Sorted::StreamingAeads),
        Ok(true),
    ),
    (
        "a primary streaming AEAD as AEADs",
        Of(Held::StreamingPrimary, Sorted::Aeads),
        Err(Kind::WrongPrimitive),
    ),
    (
        "an AEAD, by the set and a copy",
        Of(Held::Seven, Sorted::Sevens),
        Ok(true),
    ),
    (
        "an AEAD, by the set and a copy",
        Of(Held::Seven, Sorted::CopiedSevens),
        Ok(true),
    ),
];

fn sorts(alloc: Global, verdict: &mut Verdict) {
    verdict.walk(alloc, (), SORTS);
}

pub fn rows(alloc: Global, verdict: &mut Verdict) {
    verdict.walk(alloc, PrimitiveSet::new(alloc), STEPS);
    verdict.walk(alloc, PrimitiveSet::new(alloc), ENTRIES);
    sorts(alloc, verdict);
}
