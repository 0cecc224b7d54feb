//! Sets of a keyset's pseudorandom functions.

ghost use Rattle.tink_io.specs.Answering.{Answers};
ghost use Rattle.tink_prf.specs.Sets.{primary_output};

use crate::keys::COUNT;
use crate::test_keys::TestKeys;
use std::alloc::Global;
use std::collections::BTreeMap;
use test_util::{Answer, Ask, Verdict, draws_of, gives, handle, registry_of};
use tink_io::{Kind, TinkError};
use tink_key_manager::SymmetricKeyManager;
use tink_keysets::keyset::Handle;
use tink_prf::subtle::HmacPrf;
use tink_prf::{HmacPrfKeyManager, Set, hmac_sha256_prf_key_template};
use tink_primitives::Prf;
use tink_proto::Bytes;
use tink_registry::Registry;

// The keyset of a set.
enum Keys {
    // Of test keys, in the wire format, and of the primary id 7. Each key has a value, whose field 2 is a text or a
    // zero, an id, and the numbers of a prefix type and of a material.
    Test(&'static [u8]),
    // No functions, and the primary id 7.
    Nothing,
}

// What is asked of a set.
enum Asked {
    // Whether it has so many functions, and this primary id.
    Has(usize, u32),
    // What the function of an id gives for `abc`, and what the primary one does.
    Of(u32, &'static [u8]),
    Primary(usize, &'static [u8]),
}

// What the function of an id gives for `abc`, nothing where there is none.
fn output_of<P: Prf + Drop>(alloc: Global, set: &Set<P>, id: u32) -> Result<Bytes, TinkError> {
    match set.prfs.get(&id) {
        Some(prf) => prf.compute_prf(alloc, b"abc", 32),
        None => Ok(Bytes::new(alloc)),
    }
}

// The first bytes of what the primary key's function makes of a text.
fn primary_of<P: Prf + Drop>(
    alloc: Global,
    set: &Set<P>,
    text: &[u8],
    length: usize,
) -> Result<Bytes, TinkError>
    ensures { Answers result (primary_output P.computes set.now text.now length) }
{
    set.compute_primary_prf(alloc, text, length)
}

fn answer_row<P: Prf + Drop>(
    alloc: Global,
    set: Result<Set<P>, TinkError>,
    asked: &Asked,
) -> Result<bool, TinkError> {
    match set {
        Ok(set) => match *asked {
            Asked::Has(n, id) => Ok((set.prfs.len() == n) & (set.primary_id == id)),
            Asked::Of(id, want) => gives(output_of(alloc, &set, id), want),
            Asked::Primary(length, want) => gives(primary_of(alloc, &set, b"abc", length), want),
        },
        Err(e) => Err(e),
    }
}

// What is asked of the set of a keyset.
struct Of(Keys, Asked);

type TestRegistry = Registry<SymmetricKeyManager<TestKeys>>;

impl Ask<TestRegistry> for Of {
    fn answer(&self, alloc: Global, registry: &mut TestRegistry) -> Result<bool, TinkError> {
        match self.0 {
            Keys::Test(keyset) => match handle(alloc, keyset) {
                Ok(h) => answer_row(alloc, Set::new(alloc, &h, registry), &self.1),
                Err(e) => Err(e),
            },
            Keys::Nothing => {
                let prfs: BTreeMap<u32, HmacPrf> = BTreeMap::new(alloc);
                let primary_id = 7;
                answer_row(alloc, Ok(Set { primary_id, prfs }), &self.1)
            }
        }
    }
}

type Hmacs = Registry<HmacPrfKeyManager>;

// A handle of one key by the template of HMAC, from the draws 1 to 36.
fn new_handle(alloc: Global, registry: &Hmacs) -> Result<Handle, TinkError> {
    let mut draws = draws_of(alloc, &COUNT[..36])?;
    match hmac_sha256_prf_key_template(alloc) {
        Ok(kt) => Handle::new(alloc, &kt, registry, &mut draws),
        Err(e) => Err(e),
    }
}

// A new keyset is asked.
impl Ask<Hmacs> for Asked {
    fn answer(&self, alloc: Global, registry: &mut Hmacs) -> Result<bool, TinkError> {
        match new_handle(alloc, registry) {
            Ok(h) => answer_row(alloc, Set::new(alloc, &h, registry), self),
            Err(e) => Err(e),
        }
    }
}

const THREE: Keys = Keys::Test(
    b"\x08\x07\x12\x20\x0a\x18\x0a\x0dtype.test/key\x12\x05\x12\x03one\x18\x01\x10\x01\x18\x08\x20\x03\x12\x24\x0a\x1c\x0a\x0dtype.test/key\x12\x09\x12\x07primary\x18\x01\x10\x01\x18\x07\x20\x03\x12\x20\x0a\x18\x0a\x0dtype.test/key\x12\x05\x12\x03two\x18\x01\x10\x01\x18\x08\x20\x03",
);

// Keysets, and whether they have a set, whose outputs are by Python's HMAC. A keyset of public keys may lack a primary
// one.
const ROWS: &[(&str, Of, Answer)] = &[
    (
        "a RAW primary key",
        Of(
            Keys::Test(
                b"\x08\x07\x12\x1e\x0a\x16\x0a\x0dtype.test/key\x12\x03\x12\x01k\x18\x01\x10\x01\x18\x07\x20\x03",
            ),
            Asked::Has(1, 7),
        ),
        Ok(true),
    ),
    (
        "a primary key of no bytes",
        Of(
            Keys::Test(
                b"\x08\x07\x12\x19\x0a\x11\x0a\x0dtype.test/key\x18\x01\x10\x01\x18\x07\x20\x01",
            ),
            Asked::Has(1, 7),
        ),
        Err(Kind::InvalidKey),
    ),
    (
        "a primary verifier",
        Of(
            Keys::Test(
                b"\x08\x07\x12\x1e\x0a\x16\x0a\x0dtype.test/key\x12\x03\x12\x01\x00\x18\x01\x10\x01\x18\x07\x20\x01",
            ),
            Asked::Has(1, 7),
        ),
        Err(Kind::WrongPrimitive),
    ),
    (
        "a TINK primary key",
        Of(
            Keys::Test(
                b"\x08\x07\x12\x1e\x0a\x16\x0a\x0dtype.test/key\x12\x03\x12\x01k\x18\x01\x10\x01\x18\x07\x20\x01",
            ),
            Asked::Has(1, 7),
        ),
        Err(Kind::NotRawOnly),
    ),
    (
        "a second RAW key",
        Of(
            Keys::Test(
                b"\x08\x07\x12\x1e\x0a\x16\x0a\x0dtype.test/key\x12\x03\x12\x01k\x18\x01\x10\x01\x18\x07\x20\x03\x12\x1e\x0a\x16\x0a\x0dtype.test/key\x12\x03\x12\x01k\x18\x01\x10\x01\x18\x08\x20\x03",
            ),
            Asked::Has(2, 7),
        ),
        Ok(true),
    ),
    (
        "a second TINK key",
        Of(
            Keys::Test(
                b"\x08\x07\x12\x1e\x0a\x16\x0a\x0dtype.test/key\x12\x03\x12\x01k\x18\x01\x10\x01\x18\x07\x20\x03\x12\x1e\x0a\x16\x0a\x0dtype.test/key\x12\x03\x12\x01k\x18\x01\x10\x01\x18\x08\x20\x01",
            ),
            Asked::Has(2, 7),
        ),
        Err(Kind::NotRawOnly),
    ),
    (
        "a second TINK key, of a verifier",
        Of(
            Keys::Test(
                b"\x08\x07\x12\x1e\x0a\x16\x0a\x0dtype.test/key\x12\x03\x12\x01k\x18\x01\x10\x01\x18\x07\x20\x03\x12\x1e\x0a\x16\x0a\x0dtype.test/key\x12\x03\x12\x01\x00\x18\x01\x10\x01\x18\x08\x20\x01",
            ),
            Asked::Has(2, 7),
        ),
        Err(Kind::NotRawOnly),
    ),
    (
        "a second RAW key, of a verifier",
        Of(
            Keys::Test(
                b"\x08\x07\x12\x1e\x0a\x16\x0a\x0dtype.test/key\x12\x03\x12\x01k\x18\x01\x10\x01\x18\x07\x20\x03\x12\x1e\x0a\x16\x0a\x0dtype.test/key\x12\x03\x12\x01\x00\x18\x01\x10\x01\x18\x08\x20\x03",
            ),
            Asked::Has(2, 7),
        ),
        Err(Kind::WrongPrimitive),
    ),
    (
        "a public key alone",
        Of(
            Keys::Test(
                b"\x08\x07\x12\x1e\x0a\x16\x0a\x0dtype.test/key\x12\x03\x12\x01k\x18\x03\x10\x01\x18\x08\x20\x03",
            ),
            Asked::Has(1, 7),
        ),
        Err(Kind::NoPrimary),
    ),
    // A primary key between two of another id, which has one function, that of the last of its keys.
    (
        "two ids of three keys",
        Of(THREE, Asked::Has(2, 7)),
        Ok(true),
    ),
    (
        "the function of the last of two keys",
        Of(
            THREE,
            Asked::Of(
                8,
                b"\x95\x9f\xe0\x20\xcf\x96\x6a\x15\x9a\x74\x29\x92\x89\x22\xc6\x77\x7b\xfe\x17\xca\x7b\x1f\x10\x5b\x18\xa1\x8f\xcc\x95\xf7\x06\x18",
            ),
        ),
        Ok(true),
    ),
    (
        "the primary function",
        Of(
            THREE,
            Asked::Primary(
                16,
                b"\xbf\x48\x0b\x38\x49\x6d\xb1\xca\x20\x7b\x7d\x54\x0c\x2a\x30\x7d",
            ),
        ),
        Ok(true),
    ),
    (
        "a primary key between two others",
        Of(THREE, Asked::Primary(33, b"")),
        Err(Kind::OutputTooLong),
    ),
    (
        "no primary function",
        Of(Keys::Nothing, Asked::Primary(16, b"")),
        Err(Kind::NoPrimary),
    ),
];

// The draws are the bytes of the key and its id.
const NEW_ROWS: &[(&str, Asked, Answer)] = &[
    (
        "the id of a new keyset",
        Asked::Has(1, 0x2122_2324),
        Ok(true),
    ),
    (
        "a new keyset",
        Asked::Primary(
            16,
            b"\xa2\x1b\x1f\x5d\x4c\xf4\xf7\x3a\x4d\xd9\x39\x75\x0f\x7a\x06\x6a",
        ),
        Ok(true),
    ),
];

pub fn rows(alloc: Global, verdict: &mut Verdict) {
    verdict.walk_made(
        alloc,
        registry_of(alloc, SymmetricKeyManager::<TestKeys>::new()),
        "the registry of test keys",
        ROWS,
    );
    verdict.walk_made(
        alloc,
        registry_of(alloc, HmacPrfKeyManager::new()),
        "the registry of HMAC",
        NEW_ROWS,
    );
}
