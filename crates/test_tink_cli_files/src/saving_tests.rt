//! Files of keys in a place over memory.

ghost use Rattle.std.specs.Prelude.{◌≡◌, true};

use crate::places::{Call, Row, place_of, walk};
use std::alloc::Global;
use test_util::{Verdict, draws_of, kind_of};
use tink_cli_files::under_master::{Master, load_master};
use tink_cli_files::{edit_keys, new_keys, rotate_keys, unwrap_keys, wrap_keys};
use tink_io::{Draws, Kind, MemPlace, TinkError};
use tink_keyset_io::key_files::{Edit, Format};

// A master keyset: an AES-GCM key of the id MMMM, under TINK.
pub const MASTER: &[u8] = b"\
    \x08\xcd\x9a\xb5\xea\x04\x12T\x0aH\x0a0type.googleapis.com/google.crypto.tink.AesGcmKey\x12\x12\x1a\x1001234\
    56789abcdef\x18\x01\x10\x01\x18\xcd\x9a\xb5\xea\x04 \x01";

// A keyset of one key without a prefix, of the id YYYY.
pub const KEYS: &[u8] = b"\
    \x08\xd9\xb2\xe5\xca\x05\x12T\x0aH\x0a0type.googleapis.com/google.crypto.tink.AesGcmKey\x12\x12\x1a\x10fedcb\
    a9876543210\x18\x01\x10\x01\x18\xd9\xb2\xe5\xca\x05 \x03";

// It under the master with the data `data` and the nonce `twelve bytes`, by Python's `cryptography`.
const WRAPPED: &[u8] = b"\
    \x12}\x01MMMMtwelve bytesv;\xcf\xadt\x02FaDX7\xf3\xc1\x00\xbc\xed\x05g\x0e\xbdl\xaf76`\xa4\x8d\x1f\x0d\x1c\
    \xaa\xcfYg\x81vo\x85\xce\x17Oo\x95t\xb2\x95\xfa\xa8\x9d\"\x0d\xc1\xec\x9f\xb0J\x92<\xd3=\xfb]\xa2\xa0\x88Dz\
    \xf6 \x89\xaa\xfb'^\x91{\x03\xc7\xbe\xc9\xe5S\x9e\x0f\xe0\x91\x01\x84{\xa3\xed\x04\xc4\x19\x83\xbb\x8f\x98\
    \xb7?\x18\xf4K\xaeQu\x94\xe6\x1aD\x08\xd9\xb2\xe5\xca\x05\x12<\x0a0type.googleapis.com/google.crypto.tink.Ae\
    sGcmKey\x10\x01\x18\xd9\xb2\xe5\xca\x05 \x03";

// The same file in JSON.
const WRAPPED_JSON: &[u8] = b"\
    {\"encryptedKeyset\": \"AU1NTU10d2VsdmUgYnl0ZXN2O8+tdAJGYURYN/PBALztBWcOvWyvNzZgpI0fDRyqz1lngXZvhc4XT2+VdLKV\
    +qidIg3B7J+wSpI80z37XaKgiER69iCJqvsnXpF7A8e+yeVTng/gkQGEe6PtBMQZg7uPmLc/GPRLrlF1lOY=\",\"keysetInfo\": {\"pr\
    imaryKeyId\": 1499027801,\"keyInfo\": [{\"typeUrl\": \"type.googleapis.com/google.crypto.tink.AesGcmKey\",\"\
    status\": \"ENABLED\",\"keyId\": 1499027801,\"outputPrefixType\": \"RAW\"}]}}";

// The keyset with a new primary key of the id ZZZZ.
pub const ROTATED: &[u8] = b"\
    \x08\xda\xb4\xe9\xd2\x05\x12T\x0aH\x0a0type.googleapis.com/google.crypto.tink.AesGcmKey\x12\x12\x1a\x10fedcb\
    a9876543210\x18\x01\x10\x01\x18\xd9\xb2\xe5\xca\x05 \x03\x12T\x0aH\x0a0type.googleapis.com/google.crypto.tin\
    k.AesGcmKey\x12\x12\x1a\x100123456789abcdef\x18\x01\x10\x01\x18\xda\xb4\xe9\xd2\x05 \x01";

// The same with the first one as the primary key.
pub const PROMOTED: &[u8] = b"\
    \x08\xd9\xb2\xe5\xca\x05\x12T\x0aH\x0a0type.googleapis.com/google.crypto.tink.AesGcmKey\x12\x12\x1a\x10fedcb\
    a9876543210\x18\x01\x10\x01\x18\xd9\xb2\xe5\xca\x05 \x03\x12T\x0aH\x0a0type.googleapis.com/google.crypto.tin\
    k.AesGcmKey\x12\x12\x1a\x100123456789abcdef\x18\x01\x10\x01\x18\xda\xb4\xe9\xd2\x05 \x01";

// What is asked: templates, files, draws and associated data.
enum Asked {
    New(&'static str, &'static [u8]),
    Rotate(&'static [u8], &'static str, &'static [u8]),
    Change(&'static [u8], Edit, u32),
}

// What is asked of a master: files of keys, associated data and draws.
enum Under {
    Wrap(&'static [u8], &'static [u8], &'static [u8]),
    Unwrap(&'static [u8], &'static [u8]),
}

// The keyset of the master, and what is asked of it.
struct AskedUnder(&'static [u8], Under);

const ROWS: &[Row<Asked>] = &[
    (
        "new",
        Asked::New("AES128_GCM", b"0123456789abcdefMMMM"),
        999,
        Ok(MASTER),
    ),
    (
        "no template",
        Asked::New("NONE", b""),
        999,
        Err(Kind::UnknownTemplate),
    ),
    (
        "few draws",
        Asked::New("AES128_GCM", b"0123456789abcde"),
        999,
        Err(Kind::RandomFault),
    ),
    (
        "no room",
        Asked::New("AES128_GCM", b"0123456789abcdefMMMM"),
        91,
        Err(Kind::WriteFault),
    ),
    (
        "rotate",
        Asked::Rotate(KEYS, "AES128_GCM", b"0123456789abcdefYYYYZZZZ"),
        999,
        Ok(ROTATED),
    ),
    (
        "rotate none",
        Asked::Rotate(b"none", "AES128_GCM", b""),
        999,
        Err(Kind::BadKeyset),
    ),
    (
        "promote",
        Asked::Change(ROTATED, Edit::Promote, 0x59595959),
        999,
        Ok(PROMOTED),
    ),
    (
        "delete the primary key",
        Asked::Change(KEYS, Edit::Delete, 0x59595959),
        999,
        Err(Kind::IsPrimary),
    ),
];

const UNDER_MASTERS: &[Row<AskedUnder>] = &[
    (
        "wrap",
        AskedUnder(MASTER, Under::Wrap(KEYS, b"data", b"twelve bytes")),
        999,
        Ok(WRAPPED),
    ),
    (
        "wrap without room",
        AskedUnder(MASTER, Under::Wrap(KEYS, b"data", b"twelve bytes")),
        9,
        Err(Kind::WriteFault),
    ),
    (
        "wrap with few draws",
        AskedUnder(MASTER, Under::Wrap(KEYS, b"data", b"eleven byte")),
        999,
        Err(Kind::MasterFailed),
    ),
    (
        "wrap none",
        AskedUnder(MASTER, Under::Wrap(b"{}", b"", b"twelve bytes")),
        999,
        Err(Kind::InvalidKeyset),
    ),
    (
        "unwrap",
        AskedUnder(MASTER, Under::Unwrap(WRAPPED, b"data")),
        999,
        Ok(KEYS),
    ),
    (
        "unwrap JSON",
        AskedUnder(MASTER, Under::Unwrap(WRAPPED_JSON, b"data")),
        999,
        Ok(KEYS),
    ),
    (
        "unwrap with other data",
        AskedUnder(MASTER, Under::Unwrap(WRAPPED, b"date")),
        999,
        Err(Kind::MasterFailed),
    ),
    (
        "unwrap under other keys",
        AskedUnder(KEYS, Under::Unwrap(WRAPPED, b"data")),
        999,
        Err(Kind::MasterFailed),
    ),
    (
        "unwrap none",
        AskedUnder(MASTER, Under::Unwrap(b"{", b"data")),
        999,
        Err(Kind::BadJson),
    ),
];

// New files have the wire format.
impl Call for Asked {
    fn perform(&self, alloc: Global, place: &mut MemPlace) -> Result<(), TinkError> {
        match *self {
            Asked::New(template, draws) => save_new_keys(alloc, template, draws, place),
            Asked::Rotate(file, template, draws) => save_rotated(
                alloc, file, template, draws, place,
            ),
            Asked::Change(file, edit, id) => save_edited(alloc, file, edit, id, place),
        }
    }
}

impl Call for AskedUnder {
    fn perform(&self, alloc: Global, place: &mut MemPlace) -> Result<(), TinkError> {
        done_by(alloc, master_of(alloc, self.0), &self.1, place)
    }
}

// What is done by what was made, which is let go then.
fn done_by<C: Drop, A: DoneBy<C>>(
    alloc: Global,
    made: Result<C, TinkError>,
    asked: &A,
    place: &mut MemPlace,
) -> Result<(), TinkError>
    requires { place.old.has_draft ≡ true }
{
    match made {
        Ok(by) => asked.done_by(alloc, &by, place),
        Err(e) => Err(e),
    }
}

// A call by what was made.
trait DoneBy<C> {
    fn done_by(&self, alloc: Global, by: &C, place: &mut MemPlace) -> Result<(), TinkError>
        requires { place.old.has_draft ≡ true };
}

impl DoneBy<Master> for Under {
    fn done_by(&self, alloc: Global, by: &Master, place: &mut MemPlace) -> Result<(), TinkError> {
        match *self {
            Under::Wrap(keys, aad, draws) => wrap(alloc, by, keys, aad, draws, place),
            Under::Unwrap(file, aad) => unwrap_keys(alloc, by, file, aad, Format::Binary, place),
        }
    }
}

fn save_new_keys(
    alloc: Global,
    template: &str,
    draws: &[u8],
    place: &mut MemPlace,
) -> Result<(), TinkError>
    requires { place.old.has_draft ≡ true }
{
    let mut draws = draws_of(alloc, draws)?;
    new_keys(alloc, template, Format::Binary, &mut draws, place)
}

fn save_rotated(
    alloc: Global,
    file: &[u8],
    template: &str,
    draws: &[u8],
    place: &mut MemPlace,
) -> Result<(), TinkError>
    requires { place.old.has_draft ≡ true }
{
    let mut draws = draws_of(alloc, draws)?;
    let file = Vec::from_slice(alloc, file)?;
    rotate_keys(alloc, file, template, &mut draws, place)
}

fn save_edited(
    alloc: Global,
    file: &[u8],
    edit: Edit,
    id: u32,
    place: &mut MemPlace,
) -> Result<(), TinkError>
    requires { place.old.has_draft ≡ true }
{
    edit_keys(alloc, Vec::from_slice(alloc, file)?, edit, id, place)
}

/// The master of a keyset in the wire format.
pub fn master_of(alloc: Global, keyset: &[u8]) -> Result<Master, TinkError> {
    load_master(alloc, Vec::from_slice(alloc, keyset)?)
}

fn wrap(
    alloc: Global,
    master: &Master,
    keys: &[u8],
    aad: &[u8],
    draws: &[u8],
    place: &mut MemPlace,
) -> Result<(), TinkError>
    requires { place.old.has_draft ≡ true }
{
    let mut draws = draws_of(alloc, draws)?;
    let keys = Vec::from_slice(alloc, keys)?;
    wrap_keys(alloc, master, keys, aad, Format::Binary, &mut draws, place)
}

pub fn files_of_keys_are_saved_whole_or_not_at_all(alloc: Global, verdict: &mut Verdict) {
    walk(alloc, verdict, ROWS);
}

pub fn files_under_masters_are_saved_whole_or_not_at_all(alloc: Global, verdict: &mut Verdict) {
    walk(alloc, verdict, UNDER_MASTERS);
}

pub fn a_master_has_aeads_alone(alloc: Global, verdict: &mut Verdict) {
    let kind = match place_of(alloc, 999) {
        Some(mut place) => refusal_of_master(alloc, &mut place),
        None => None,
    };
    let refused = kind == Some(Kind::WrongPrimitive);
    verdict.expect(Ok(refused), Ok(true), "a master of streams");
}

// By which kind a new file of a key of streams is refused as a master.
fn refusal_of_master(alloc: Global, place: &mut MemPlace) -> Option<Kind> {
    let draws = b"0123456789abcdefMMMM";
    if !place.has_draft || save_new_keys(alloc, "AES128_GCM_HKDF_4KB", draws, place).is_err() {
        return None;
    }
    match place.shown.take() {
        Some(file) => kind_of(load_master(alloc, file)),
        None => None,
    }
}
