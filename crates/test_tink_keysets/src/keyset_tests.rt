//! Each call once, rows that were worked out by hand, and a caller's contract.

ghost use Rattle.keyset_model.specs.Edits as edits;
ghost use Rattle.tink_keysets.specs.Editing.{Edits};

use std::alloc::Global;
use test_util::{
    Answer, URL, Verdict, bare, bytes_of, draws_of, gives, handle_of, key, keyset, kind_of,
    succeeds,
};
use tink_core_subtle::random::{get_random_bytes, get_random_uint32};
use tink_io::{Draws, Kind, TinkError};
use tink_keysets::keyset::insecure::{decode, keyset_material};
use tink_keysets::keyset::{
    Handle, Manager, MemReaderWriter, Reader, Writer, law_fresh_id, law_ids_stay_distinct,
    law_keys_stay, law_no_fresh_id, law_primary_stays, law_refused_adding, law_refused_command,
    law_valid_stays, validate, validate_key, validate_key_version,
};
use tink_proto::{Bytes, EncryptedKeyset, Key, KeyInfo, Keyset, KeysetInfo};

const SYMMETRIC: i32 = 1;

const PUBLIC: i32 = 3;

const ENABLED: i32 = 1;

const DISABLED: i32 = 2;

const DESTROYED: i32 = 3;

// ---- keysets of some keys

// The material of a key, if it has data, its status and its id.
type KeyRow = (Option<i32>, i32, u32);

fn keys_of(alloc: Global, rows: &[KeyRow]) -> Result<Vec<Key>, TinkError> {
    let mut keys = Vec::new(alloc);
    for (material, status, id) in rows {
        let key = match material {
            Some(material) => key(alloc, *material, *status, *id)?,
            None => bare(*status, *id),
        };
        keys.push(key)?;
    }
    Ok(keys)
}

// What is asked of keys with this primary id.
enum Asked {
    // Whether there is a handle of them, and one without secrets.
    Handle,
    WithoutSecrets,
    // Whether they are valid.
    Validity,
    // Whether a destroyed key of the primary id is.
    KeyValidity,
    // Whether the number is that of a version of at most 1.
    Version,
}

fn answer_row(
    alloc: Global,
    asked: &Asked,
    primary: u32,
    rows: &[KeyRow],
) -> Result<bool, TinkError> {
    let keys = keys_of(alloc, rows)?;
    match asked {
        Asked::Handle => succeeds(handle_of(primary, keys)),
        Asked::WithoutSecrets => succeeds(Handle::new_with_no_secrets(keyset(primary, keys))),
        Asked::Validity => succeeds(validate(&keyset(primary, keys))),
        Asked::KeyValidity => succeeds(validate_key(&bare(DESTROYED, primary))),
        Asked::Version => succeeds(validate_key_version(primary, 1)),
    }
}

const INVALID: Answer = Err(Kind::InvalidKeyset);

const KEYSETS: &[(&str, Asked, u32, &[KeyRow], Answer)] = &[
    // A handle holds keys of known material.
    (
        "destroyed",
        Asked::Handle,
        7,
        &[(None, DESTROYED, 7)],
        Ok(true),
    ),
    (
        "disabled without data",
        Asked::Handle,
        7,
        &[(None, DISABLED, 7)],
        INVALID,
    ),
    (
        "destroyed, of an unknown material",
        Asked::Handle,
        7,
        &[(Some(5), DESTROYED, 7)],
        INVALID,
    ),
    ("no keys", Asked::Handle, 7, &[], INVALID),
    // Secrets need the insecure calls.
    (
        "public",
        Asked::WithoutSecrets,
        7,
        &[(Some(PUBLIC), ENABLED, 7)],
        Ok(true),
    ),
    (
        "symmetric and destroyed",
        Asked::WithoutSecrets,
        7,
        &[(Some(SYMMETRIC), DESTROYED, 7)],
        Err(Kind::HasSecrets),
    ),
    (
        "symmetric, and a key without data",
        Asked::WithoutSecrets,
        7,
        &[(Some(SYMMETRIC), ENABLED, 7), (None, ENABLED, 8)],
        INVALID,
    ),
    // Keysets are validated.
    (
        "of its primary key",
        Asked::Validity,
        7,
        &[(Some(SYMMETRIC), ENABLED, 7)],
        Ok(true),
    ),
    (
        "of another primary key",
        Asked::Validity,
        8,
        &[(Some(SYMMETRIC), ENABLED, 7)],
        INVALID,
    ),
    ("a key of id 7", Asked::KeyValidity, 7, &[], Ok(true)),
    ("a key of id 0", Asked::KeyValidity, 0, &[], INVALID),
    ("version 1", Asked::Version, 1, &[], Ok(true)),
    ("version 2", Asked::Version, 2, &[], Err(Kind::BadVersion)),
];

pub fn keysets_are_held_or_refused(alloc: Global, verdict: &mut Verdict) {
    for (row, asked, primary, keys, want) in KEYSETS {
        verdict.expect(answer_row(alloc, asked, *primary, keys), *want, row);
    }
}

// ---- what a handle tells

// A handle of an enabled symmetric key of id 7 and of a destroyed key of id 8.
fn two_keys(alloc: Global) -> Result<Handle, TinkError> {
    handle_of(
        7,
        keys_of(
            alloc,
            &[(Some(SYMMETRIC), ENABLED, 7), (None, DESTROYED, 8)],
        )?,
    )
}

const PRINTED: &str =
    "KeysetInfo { primary_key_id: 7, key_info: [KeyInfo { type_url: \"type.test/key\", status: Enabled, key_id: 7, output_prefix_type: Tink }, KeyInfo { type_url: \"\", status: Destroyed, key_id: 8, output_prefix_type: Raw }] }";

fn prints(alloc: Global, h: &Handle) -> Result<bool, TinkError> {
    match format!(in alloc; "{h:?}") {
        Ok(text) => Ok(text.as_str() == PRINTED),
        Err(_) => Err(TinkError::new(Kind::OutOfMemory)),
    }
}

fn tells_key(info: &KeyInfo, type_url: &str, status: i32, id: u32, prefix: i32) -> bool {
    info.type_url.as_str() == type_url
        && info.status == status
        && info.key_id == id
        && info.output_prefix_type == prefix
}

fn tells_two_keys(info: &KeysetInfo) -> bool {
    match info.key_info.as_slice() {
        [one, other] => {
            tells_key(one, URL, ENABLED, 7, 1) && tells_key(other, "", DESTROYED, 8, 3)
        }
        _ => false,
    }
}

// Whether the bytes of a handle spell a keyset of the primary id 7 and two keys.
fn spells_two_keys(alloc: Global, h: &Handle) -> Result<bool, TinkError> {
    let bytes = bytes_of(alloc, h)?;
    let ks = decode(alloc, bytes.as_slice())?;
    Ok(ks.primary_key_id == 7 && ks.key.as_slice().len() == 2)
}

// Whether it prints no key material, its bytes are decoded, and it tells its info.
fn tells_all(alloc: Global, h: &Handle) -> Result<bool, TinkError> {
    if !prints(alloc, h)? || !spells_two_keys(alloc, h)? {
        return Ok(false);
    }
    match h.keyset_info(alloc) {
        Ok(info) => Ok(info.primary_key_id == 7 && tells_two_keys(&info)),
        Err(e) => Err(e),
    }
}

fn two_keys_tell(alloc: Global) -> Result<bool, TinkError> {
    match two_keys(alloc) {
        Ok(h) => tells_all(alloc, &h),
        Err(e) => Err(e),
    }
}

pub fn a_handle_tells_no_key_material(alloc: Global, verdict: &mut Verdict) {
    verdict.expect(two_keys_tell(alloc), Ok(true), "text, bytes and info");
    let cut = succeeds(decode(alloc, b"\x08"));
    verdict.expect(cut, Err(Kind::BadKeyset), "no keyset");
}

// ---- the commands of a manager

// A caller of a command: its contract is the definition's edit.
fn retire(manager: &mut Manager, id: u32) -> Result<(), TinkError>
    ensures { Edits result manager.old manager.new (edits.disable manager.old id) }
{
    manager.disable(id)
}

pub fn manager_of_handle(h: Result<Handle, TinkError>) -> Result<Manager, TinkError> {
    match h {
        Ok(h) => Ok(Manager::new_from_handle(h)),
        Err(e) => Err(e),
    }
}

// The manager of two keys of this status and id 2. The primary id is 1.
fn manager_of(alloc: Global, status: i32) -> Result<Manager, TinkError> {
    let keys = keys_of(
        alloc,
        &[(Some(SYMMETRIC), status, 2), (Some(SYMMETRIC), status, 2)],
    )?;
    manager_of_handle(handle_of(1, keys))
}

// A command on the keys of an id, or what is asked after it.
enum Step {
    Retire(u32),
    Enable(u32),
    Disable(u32),
    Destroy(u32),
    Delete(u32),
    SetPrimary(u32),
    // The first key has this status, and data or none.
    First(i32, bool),
    // There are so many keys.
    Count(usize),
}

fn first_key_is(
    alloc: Global,
    manager: &Manager,
    status: i32,
    has_data: bool,
) -> Result<bool, TinkError> {
    let material = material_of(alloc, manager)?;
    Ok(match material.key.as_slice().first() {
        Some(key) => key.status == status && key.key_data.is_some() == has_data,
        None => false,
    })
}

fn material_of(alloc: Global, manager: &Manager) -> Result<Keyset, TinkError> {
    let h = manager.handle(alloc)?;
    keyset_material(alloc, &h)
}

fn does(alloc: Global, manager: &mut Manager, step: &Step) -> Result<bool, TinkError> {
    match step {
        Step::Retire(id) => succeeds(retire(manager, *id)),
        Step::Enable(id) => succeeds(manager.enable(*id)),
        Step::Disable(id) => succeeds(manager.disable(*id)),
        Step::Destroy(id) => succeeds(manager.destroy(*id)),
        Step::Delete(id) => succeeds(manager.delete(*id)),
        Step::SetPrimary(id) => succeeds(manager.set_primary(*id)),
        Step::First(status, has_data) => first_key_is(alloc, manager, *status, *has_data),
        Step::Count(n) => Ok(manager.key_count() == *n),
    }
}

type Row = (&'static str, Step, Answer);

const NONE: Answer = Err(Kind::KeyNotFound);

const PRIMARY: Answer = Err(Kind::IsPrimary);

// The status of the keys, and the steps of their manager.
const MANAGERS: &[(i32, &[Row])] = &[
    // The first key of an id is changed.
    (
        ENABLED,
        &[
            ("a retirement", Step::Retire(2), Ok(true)),
            (
                "the first one is disabled",
                Step::First(DISABLED, true),
                Ok(true),
            ),
            ("it as primary", Step::SetPrimary(2), Err(Kind::NotEnabled)),
            ("its return", Step::Enable(2), Ok(true)),
            (
                "the first one is enabled",
                Step::First(ENABLED, true),
                Ok(true),
            ),
        ],
    ),
    // The first key of an id is deleted.
    (
        ENABLED,
        &[
            ("the first one is deleted", Step::Delete(2), Ok(true)),
            ("one key is left", Step::Count(1), Ok(true)),
            ("the other one as primary", Step::SetPrimary(2), Ok(true)),
            ("the primary one is deleted", Step::Delete(2), PRIMARY),
        ],
    ),
    // A destroyed key has no data and stays.
    (
        ENABLED,
        &[
            ("the first one is destroyed", Step::Destroy(2), Ok(true)),
            ("it has no data", Step::First(DESTROYED, false), Ok(true)),
            (
                "it is enabled",
                Step::Enable(2),
                Err(Kind::WrongStatus(DESTROYED)),
            ),
            (
                "it is disabled",
                Step::Disable(2),
                Err(Kind::WrongStatus(DESTROYED)),
            ),
            ("it is destroyed again", Step::Destroy(2), Ok(true)),
        ],
    ),
    // A refused command names its cause.
    (
        0,
        &[
            ("the primary id is disabled", Step::Disable(1), PRIMARY),
            ("the primary id is destroyed", Step::Destroy(1), PRIMARY),
            ("the primary id is deleted", Step::Delete(1), PRIMARY),
            ("the primary id is enabled", Step::Enable(1), NONE),
            ("the primary id as primary", Step::SetPrimary(1), NONE),
            ("no key is disabled", Step::Disable(5), NONE),
            ("no key is destroyed", Step::Destroy(5), NONE),
            ("no key is deleted", Step::Delete(5), NONE),
            ("no key is enabled", Step::Enable(5), NONE),
            ("no key as primary", Step::SetPrimary(5), NONE),
            (
                "a key of an unknown status",
                Step::Destroy(2),
                Err(Kind::WrongStatus(0)),
            ),
        ],
    ),
];

fn walk(verdict: &mut Verdict, alloc: Global, status: i32, rows: &[Row]) -> Result<(), TinkError> {
    let mut manager = manager_of(alloc, status)?;
    for (row, step, want) in rows {
        verdict.expect(does(alloc, &mut manager, step), *want, row);
    }
    Ok(())
}

pub fn a_manager_edits_its_keys(alloc: Global, verdict: &mut Verdict) {
    for (status, rows) in MANAGERS {
        let walked = succeeds(walk(verdict, alloc, *status, rows));
        verdict.expect(walked, Ok(true), "a manager");
    }
    let is_empty = Manager::new(alloc).key_count() == 0;
    verdict.expect(Ok(is_empty), Ok(true), "a new one has no keys");
}

pub fn laws_can_be_called() {
    law_fresh_id();
    law_no_fresh_id();
    law_keys_stay();
    law_ids_stay_distinct();
    law_primary_stays();
    law_valid_stays();
    law_refused_adding();
    law_refused_command();
}

// ---- random bytes and memory

// Whether a number of four draws, no other number, not four bytes, and two of three bytes are drawn from seven.
fn are_drawn(alloc: Global, draws: &mut Draws) -> Result<bool, TinkError> {
    let fault = Some(Kind::RandomFault);
    let number = get_random_uint32(draws)?;
    let refused = kind_of(get_random_uint32(draws)) == fault
        && kind_of(get_random_bytes(alloc, draws, 4)) == fault;
    let two = gives(get_random_bytes(alloc, draws, 2), b"\x05\x06")?;
    Ok(number == 0x01020304 && refused && two && draws.left() == 1)
}

fn seven_are_drawn(alloc: Global) -> Result<bool, TinkError> {
    let mut draws = draws_of(alloc, b"\x01\x02\x03\x04\x05\x06\x07")?;
    are_drawn(alloc, &mut draws)
}

// Whether two keys are read after the keyset of two was written.
fn passes_two_keys<E: Reader + Writer>(alloc: Global, end: &mut E) -> Result<bool, TinkError> {
    let keys = keys_of(alloc, &[(None, DESTROYED, 7), (None, DESTROYED, 8)])?;
    end.write(alloc, &keyset(7, keys))?;
    let read = end.read(alloc)?;
    Ok(read.key.as_slice().len() == 2)
}

// Whether the encryption 01 02 is read after it was written.
fn passes_encryption<E: Reader + Writer>(alloc: Global, end: &mut E) -> Result<bool, TinkError> {
    let encrypted = EncryptedKeyset {
        encrypted_keyset: Bytes::from_slice(alloc, b"\x01\x02")?,
        keyset_info: None,
    };
    end.write_encrypted(alloc, &encrypted)?;
    let read = end.read_encrypted(alloc)?;
    Ok(read.encrypted_keyset.as_slice() == b"\x01\x02".as_slice())
}

// Whether memory holds nothing, then an encryption alone, and then what was written.
fn holds(alloc: Global, memory: &mut MemReaderWriter) -> Result<bool, TinkError> {
    let none = Some(Kind::NoKeyset);
    let empty = kind_of(memory.read(alloc)) == none
        && kind_of(memory.read_encrypted(alloc)) == none;
    let encrypted = passes_encryption(alloc, memory)? && memory.keyset.is_none();
    Ok(empty && encrypted && passes_two_keys(alloc, memory)?)
}

pub fn random_bytes_and_memory(alloc: Global, verdict: &mut Verdict) {
    verdict.expect(seven_are_drawn(alloc), Ok(true), "the next draws");
    let held = holds(alloc, &mut MemReaderWriter::default());
    verdict.expect(held, Ok(true), "what was written and encrypted");
}
