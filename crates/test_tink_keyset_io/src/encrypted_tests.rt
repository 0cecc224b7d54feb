//! Keysets through ends, and those under a master key through memory.

ghost use Rattle.std.specs.Prelude.{◌≡◌};
ghost use Rattle.tink_keysets.specs.Encrypted.{decrypted};
ghost use Rattle.tink_keysets.specs.Through.{GivesBy};

use crate::ends::Binding;
use crate::plain_tests::{NOTHING, PLAIN, SECRETS};
use crate::stored::{put, put_encrypted};
use std::alloc::Global;
use test_util::{Answer, TestAead, Verdict, bytes_of, draws_of, gives, succeeds};
use tink_core::keyset::insecure::{self, decode, new_handle};
use tink_core::keyset::{Handle, MemReaderWriter, Reader, Writer};
use tink_io::{Draws, Kind, TinkError};
use tink_keysets::keyset::law_written_is_read;
use tink_primitives::Aead;
use tink_proto::{Bytes, EncryptedKeyset, KeysetInfo, Message};

// A caller of a call that reads: its contract is the call's, with the reader's own answer.
fn load<R: Reader, A: Aead>(
    alloc: Global,
    stored: &mut R,
    master: &A,
    tenant: &[u8],
) -> Result<Handle, TinkError>
    ensures { GivesBy (decrypted (A.decrypts master.now) tenant.now) result (R.reads_encrypted stored.old) (R.faults stored.old) (R.faults stored.new) }
{
    Handle::read_with_associated_data(alloc, stored, master, tenant)
}

/// A symmetric key of id 7 with the URL of the tests, and a destroyed key of id 8, in the wire format.
pub const TWO: &[u8] =
    b"\x08\x07\x12\x1d\x0a\x15\x0a\x0dtype.test/key\x12\x02\xaa\xbb\x18\x01\x10\x01\x18\x07\x20\x01\x12\x06\x10\x03\x18\x08\x20\x03";

/// Their info.
pub const TWO_INFO: &[u8] =
    b"\x08\x07\x12\x15\x0a\x0dtype.test/key\x10\x01\x18\x07\x20\x01\x12\x06\x10\x03\x18\x08\x20\x03";

/// A public key of id 7.
pub const PUBLIC: &[u8] =
    b"\x08\x07\x12\x1d\x0a\x15\x0a\x0dtype.test/key\x12\x02\xaa\xbb\x18\x03\x10\x01\x18\x07\x20\x01";

/// How a keyset is written and read.
pub enum How {
    /// Under the master that binds its associated data, with none given, and with these.
    Bound,
    With(&'static [u8]),
    /// Under a master that refuses.
    Refused,
    /// As one without secrets.
    Plain,
    /// As it is.
    AsItIs,
}

/// What is done with an end.
pub enum Step {
    /// The keyset of these bytes is written.
    Write(How, &'static [u8]),
    /// One of these bytes is read.
    Read(How, &'static [u8]),
    /// One with an info of these bytes is.
    Info(How, &'static [u8]),
    /// One is read so, and written so.
    Again(How, How),
    /// The end takes a keyset of these bytes, or an encrypted one, whatever it is.
    Put(&'static [u8]),
    PutEncrypted(&'static [u8]),
    /// The law writes two keys with the data aa, and reads them with these.
    Law(&'static [u8]),
}

// The handle of a keyset, by the call that takes no secrets where it is the public one.
fn handle(alloc: Global, bytes: &[u8]) -> Result<Handle, TinkError> {
    let ks = decode(alloc, bytes)?;
    if bytes == PUBLIC {
        Handle::new_with_no_secrets(ks)
    } else {
        new_handle(ks)
    }
}

fn write<W: Writer>(
    alloc: Global,
    end: &mut W,
    how: &How,
    h: &Handle,
    draws: &mut Draws,
) -> Result<(), TinkError> {
    match how {
        How::Bound => h.write(alloc, end, &Binding, draws),
        How::With(data) => h.write_with_associated_data(alloc, end, &Binding, data, draws),
        How::Refused => h.write(alloc, end, &refusing(alloc), draws),
        How::Plain => h.write_with_no_secrets(alloc, end),
        How::AsItIs => insecure::write(alloc, h, end),
    }
}

// It refuses to encrypt without draws, and to decrypt less than a key.
fn refusing(alloc: Global) -> TestAead {
    TestAead {
        key: Bytes::new(alloc),
    }
}

fn write_of<W: Writer>(
    alloc: Global,
    end: &mut W,
    how: &How,
    h: Result<Handle, TinkError>,
    draws: &mut Draws,
) -> Result<(), TinkError> {
    match h {
        Ok(h) => write(alloc, end, how, &h, draws),
        Err(e) => Err(e),
    }
}

fn read<R: Reader>(alloc: Global, end: &mut R, how: &How) -> Result<Handle, TinkError> {
    match how {
        How::Bound => Handle::read(alloc, end, &Binding),
        How::With(data) => load(alloc, end, &Binding, data),
        How::Refused => Handle::read(alloc, end, &refusing(alloc)),
        How::Plain => Handle::read_with_no_secrets(alloc, end),
        How::AsItIs => insecure::read(alloc, end),
    }
}

fn bytes_by(alloc: Global, read: Result<Handle, TinkError>) -> Result<Bytes, TinkError> {
    match read {
        Ok(h) => bytes_of(alloc, &h),
        Err(e) => Err(e),
    }
}

fn by_the_law(
    alloc: Global,
    h: Result<Handle, TinkError>,
    other: &[u8],
    draws: &mut Draws,
) -> Result<Handle, TinkError> {
    match h {
        Ok(h) => law_written_is_read(alloc, &h, &Binding, b"\xaa", other, draws),
        Err(e) => Err(e),
    }
}

fn is_info(alloc: Global, info: &KeysetInfo, want: &[u8]) -> Result<bool, TinkError> {
    match info.encode(alloc) {
        Ok(bytes) => Ok(bytes.as_slice() == want),
        Err(_) => Err(TinkError::new(Kind::OutOfMemory)),
    }
}

fn has_info(
    alloc: Global,
    read: Result<Handle, TinkError>,
    want: &[u8],
) -> Result<bool, TinkError> {
    match read?.keyset_info(alloc) {
        Ok(info) => is_info(alloc, &info, want),
        Err(e) => Err(e),
    }
}

/// What an end answers.
pub fn answer_row<E: Reader + Writer>(
    alloc: Global,
    end: &mut E,
    step: &Step,
    draws: &mut Draws,
) -> Result<bool, TinkError> {
    match step {
        Step::Write(how, keys) => succeeds(write_of(alloc, end, how, handle(alloc, keys), draws)),
        Step::Read(how, keys) => gives(bytes_by(alloc, read(alloc, end, how)), keys),
        Step::Info(how, want) => has_info(alloc, read(alloc, end, how), want),
        Step::Again(from, to) => {
            let h = read(alloc, end, from);
            succeeds(write_of(alloc, end, to, h, draws))
        }
        Step::Put(bytes) => succeeds(put(alloc, end, decode(alloc, bytes))),
        Step::PutEncrypted(bytes) => succeeds(put_encrypted(alloc, end, bytes)),
        Step::Law(other) => {
            let read = by_the_law(alloc, handle(alloc, TWO), other, draws);
            gives(bytes_by(alloc, read), TWO)
        }
    }
}

/// What lies in memory.
pub enum Kept {
    Nothing,
    Keyset,
    /// An encrypted keyset, with this info or none.
    Encrypted(&'static [u8]),
}

fn shows(
    alloc: Global,
    encrypted: &Option<EncryptedKeyset>,
    want: &[u8],
) -> Result<bool, TinkError> {
    match encrypted {
        Some(ks) => match &ks.keyset_info {
            Some(info) => Ok(!want.is_empty() && is_info(alloc, info, want) == Ok(true)),
            None => Ok(want.is_empty()),
        },
        None => Ok(false),
    }
}

fn keeps(
    alloc: Global,
    memory: &MemReaderWriter,
    kept: &Kept,
    is_left: bool,
) -> Result<bool, TinkError> {
    let keyset = memory.keyset.is_some();
    let other = memory.encrypted_keyset.is_some();
    match kept {
        Kept::Nothing => Ok(is_left && !keyset && !other),
        Kept::Keyset => Ok(is_left && keyset && !other),
        Kept::Encrypted(_) if keyset || !is_left => Ok(false),
        Kept::Encrypted(info) => shows(alloc, &memory.encrypted_keyset, info),
    }
}

/// What is done with memory, the answer, what lies in it then, and how many draws are left.
pub type Row = (&'static str, Step, Answer, Kept, usize);

const FAILED: Answer = Err(Kind::MasterFailed);

// What is written is read under the same data alone.
const WITH_DATA: &[Row] = &[
    (
        "what is written with data",
        Step::Write(How::With(b"\xaa"), TWO),
        Ok(true),
        Kept::Encrypted(TWO_INFO),
        3,
    ),
    (
        "the same data",
        Step::Read(How::With(b"\xaa"), TWO),
        Ok(true),
        Kept::Encrypted(TWO_INFO),
        3,
    ),
    (
        "other data",
        Step::Read(How::With(b"\xab"), TWO),
        FAILED,
        Kept::Encrypted(TWO_INFO),
        3,
    ),
];

// Empty data is meant where none is given.
const WITHOUT_DATA: &[Row] = &[
    (
        "what is written without data",
        Step::Write(How::Bound, TWO),
        Ok(true),
        Kept::Encrypted(TWO_INFO),
        2,
    ),
    (
        "no data",
        Step::Read(How::Bound, TWO),
        Ok(true),
        Kept::Encrypted(TWO_INFO),
        2,
    ),
    (
        "empty data",
        Step::Read(How::With(b""), TWO),
        Ok(true),
        Kept::Encrypted(TWO_INFO),
        2,
    ),
];

const BY_THE_LAW: &[Row] = &[
    (
        "the law with the same data",
        Step::Law(b"\xaa"),
        Ok(true),
        Kept::Nothing,
        1,
    ),
    (
        "the law with other data",
        Step::Law(b"\xab"),
        FAILED,
        Kept::Nothing,
        0,
    ),
];

// What a master gives may be no keyset: behind one draw no bytes; an enabled key of id 7 without data; and then bytes
// that are no field.
const NO_KEYSETS: &[Row] = &[
    (
        "what is encrypted of no bytes",
        Step::PutEncrypted(b"d"),
        Ok(true),
        Kept::Encrypted(b""),
        0,
    ),
    (
        "what the master gives of no bytes",
        Step::Read(How::Bound, b""),
        Ok(true),
        Kept::Encrypted(b""),
        0,
    ),
    (
        "a master that refuses",
        Step::Read(How::Refused, b""),
        FAILED,
        Kept::Encrypted(b""),
        0,
    ),
    (
        "what is encrypted of a key without data",
        Step::PutEncrypted(b"d\x12\x04\x10\x01\x18\x07"),
        Ok(true),
        Kept::Encrypted(b""),
        0,
    ),
    (
        "a key without data",
        Step::Read(How::Bound, b""),
        Err(Kind::InvalidKeyset),
        Kept::Encrypted(b""),
        0,
    ),
    (
        "what is encrypted of a key that is cut off",
        Step::PutEncrypted(b"d\x12\x04\x10\x01\x18"),
        Ok(true),
        Kept::Encrypted(b""),
        0,
    ),
    (
        "a key that is cut off",
        Step::Read(How::Bound, b""),
        Err(Kind::BadKeyset),
        Kept::Encrypted(b""),
        0,
    ),
];

fn walk(verdict: &mut Verdict, alloc: Global, draws: &mut Draws, rows: &[Row]) {
    let mut memory = MemReaderWriter::default();
    for (row, step, want, kept, left) in rows {
        let got = answer_row(alloc, &mut memory, step, draws);
        verdict.expect(got, *want, row);
        let is_left = draws.left() == *left;
        verdict.expect(keeps(alloc, &memory, kept, is_left), Ok(true), row);
    }
}

// Each table is of a new memory.
const TABLES: &[&[Row]] = &[
    WITH_DATA,
    WITHOUT_DATA,
    BY_THE_LAW,
    NO_KEYSETS,
    NOTHING,
    PLAIN,
    SECRETS,
];

pub fn keysets_go_through_memory(alloc: Global, verdict: &mut Verdict) {
    match draws_of(alloc, b"draw") {
        Ok(mut draws) => {
            for rows in TABLES {
                walk(verdict, alloc, &mut draws, rows);
            }
        }
        Err(e) => verdict.expect(Err(e), Ok(true), "draws"),
    }
}
