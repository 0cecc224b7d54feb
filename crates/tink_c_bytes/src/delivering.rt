//! What a call made goes into the caller's buffer.

ghost use Rattle.std.specs.Prelude.{◌≡◌, ℕ, List, Result, Ok};
ghost use Rattle.tink_io.specs.Answering.{Answers};
ghost use Rattle.tink_io.specs.declared.error.Kind.{Kind};
ghost use Rattle.tink_c_bytes.specs.Delivered.{Delivers, Puts, Reports, handed};
ghost use Rattle.tink_c_bytes.specs.Statuses.{c_status};

use tink_io::{Kind, TinkError};
use tink_proto::Bytes;

/// The call did what it says.
pub const OK: u8 = 0;

/// The caller's buffer is too short for the output.
pub const TOO_LITTLE_ROOM: u8 = 42;

/// The status of an error: that of the program `tink`, and above 40 of an error that the program does not have.
pub fn status(kind: Kind) -> u8
    ensures { result ≡ c_status kind }
{
    match kind {
        Kind::BadJson => 30,
        Kind::KeyNotFound => 31,
        Kind::IsPrimary => 32,
        Kind::WrongStatus(_) | Kind::NotEnabled => 33,
        Kind::MasterFailed => 34,
        Kind::RandomFault => 35,
        Kind::KeysetTooLong => 13,
        Kind::Closed => 43,
        Kind::DecryptFailed => 44,
        Kind::FailedBefore(_) => 45,
        Kind::TextTooLong | Kind::LengthOverU32 => 46,
        Kind::DataTooLong => 47,
        Kind::NotRawOnly => 48,
        Kind::OutputTooLong | Kind::TagTooSmall => 49,
        _ => tink_io::refusals::status(kind),
    }
}

/// Puts the bytes that a call made at the beginning of `out`, writes how many there are, and answers the status. If
/// they are longer than `out`, `out` stays as it is and their length is written. After an error 0 is written.
pub fn deliver(made: Result<Bytes, TinkError>, out: &mut [u8], written: &mut usize) -> u8
    ensures puts { Puts made (handed out.old out.new written.new result) }
    ensures told { (told : Result (List ℕ) Kind) → Answers made told
        → Delivers told (handed out.old out.new written.new result) }
{
    put_made(made, out, written)
}

// What `deliver` does. All that it promises follows from this.
fn put_made(made: Result<Bytes, TinkError>, out: &mut [u8], written: &mut usize) -> u8
    ensures { Puts made (handed out.old out.new written.new result) }
{
    match made {
        Ok(bytes) => put(bytes.as_slice(), out, written),
        Err(e) => {
            *written = 0;
            status(e.kind)
        }
    }
}

/// The status of a call that gives no output.
pub fn report(done: Result<(), TinkError>) -> u8
    ensures { (told : Result (Unit {0}) Kind) → Answers done told → Reports told result }
{
    match done {
        Ok(()) => OK,
        Err(e) => status(e.kind),
    }
}

// Puts bytes at the beginning of a buffer, if they fit.
fn put(bytes: &[u8], out: &mut [u8], written: &mut usize) -> u8
    ensures { Puts (Ok bytes.now) (handed out.old out.new written.new result) }
{
    let n = bytes.len();
    *written = n;
    if out.len() < n {
        return TOO_LITTLE_ROOM;
    }
    out[..n].copy_from_slice(bytes);
    OK
}
