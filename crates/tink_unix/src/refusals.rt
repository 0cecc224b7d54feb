//! What hinders a file from being read or written.

ghost use Rattle.tink_unix.specs.OfStatus.{IsOfStatus};

use tink_io::Kind;
use tink_system::Trouble;
use tink_unix_names::reasons::{NOT_UTF8, reason_of_errno};

const ENOENT: i32 = 2;

const ENOMEM: i32 = 12;

const EACCES: i32 = 13;

/// A refusal by text, of a name that is to be read.
pub fn refuse_read<'w>(name: &'w [u8], why: &'static str) -> Trouble<'w>
    ensures { IsOfStatus 11 result }
{
    Trouble::Unusable(name, why, 11)
}

/// A refusal by text, of a name that is to be written.
pub fn refuse_write<'w>(name: &'w [u8], why: &'static str) -> Trouble<'w>
    ensures { IsOfStatus 12 result }
{
    Trouble::Unusable(name, why, 12)
}

/// What hinders a file from being read, by the error's number.
pub fn unreadable<'w>(name: &'w [u8], code: i32) -> Trouble<'w>
    ensures { IsOfStatus 11 result }
{
    match code {
        ENOENT => refuse_read(name, "there is no such file"),
        EACCES => refuse_read(name, "you may not read it"),
        ENOMEM => Trouble::Refused(name, Kind::OutOfMemory),
        NOT_UTF8 => refuse_read(
            name,
            "its name is not UTF-8, and this program opens no such file: rename it, or redirect it by <",
        ),
        _ => refuse_read(name, reason_of_errno(code)),
    }
}

/// What hinders a file from being written, by the error's number.
pub fn unwritable<'w>(name: &'w [u8], code: i32) -> Trouble<'w>
    ensures { IsOfStatus 12 result }
{
    match code {
        ENOENT => refuse_write(name, "its folder is not there"),
        EACCES => refuse_write(name, "you may not write into its folder"),
        ENOMEM => Trouble::Refused(name, Kind::OutOfMemory),
        NOT_UTF8 => refuse_write(
            name,
            "its name is not UTF-8, and this program opens no such file: choose another, or redirect the output by >",
        ),
        _ => refuse_write(name, reason_of_errno(code)),
    }
}
