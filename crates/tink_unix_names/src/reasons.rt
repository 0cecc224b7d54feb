//! Why the system refused, in a few plain words.

use std::io::{Error, ErrorKind};

/// No reason was kept.
pub const NONE: i32 = 0;

/// A write took no byte.
pub const WROTE_NOTHING: i32 = -1;

/// The draft has another name now, or none.
pub const DRAFT_GONE: i32 = -2;

/// A name is not UTF-8, and std takes no other.
pub const NOT_UTF8: i32 = -3;

/// A write took more bytes than it was given, or a read gave more than there was room for.
pub const TOO_MANY: i32 = -4;

/// A read found no byte in front of the end.
pub const CUT_SHORT: i32 = -5;

const TOO_OFTEN: i32 = 4;

const NO_MEMORY: i32 = 12;

/// The number of an error: errno, or one of the numbers below 0 above.
pub fn code_of(error: Error) -> i32 {
    match error.raw_os_error() {
        Some(code) => code,
        None => match error.kind() {
            ErrorKind::OutOfMemory => NO_MEMORY,
            ErrorKind::Interrupted => TOO_OFTEN,
            ErrorKind::InvalidFilename => NOT_UTF8,
            ErrorKind::WriteZero => WROTE_NOTHING,
            _ => NONE,
        },
    }
}

/// The reason behind an error's number, as Linux counts them.
pub fn reason_of_errno(code: i32) -> &'static str {
    match code {
        WROTE_NOTHING => "nothing could be written",
        DRAFT_GONE => "another program took its draft away",
        NOT_UTF8 => "its name is not UTF-8",
        CUT_SHORT => "it became shorter while it was read",
        _ => files(code),
    }
}

// Errors of files and folders.
fn files(code: i32) -> &'static str {
    match code {
        1 => "the system does not allow it",
        2 => "no such file",
        13 => "no permission",
        17 => "a file has this name",
        18 => "it is on another file system",
        20 => "a part of its path is no folder",
        21 => "it is a folder",
        26 => "it is a program that runs",
        27 => "file too large",
        28 => "no space left",
        30 => "read-only file system",
        31 => "too many names of one file",
        36 => "name too long",
        40 => "too many links to follow",
        122 => "quota used up",
        _ => devices(code),
    }
}

// Errors of devices, pipes and the process.
fn devices(code: i32) -> &'static str {
    match code {
        4 => "interrupted too often",
        5 => "input/output error",
        6 => "it is a socket, or no such device",
        19 => "no such device",
        9 => "it is not open",
        11 | 16 => "it is busy",
        12 => "out of memory",
        23 | 24 => "too many open files",
        32 => "broken pipe: nobody reads it",
        22 | 37 | 38 | 95 => "this file system cannot do it",
        75 => "file too large",
        110 => "no answer in time",
        116 => "the server has lost it",
        123 => "no medium in the drive",
        _ => "the system refused",
    }
}
