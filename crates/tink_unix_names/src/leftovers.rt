//! Drafts that a run left which was cut off.
//!
//! A run holds the lock of its draft (`flock`) until it is shown or taken away, and the system ends the lock with the
//! process. So a draft that can be locked is of no run any more, and is taken away. It is never emptied. After a run
//! that was cut off between two steps it may be a second name of the file that was shown.

use crate::file_id::FileId;
use crate::names::{Which, draft_name};
use crate::notes::note;
use crate::reasons::{code_of, reason_of_errno};
use std::fs;
use std::fs::{File, OpenFile, OpenOptions, TryLockError};
use std::os::unix::fs::MetadataExt;

const ENOENT: i32 = 2;

/// How many runs may write one file at once.
pub const MOST_RUNS: u8 = 9;

/// What became of a draft that was there.
#[derive(Clone, Copy)]
pub enum Cleared {
    /// It is no more.
    Gone,
    /// A run holds it.
    Busy,
    /// It is no file of this user, or it cannot be locked or taken away.
    Foreign,
}

/// Takes all drafts of a file away that no run holds.
pub fn sweep(rt: &HostRuntime, target: &str) {
    clear_named(rt, target, Which::Change);
    for number in 1..=MOST_RUNS {
        clear_named(rt, target, Which::Numbered(number));
    }
}

fn clear_named(rt: &HostRuntime, target: &str, which: Which) {
    match draft_name(rt, target, which) {
        Ok(path) => {
            let _cleared = clear(rt, path.as_str());
        }
        Err(_) => {}
    }
}

/// Takes a draft away if no run holds it.
pub fn clear(rt: &HostRuntime, path: &str) -> Cleared {
    match fs::symlink_metadata(rt, path) {
        Ok(found) if found.is_file() => {}
        Ok(_) => return Cleared::Foreign,
        Err(e) => return gone_or_foreign(code_of(e)),
    }
    let file = match OpenOptions::new().read(true).write(true).open(rt, path) {
        Ok(file) => file,
        Err(e) => return gone_or_foreign(code_of(e)),
    };
    match file.try_lock() {
        Ok(()) => {}
        Err(TryLockError::WouldBlock) => return Cleared::Busy,
        Err(TryLockError::Error(_)) => return Cleared::Foreign,
    }
    if !names_this(rt, path, &file) {
        return Cleared::Busy;
    }
    remove(rt, path, &file)
}

fn gone_or_foreign(code: i32) -> Cleared {
    if code == ENOENT {
        Cleared::Gone
    } else {
        Cleared::Foreign
    }
}

// Removes a draft whose lock is held. A line says so if it has bytes and no other name.
fn remove(rt: &HostRuntime, path: &str, file: &File) -> Cleared {
    let is_lone = match file.metadata() {
        Ok(found) => found.nlink() == 1 && found.len() > 0,
        Err(_) => false,
    };
    match fs::remove_file(rt, path) {
        Ok(()) => {
            if is_lone {
                note(rt, path, &["removed: a run that was cut off had left it"]);
            }
            Cleared::Gone
        }
        Err(_) => Cleared::Foreign,
    }
}

/// Removes a draft of this run. If the system refuses, a line says that it is left.
pub fn take_away(rt: &HostRuntime, path: &str) {
    match fs::remove_file(rt, path) {
        Ok(()) => {}
        Err(e) => match code_of(e) {
            ENOENT => {}
            code => note(
                rt,
                path,
                &[
                    "this draft is left, since it cannot be removed (",
                    reason_of_errno(code),
                    "): remove it",
                ],
            ),
        },
    }
}

/// Whether a path is the name of this very file. If the system does not answer, it is not.
pub fn names_this(rt: &HostRuntime, path: &str, file: &File) -> bool {
    match is_name_of(rt, path, file) {
        Ok(is) => is,
        Err(_) => false,
    }
}

/// Whether a path is the name of this very file.
///
/// # Errors
/// The number of the system's error, if the system does not answer.
pub fn is_name_of(rt: &HostRuntime, path: &str, file: &File) -> Result<bool, i32> {
    let named = match fs::symlink_metadata(rt, path) {
        Ok(named) => named,
        Err(e) => match code_of(e) {
            ENOENT => return Ok(false),
            code => return Err(code),
        },
    };
    match file.metadata() {
        Ok(open) => Ok(FileId::of(&named) == FileId::of(&open)),
        Err(e) => Err(code_of(e)),
    }
}
