//! Files that one command may not name twice: a file that is read, and that standard output or a draft would change.

use std::fs::{File, Metadata};
use tink_unix_names::file_id::FileId;
use tink_unix_names::leftovers::MOST_RUNS;
use tink_unix_names::names::{Which, draft_name, follow, text_of};

/// The name of standard input, if /proc is mounted.
pub const INPUT: &str = "/proc/self/fd/0";

const OUTPUT: &str = "/proc/self/fd/1";

/// Why a file that standard output goes to is not read.
pub const IS_OUTPUT: &str = "standard output goes to this file: choose another with -o";

/// Which regular file a name is of.
pub fn id_at(rt: &HostRuntime, name: &[u8]) -> Option<FileId> {
    match text_of(name) {
        Ok(text) => FileId::of_regular(rt, text),
        Err(_) => None,
    }
}

/// Which regular file standard input comes from. If /proc is not mounted, it is not known.
pub fn id_of_input(rt: &HostRuntime) -> Option<FileId> {
    FileId::of_regular(rt, INPUT)
}

/// Whether standard output goes to this regular file. If /proc is not mounted, it is not known, and the answer is no.
pub fn is_output(rt: &HostRuntime, found: &Metadata) -> bool {
    found.is_file() && FileId::of_regular(rt, OUTPUT) == Some(FileId::of(found))
}

/// Whether standard input and standard output are one regular file.
pub fn is_input_output(rt: &HostRuntime) -> bool {
    let input = id_of_input(rt);
    input.is_some() && input == FileId::of_regular(rt, OUTPUT)
}

/// Whether standard input comes from the regular file of a name.
pub fn is_input(rt: &HostRuntime, name: &[u8]) -> bool {
    let file = id_at(rt, name);
    file.is_some() && file == id_of_input(rt)
}

/// Whether a file has the name of a draft of the file of another name. It would be taken for a leftover.
pub fn is_draft_of(rt: &HostRuntime, name: &str, file: FileId) -> bool {
    let target = match follow(rt, name) {
        Ok(target) => target,
        Err(_) => return false,
    };
    if is_draft(rt, target.as_str(), Which::Change, file) {
        return true;
    }
    for number in 1..=MOST_RUNS {
        if is_draft(rt, target.as_str(), Which::Numbered(number), file) {
            return true;
        }
    }
    false
}

fn is_draft(rt: &HostRuntime, target: &str, which: Which, file: FileId) -> bool {
    match draft_name(rt, target, which) {
        Ok(path) => FileId::of_link(rt, path.as_str()) == Some(file),
        Err(_) => false,
    }
}

/// Whether the last file that was read whole has the name of a draft of the file of a name. If it is that file itself, a run
/// that was cut off left it a second name, which may go.
pub fn is_draft_read(rt: &HostRuntime, name: &[u8], read: Option<FileId>) -> bool {
    match (text_of(name), read) {
        (Ok(text), Some(file)) => id_at(rt, name) != read && is_draft_of(rt, text, file),
        _ => false,
    }
}

/// Locks a file that is read, so that no run takes it for a leftover draft. If the file system has no locks, nothing is
/// locked.
pub fn lock(file: &File) {
    let _locked = file.try_lock_shared();
}
