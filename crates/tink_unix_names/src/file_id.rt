//! Which file it is.

use std::fs;
use std::fs::Metadata;
use std::os::unix::fs::MetadataExt;

/// Which file it is: its device and its inode. Two names are of one file if these are equal.
#[derive(Clone, Copy, PartialEq, Eq)]
pub struct FileId {
    device: u64,
    inode: u64,
}

impl FileId {
    /// Which file an answer of the system is of.
    pub fn of(found: &Metadata) -> FileId {
        FileId {
            device: found.dev(),
            inode: found.ino(),
        }
    }

    /// Which regular file a name is of, behind all links.
    pub fn of_regular(rt: &HostRuntime, name: &str) -> Option<FileId> {
        match fs::metadata(rt, name) {
            Ok(found) if found.is_file() => Some(FileId::of(&found)),
            _ => None,
        }
    }

    /// Which file a name is of. A link is a file of its own here.
    pub fn of_link(rt: &HostRuntime, name: &str) -> Option<FileId> {
        match fs::symlink_metadata(rt, name) {
            Ok(found) => Some(FileId::of(&found)),
            Err(_) => None,
        }
    }
}
