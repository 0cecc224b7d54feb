//! Names of files: what a link leads to, the folder of a name, and the names of drafts.

ghost use Rattle.std.specs.Prelude.{◌≡◌, ◌++◌};

use crate::reasons::{NOT_UTF8, code_of};
use std::alloc::AllocError;
use std::fs;

const EINVAL: i32 = 22;

const ENOENT: i32 = 2;

const ELOOP: i32 = 40;

const ENOMEM: i32 = 12;

// As many links as Linux follows.
const MOST_LINKS: usize = 40;

// A name of more bytes is shortened before it becomes that of a draft.
const MOST_BYTES: usize = 128;

// How many bytes of a longer name its draft keeps.
const KEPT_BYTES: usize = 96;

// How the names of drafts end.
const ENDS: [&str; 10] = [
    ".tink.part",
    ".tink-1.part",
    ".tink-2.part",
    ".tink-3.part",
    ".tink-4.part",
    ".tink-5.part",
    ".tink-6.part",
    ".tink-7.part",
    ".tink-8.part",
    ".tink-9.part",
];

/// Which draft of a file.
#[derive(Clone, Copy)]
pub enum Which {
    /// That of a change. There is one at a time.
    Change,
    /// One of those of runs that replace the file or make it, from 1 on.
    Numbered(u8),
}

/// A name as std takes it.
///
/// # Errors
/// `NOT_UTF8` if the name is not UTF-8.
pub fn text_of(name: &[u8]) -> Result<&str, i32> {
    match str::from_utf8(name) {
        Ok(text) => Ok(text),
        Err(_) => Err(NOT_UTF8),
    }
}

/// The name behind the links that a name ends in. The last of them may lead to a name that no file has.
///
/// # Errors
/// The number of the system's error: ELOOP if there are 40 links or more, ENOMEM if there is no memory.
pub fn follow(rt: &HostRuntime, name: &str) -> Result<String, i32> {
    let mut path = match String::from_str(rt.alloc(), name) {
        Ok(path) => path,
        Err(_) => return Err(ENOMEM),
    };
    for _ in 0..MOST_LINKS {
        match step(rt, path.as_str())? {
            Some(next) => path = next,
            None => return Ok(path),
        }
    }
    Err(ELOOP)
}

/// The name to which a link leads, or none if the name is of no link.
///
/// # Errors
/// The number of the system's error, ENOMEM if there is no memory.
pub fn step(rt: &HostRuntime, path: &str) -> Result<Option<String>, i32> {
    match fs::read_link(rt, path) {
        Ok(target) => match join_link(rt, path, target.as_str()) {
            Ok(next) => Ok(Some(next)),
            Err(_) => Err(ENOMEM),
        },
        Err(e) => match code_of(e) {
            EINVAL | ENOENT => Ok(None),
            code => Err(code),
        },
    }
}

// A link's text, seen from the folder in which the link is.
fn join_link(rt: &HostRuntime, link: &str, target: &str) -> Result<String, AllocError> {
    if target.starts_with('/') {
        return String::from_str(rt.alloc(), target);
    }
    let (folder, _) = parts_of(link);
    let mut whole = String::from_str(rt.alloc(), folder)?;
    whole.push_str(target)?;
    Ok(whole)
}

/// A path up to its last slash, and the name behind it.
pub fn parts_of(path: &str) -> (&str, &str)
    ensures { path.now ≡ result.0.now ++ result.1.now }
{
    match path.rfind('/') {
        Some(at) => match path.split_at_checked(at + 1) {
            Some(parts) => parts,
            None => ("", path),
        },
        None => ("", path),
    }
}

/// The folder in which a path is, as a name that can be opened.
pub fn folder_of(path: &str) -> &str {
    match parts_of(path) {
        ("", _) => ".",
        (folder, _) => folder,
    }
}

/// The name of a draft, in the folder of its file.
///
/// # Errors
/// `AllocError` if there is no memory.
pub fn draft_name(rt: &HostRuntime, target: &str, which: Which) -> Result<String, AllocError> {
    let (folder, name) = parts_of(target);
    let mut path = String::from_str(rt.alloc(), folder)?;
    if name.len() <= MOST_BYTES {
        path.push_str(name)?;
    } else {
        path.push_str(front_of(name))?;
        let sum = sum_of(name.as_bytes());
        let short = format!(in rt.alloc(); "~{sum:016x}")?;
        path.push_str(short.as_str())?;
    }
    match which {
        Which::Change => path.push_str(".tink.part")?,
        Which::Numbered(number) => {
            let end = format!(in rt.alloc(); ".tink-{number}.part")?;
            path.push_str(end.as_str())?;
        }
    }
    Ok(path)
}

/// Whether a path ends as the name of a draft does. A run that writes the file of this draft would take it for a leftover.
pub fn is_name_of_draft(path: &str) -> bool {
    for end in ENDS {
        if path.ends_with(end) {
            return true;
        }
    }
    false
}

// The first bytes of a long name, without a part of a character.
fn front_of(name: &str) -> &str {
    for less in 0..4 {
        if let Some((front, _)) = name.split_at_checked(KEPT_BYTES - less) {
            return front;
        }
    }
    ""
}

// FNV-1a, of 64 bits: names that begin alike get drafts of different names.
fn sum_of(name: &[u8]) -> u64 {
    let mut sum = 0xcbf2_9ce4_8422_2325u64;
    for byte in name {
        sum = (sum ^ u64::from(*byte)).wrapping_mul(0x100_0000_01b3);
    }
    sum
}
