//! The standard streams, and names that lead to an open descriptor.

use crate::names::{folder_of, parts_of, step};
use crate::reasons::code_of;
use std::fs::{File, OpenOptions};
use std::os::fd::{AsFd, IntoRawFd};
use std::{fs, process};

const EBADF: i32 = 9;

// As many links as Linux follows.
const MOST_LINKS: usize = 40;

/// Opens those of standard input, output and error that are closed. So no file that the program opens later is taken
/// for one of them. A read from what was closed fails, and so does a write to it. It is called before any file is
/// opened.
pub fn occupy_standard_streams(rt: &HostRuntime) {
    if is_closed(&rt.stdin()) {
        occupy(rt, false);
    }
    if is_closed(&rt.stdout()) {
        occupy(rt, true);
    }
    if is_closed(&rt.stderr()) {
        occupy(rt, true);
    }
}

// Whether no file is open under the stream's number.
fn is_closed<F: AsFd>(stream: &F) -> bool {
    let fd = stream.as_fd();
    match fd.try_clone_to_owned() {
        Ok(_) => false,
        Err(e) => code_of(e) == EBADF,
    }
}

// Opens the null device under the lowest number that is free, for reading or for writing alone. If there is no null
// device the root folder takes its place: no byte of it can be read or written.
fn occupy(rt: &HostRuntime, reads: bool) {
    let opened = OpenOptions::new()
        .read(reads)
        .write(!reads)
        .open(rt, "/dev/null");
    match opened {
        Ok(file) => {
            let _stays_open = file.into_raw_fd();
        }
        Err(_) => match File::open(rt, "/") {
            Ok(folder) => {
                let _stays_open = folder.into_raw_fd();
            }
            Err(_) => {}
        },
    }
}

/// What a name that leads to an open descriptor is of.
#[derive(Clone, Copy)]
pub enum Standard {
    Input,
    Output,
    Error,
    /// Another descriptor of this process, or one of another process.
    Other,
}

/// The descriptor to which a name leads, as `/dev/stdout` and links to it do. Opening that name anew would lose the place
/// in the file, and that it is written at its end.
pub fn standard_of(rt: &HostRuntime, name: &str) -> Option<Standard> {
    let mut path = match String::from_str(rt.alloc(), name) {
        Ok(path) => path,
        Err(_) => return None,
    };
    for _ in 0..MOST_LINKS {
        let found = descriptor_at(rt, path.as_str());
        if found.is_some() {
            return found;
        }
        match step(rt, path.as_str()) {
            Ok(Some(next)) => path = next,
            _ => return None,
        }
    }
    None
}

// The same of a name whose last part is no link, or a descriptor's.
fn descriptor_at(rt: &HostRuntime, path: &str) -> Option<Standard> {
    let (_, name) = parts_of(path);
    if !is_number(name) {
        return None;
    }
    let folder = match fs::canonicalize(rt, folder_of(path)) {
        Ok(folder) => folder,
        Err(_) => return None,
    };
    let folder = folder.as_str();
    if !folder.starts_with("/proc/") || !folder.ends_with("/fd") {
        return None;
    }
    if !is_own(rt, folder) {
        return Some(Standard::Other);
    }
    match name {
        "0" => Some(Standard::Input),
        "1" => Some(Standard::Output),
        "2" => Some(Standard::Error),
        _ => Some(Standard::Other),
    }
}

// Whether all of a name is decimal digits.
fn is_number(name: &str) -> bool {
    for byte in name.as_bytes() {
        if !byte.is_ascii_digit() {
            return false;
        }
    }
    !name.is_empty()
}

// Whether a folder of descriptors is that of this process.
fn is_own(rt: &HostRuntime, folder: &str) -> bool {
    let id = process::id(rt.process());
    match format!(in rt.alloc(); "/proc/{id}/fd") {
        Ok(own) if own.as_str() == folder => return true,
        _ => {}
    }
    match format!(in rt.alloc(); "/proc/{id}/task/{id}/fd") {
        Ok(own) => own.as_str() == folder,
        Err(_) => false,
    }
}
