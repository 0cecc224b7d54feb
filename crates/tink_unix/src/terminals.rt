//! Terminals.

use std::fs;
use std::fs::{OpenFile, OpenOptions};
use std::io::IsTerminal;
use std::os::unix::fs::FileTypeExt;
use tink_unix_names::names::text_of;
use tink_unix_names::standard::{Standard, standard_of};

/// Whether progress is shown.
pub fn may_show(rt: HostRuntime, is_quiet: bool) -> bool {
    !is_quiet && rt.stderr().is_terminal()
}

/// Whether a name leads to a terminal: by an open descriptor, or as a device. If it cannot be opened, the answer is no.
pub fn leads_to_terminal(rt: &HostRuntime, name: &[u8]) -> bool {
    let text = match text_of(name) {
        Ok(text) => text,
        Err(_) => return false,
    };
    match standard_of(rt, text) {
        Some(Standard::Output) => return rt.stdout().is_terminal(),
        Some(Standard::Error) => return rt.stderr().is_terminal(),
        _ => {}
    }
    match fs::metadata(rt, text) {
        Ok(found) if found.file_type().is_char_device() => {}
        _ => return false,
    }
    match OpenOptions::new().write(true).open(rt, text) {
        Ok(file) => file.is_terminal(),
        Err(_) => false,
    }
}
