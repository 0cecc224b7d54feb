//! A regular file that is read in any place.

ghost use Rattle.std.specs.Prelude.{◌≡◌, ◌≤◌, ◌<◌, ◌-◌, ⊤, length, None, IfOk, IfErr};
ghost use Rattle.tink_unix.specs.OfStatus.{IsOfStatus};

use crate::apart::{IS_OUTPUT, is_output, lock};
use crate::refusals::{refuse_read, unreadable};
use std::fs;
use std::fs::{File, OpenFile};
use std::io::ErrorKind;
use std::os::unix::fs::FileExt;
use tink_io::Failed;
use tink_range::ReadAt;
use tink_system::Trouble;
use tink_unix_names::meter::Meter;
use tink_unix_names::names::text_of;
use tink_unix_names::reasons::{CUT_SHORT, NONE, TOO_MANY, code_of};

// How often a call that was interrupted is made again.
const TRIES: usize = 1_000;

const EINTR: i32 = 4;

/// A file, with its size at the time when it was opened. No clause knows its bytes.
#[derive(Drop)]
pub struct Object {
    file: File,
    size: u64,
    rt: HostRuntime,
    meter: Meter,
    pub(crate) code: i32,
    faults: u64,
}

impl Object {
    /// Opens a file. If it may, it shows the progress of `total` bytes.
    pub(crate) fn open<'w>(
        rt: HostRuntime,
        name: &'w [u8],
        total: u64,
        may_show: bool,
    ) -> Result<Object, Trouble<'w>>
        ensures { IfErr result (IsOfStatus 11) }
    {
        let text = match text_of(name) {
            Ok(text) => text,
            Err(code) => return Err(unreadable(name, code)),
        };
        require_regular(&rt, name, text)?;
        let file = match File::open(&rt, text) {
            Ok(file) => file,
            Err(e) => return Err(unreadable(name, code_of(e))),
        };
        lock(&file);
        let size = match file.metadata() {
            Ok(found) => found.len(),
            Err(e) => return Err(unreadable(name, code_of(e))),
        };
        Ok(Object {
            file,
            size,
            rt,
            meter: Meter::new(&rt, Some(total.min(size)), may_show),
            code: NONE,
            faults: 0,
        })
    }

    /// Clears the line on which the progress is shown.
    pub(crate) fn end(&self) {
        self.meter.end(&self.rt);
    }
}

// A pipe is not opened: that would wait for its writer.
fn require_regular<'w>(rt: &HostRuntime, name: &'w [u8], text: &str) -> Result<(), Trouble<'w>>
    ensures { IfErr result (IsOfStatus 11) }
{
    match fs::metadata(rt, text) {
        Ok(found) if is_output(rt, &found) => Err(refuse_read(name, IS_OUTPUT)),
        Ok(found) if found.is_file() => Ok(()),
        Ok(found) if found.is_dir() => Err(refuse_read(name, "it is a folder")),
        Ok(_) => Err(refuse_read(name, "it is no regular file: copy its bytes into one first")),
        Err(e) => Err(unreadable(name, code_of(e))),
    }
}

impl ReadAt for Object {
    ghost length_of = { λ a. a.size };

    ghost bytes = { λ _. None };

    ghost faults = { λ a. a.faults };

    ghost taken = { λ _. 0 };

    ghost same = { λ _ _. ⊤ };

    fn size(&self) -> u64 {
        self.size
    }

    fn read_at(&mut self, pos: u64, buf: &mut [u8]) -> Result<usize, Failed> {
        let left = self.size.saturating_sub(pos);
        let most = buf.len().min(usize::try_from(left).unwrap_or(usize::MAX));
        if most == 0 {
            return Ok(0);
        }
        match read_retrying(&self.file, pos, &mut buf[..most]) {
            Ok(count) => {
                self.meter.add(&self.rt, count as u64);
                Ok(count)
            }
            Err(code) => {
                self.code = code;
                self.faults = self.faults.saturating_add(1);
                Err(Failed)
            }
        }
    }

    ghost told = { λ _. tt };

    ghost same_refl = { λ _. tt };

    ghost same_trans = { λ _ _ _ _ _. tt };
}

// Reads a byte at least, again where it was interrupted, or answers the error's number.
fn read_retrying(file: &File, pos: u64, buf: &mut [u8]) -> Result<usize, i32>
    ensures bound { IfOk result (λ n. n ≤ length buf.old) }
    ensures some { IfOk result (λ n. 0 < n) }
{
    for _ in 0..TRIES {
        match file.read_at(buf, pos) {
            Ok(0) => return Err(CUT_SHORT),
            Ok(count) if count <= buf.len() => return Ok(count),
            Ok(_) => return Err(TOO_MANY),
            Err(e) => {
                if e.kind() != ErrorKind::Interrupted {
                    return Err(code_of(e));
                }
            }
        }
    }
    Err(EINTR)
}
