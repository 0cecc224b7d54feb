//! A file or standard input that is read from its beginning.

ghost use Rattle.std.specs.Prelude.{◌≡◌, None, ⊤, IfErr};
ghost use Rattle.std.specs.Io.{ReadsAtMost};
ghost use Rattle.tink_unix.specs.OfStatus.{IsOfStatus};

use crate::apart::{INPUT, IS_OUTPUT, id_of_input, is_input_output, is_output, lock};
use crate::refusals::{refuse_read, unreadable};
use std::fs::{File, OpenFile};
use std::io::{ErrorKind, Read};
use std::rt::Stdin;
use std::{fs, io};
use tink_io::{Failed, Source};
use tink_system::Trouble;
use tink_unix_names::meter::Meter;
use tink_unix_names::names::text_of;
use tink_unix_names::reasons::{CUT_SHORT, NONE, TOO_MANY, code_of};
use tink_unix_names::standard::{Standard, standard_of};

// How often a call that was interrupted is made again.
const TRIES: usize = 1_000;

const EINTR: i32 = 4;

/// Where it is read from. If standard input is a regular file that may be opened, another handle of it holds the lock.
#[derive(Drop)]
pub enum From {
    Input(Stdin, Option<File>),
    File(File),
}

impl Read for From {
    fn read(&mut self, buf: &mut [u8]) -> io::Result<usize> {
        match self {
            From::Input(stdin, _) => stdin.read(buf),
            From::File(file) => file.read(buf),
        }
    }
}

impl From {
    // How many bytes its file has now, if it is a regular file. Of standard input that is known if /proc is mounted.
    fn size(&self, rt: &HostRuntime) -> Option<u64> {
        let answer = match self {
            From::Input(_, _) => fs::metadata(rt, INPUT),
            From::File(file) => file.metadata(),
        };
        match answer {
            Ok(found) if found.is_file() => Some(found.len()),
            _ => None,
        }
    }
}

/// A file or standard input, and a count of the bytes that were read. No clause knows its bytes.
#[derive(Drop)]
pub struct Input {
    from: From,
    // how many bytes its file had when it was opened
    size: Option<u64>,
    rt: HostRuntime,
    meter: Meter,
    pub(crate) code: i32,
    faults: u64,
}

impl Input {
    /// Standard input if there is no name, or if the name is of it, and else the file.
    pub(crate) fn open<'w>(
        rt: HostRuntime,
        name: Option<&'w [u8]>,
        may_show: bool,
    ) -> Result<Input, Trouble<'w>>
        ensures { IfErr result (IsOfStatus 11) }
    {
        let (from, size) = match name {
            None => from_input(rt, b"standard input")?,
            Some(name) => from_of(rt, name)?,
        };
        Ok(Input {
            from,
            size,
            rt,
            meter: Meter::new(&rt, size, may_show),
            code: NONE,
            faults: 0,
        })
    }

    /// How many bytes it has, if it is a regular file. Standard input has no size: a part of it may have been read before.
    pub(crate) fn size(&self) -> Option<u64> {
        match self.from {
            From::File(_) => self.size,
            From::Input(_, _) => None,
        }
    }

    /// Clears the line on which the progress is shown.
    pub(crate) fn end(&self) {
        self.meter.end(&self.rt);
    }

    // Reads. The end may come early only if the file is as long as it was.
    fn read_on(&mut self, buf: &mut [u8]) -> Result<usize, i32>
        ensures bound { ReadsAtMost result buf.new }
        ensures faults { self.new.faults ≡ self.old.faults }
    {
        let count = read_retrying(&mut self.from, buf)?;
        if count == 0 && !buf.is_empty() && self.is_cut_short() {
            return Err(CUT_SHORT);
        }
        Ok(count)
    }

    // Whether the end came early because the file became shorter. If it is as long as before, it may have grown again: then
    // there is more to read. A file of the system, as in /sys, has fewer bytes than it says.
    fn is_cut_short(&mut self) -> bool
        ensures { self.new.faults ≡ self.old.faults }
    {
        let size = match self.size {
            Some(size) if self.meter.bytes_read() < size => size,
            _ => return false,
        };
        match self.from.size(&self.rt) {
            Some(now) if size <= now => {
                let mut byte = [0u8; 1];
                match read_retrying(&mut self.from, &mut byte) {
                    Ok(0) => false,
                    _ => true,
                }
            }
            _ => true,
        }
    }
}

// Standard input, if standard output does not go to the same file, and its size.
fn from_input<'w>(rt: HostRuntime, name: &'w [u8]) -> Result<(From, Option<u64>), Trouble<'w>>
    ensures { IfErr result (IsOfStatus 11) }
{
    if is_input_output(&rt) {
        return Err(refuse_read(name, IS_OUTPUT));
    }
    let from = From::Input(rt.stdin(), file_of_input(&rt));
    let size = from.size(&rt);
    Ok((from, size))
}

// Another handle of the regular file that standard input comes from, which is locked. It is none if /proc is not mounted, or
// if the file may not be opened.
fn file_of_input(rt: &HostRuntime) -> Option<File> {
    if id_of_input(rt).is_none() {
        return None;
    }
    match File::open(rt, INPUT) {
        Ok(file) => {
            lock(&file);
            Some(file)
        }
        Err(_) => None,
    }
}

// The source behind a name, and its size if it is a regular file.
fn from_of<'w>(rt: HostRuntime, name: &'w [u8]) -> Result<(From, Option<u64>), Trouble<'w>>
    ensures { IfErr result (IsOfStatus 11) }
{
    let text = match text_of(name) {
        Ok(text) => text,
        Err(code) => return Err(unreadable(name, code)),
    };
    match standard_of(&rt, text) {
        Some(Standard::Input) => return from_input(rt, name),
        _ => {}
    }
    let file = match File::open(&rt, text) {
        Ok(file) => file,
        Err(e) => return Err(unreadable(name, code_of(e))),
    };
    match file.metadata() {
        Ok(found) if found.is_dir() => Err(refuse_read(name, "it is a folder")),
        Ok(found) if is_output(&rt, &found) => Err(refuse_read(name, IS_OUTPUT)),
        Ok(found) if found.is_file() => {
            lock(&file);
            Ok((From::File(file), Some(found.len())))
        }
        Ok(_) => Ok((From::File(file), None)),
        Err(e) => Err(unreadable(name, code_of(e))),
    }
}

impl Source for Input {
    ghost left = { λ _. None };

    ghost faults = { λ s. s.faults };

    ghost same = { λ _ _. ⊤ };

    fn read(&mut self, buf: &mut [u8]) -> Result<usize, Failed> {
        match self.read_on(buf) {
            Ok(count) => {
                self.meter.add(&self.rt, count as u64);
                Ok(count)
            }
            Err(code) => {
                self.code = code;
                self.faults = self.faults.saturating_add(1);
                Err(Failed)
            }
        }
    }

    ghost same_refl = { λ _. tt };

    ghost same_trans = { λ _ _ _ _ _. tt };
}

/// Reads. If a signal interrupts it, it reads again.
///
/// # Errors
/// The number of the system's error, EINTR if it is always interrupted. `TOO_MANY` if the reader claims more bytes
/// than `buf` has.
pub fn read_retrying<R: Read>(reader: &mut R, buf: &mut [u8]) -> Result<usize, i32>
    ensures bound { ReadsAtMost result buf.new }
{
    for _ in 0..TRIES {
        match reader.read(buf) {
            Ok(count) if count <= buf.len() => return Ok(count),
            Ok(_) => return Err(TOO_MANY),
            Err(e) => {
                if e.kind() != ErrorKind::Interrupted {
                    return Err(code_of(e));
                }
            }
        }
    }
    Err(EINTR)
}
