//! The real system.

ghost use Rattle.std.specs.Prelude.{◌≡◌, ◌≤◌, None, IfOk, IfErr, length};
ghost use Rattle.tink_unix.specs.OfStatus.{IsOfReading, IsOfStatus};
ghost use Rattle.tink_unix.specs.Unknown.{unknown_state};

use crate::apart::{id_at, id_of_input, is_draft_of, is_draft_read, is_input};
use crate::draft;
use crate::draft::Draft;
use crate::input::Input;
use crate::object::Object;
use crate::output::{Stream, Way, Written};
use crate::refusals::{refuse_write, unreadable, unwritable};
use crate::terminals::{leads_to_terminal, may_show};
use std::alloc::Global;
use std::fs;
use std::fs::{OpenFile, OpenOptions};
use std::io::IsTerminal;
use std::random::RandomSource;
use tink_io::{Draws, Kind, Source};
use tink_system::{End, How, System, Trouble};
use tink_unix_names::file_id::FileId;
use tink_unix_names::names::{folder_of, follow, parts_of, text_of};
use tink_unix_names::reasons::{code_of, reason_of_errno};
use tink_unix_names::standard::{Standard, standard_of};

// This many bytes are read at once.
const PART: usize = 8_192;

const ENOENT: i32 = 2;

/// The real system. No clause knows its bytes.
#[derive(Drop)]
pub struct Unix {
    rt: HostRuntime,
    faults: u64,
    // whether standard input was read as a file of keys
    has_keys: bool,
    // the last file that was read whole
    read: Option<FileId>,
    // the last file that was opened to be read
    opened: Option<FileId>,
}

impl Unix {
    /// The system, which has not refused yet.
    pub fn new(rt: &HostRuntime) -> Unix
        ensures { result.faults ≡ 0 }
    {
        Unix {
            rt: *rt,
            faults: 0,
            has_keys: false,
            read: None,
            opened: None,
        }
    }

    // Whether the regular file behind a descriptor is read by this command.
    fn reads_behind(&self, name: &[u8]) -> bool {
        let file = id_at(&self.rt, name);
        file.is_some() && (file == self.opened || self.has_keys && is_input(&self.rt, name))
    }

    // Whether keys were read from a file that has the name of a draft of the file of a name.
    fn reads_draft_of(&self, name: &[u8]) -> bool {
        is_draft_read(&self.rt, name, self.read)
            || self.has_keys && is_draft_read(&self.rt, name, id_of_input(&self.rt))
    }
}

impl System for Unix {
    ghost use Rattle.std.proofs.Common.{refl};

    type Input = Input;

    type Object = Object;

    type Stream = Stream;

    type Draft = Draft;

    ghost state = { λ _. unknown_state };

    ghost faults = { λ u. u.faults };

    fn read_whole<'w>(
        &mut self,
        alloc: Global,
        name: Option<&'w [u8]>,
        most: u64,
    ) -> Result<Vec<u8>, Trouble<'w>> {
        match name {
            Some(name) => self.read = id_at(&self.rt, name),
            None => self.has_keys = true,
        }
        whole_of(self.rt, alloc, name, most)
    }

    fn open<'w>(&mut self, name: Option<&'w [u8]>, is_quiet: bool) -> Result<Input, Trouble<'w>> {
        self.opened = match name {
            Some(name) => id_at(&self.rt, name),
            None => id_of_input(&self.rt),
        };
        Input::open(self.rt, name, may_show(self.rt, is_quiet))
    }

    fn open_at<'w>(
        &mut self,
        name: &'w [u8],
        total: u64,
        is_quiet: bool,
    ) -> Result<Object, Trouble<'w>> {
        self.opened = id_at(&self.rt, name);
        Object::open(self.rt, name, total, may_show(self.rt, is_quiet))
    }

    fn open_stream<'w>(&mut self, name: &'w [u8]) -> Result<Stream, Trouble<'w>> {
        let answer = if self.reads_behind(name) {
            Err(refuse_write(
                name,
                "this command reads the file to which it leads: give another name",
            ))
        } else {
            stream_of(self.rt, name)
        };
        if answer.is_err() {
            self.faults = self.faults.saturating_add(1);
        }
        answer
    }

    fn begin<'w>(&mut self, name: &'w [u8], how: How) -> Result<Draft, Trouble<'w>> {
        if self.has_keys && is_input(&self.rt, name) {
            return Err(refuse_write(
                name,
                "the keys are read from this file, by standard input: give another name",
            ));
        }
        if self.reads_draft_of(name) {
            return Err(refuse_write(
                name,
                "the file that is read has the name of its draft: rename that file, or give another name",
            ));
        }
        draft::begin(&self.rt, name, how)
    }

    // The files hold it already.
    fn settle(
        &mut self,
        _alloc: Global,
        _name: &[u8],
        _draft: Draft,
    ) -> Result<(), Trouble<'static>> {
        Ok(())
    }

    fn draws(&mut self, alloc: Global, n: usize) -> Result<Draws, Trouble<'static>> {
        let answer = draw_bytes(self.rt, alloc, n);
        if answer.is_err() {
            self.faults = self.faults.saturating_add(1);
        }
        answer
    }

    fn are_one(&mut self, name: &[u8], other: &[u8]) -> bool {
        are_one(&self.rt, name, other)
    }

    fn is_stream(&mut self, name: &[u8]) -> bool {
        is_stream(&self.rt, name)
    }

    fn is_terminal(&mut self, end: End) -> bool {
        match end {
            End::Input => self.rt.stdin().is_terminal(),
            End::Output => self.rt.stdout().is_terminal(),
            End::Error => self.rt.stderr().is_terminal(),
        }
    }

    fn leads_to_terminal(&mut self, name: &[u8]) -> bool {
        leads_to_terminal(&self.rt, name)
    }

    fn reason_of_draft(&self, draft: &Draft) -> &'static str {
        reason_of_errno(draft.code)
    }

    fn reason_of_input(&self, input: &Input) -> &'static str {
        reason_of_errno(input.code)
    }

    fn reason_of_object(&self, object: &Object) -> &'static str {
        reason_of_errno(object.code)
    }

    fn reason_of_stream(&self, stream: &Stream) -> &'static str {
        reason_of_errno(stream.code)
    }

    fn end_input(&self, input: &Input) {
        input.end();
    }

    fn end_object(&self, object: &Object) {
        object.end();
    }

    ghost one_content = { λ _ _ _ _. refl };

    ghost input_sure = { λ _ _ _ known _. known refl };

    ghost object_sure = { λ _ _ _ known _. known refl };
}

// The whole of a file or of standard input.
fn whole_of<'w>(
    rt: HostRuntime,
    alloc: Global,
    name: Option<&'w [u8]>,
    most: u64,
) -> Result<Vec<u8>, Trouble<'w>>
    ensures bound { IfOk result (λ bytes. length bytes.items ≤ most) }
    ensures refused { IfErr result IsOfReading }
{
    let label = label_of(name);
    let mut input = Input::open(rt, name, false)?;
    let size = input.size().unwrap_or(0);
    if size > most {
        return Err(Trouble::Refused(label, Kind::KeysetTooLong));
    }
    let Ok(mut bytes) = Vec::with_capacity(alloc, usize::try_from(size).unwrap_or(0)) else {
        return Err(Trouble::Refused(label, Kind::OutOfMemory));
    };
    for _ in 0..u64::MAX {
        let mut part = [0u8; PART];
        match input.read(&mut part) {
            Ok(0) => break,
            Ok(count) => {
                if bytes.extend_from_slice(&part[..count]).is_err() {
                    return Err(Trouble::Refused(label, Kind::OutOfMemory));
                }
                if most < bytes.len() as u64 {
                    break;
                }
            }
            Err(_) => return Err(unreadable(label, input.code)),
        }
    }
    if bytes.len() as u64 > most {
        return Err(Trouble::Refused(label, Kind::KeysetTooLong));
    }
    Ok(bytes)
}

fn label_of<'w>(name: Option<&'w [u8]>) -> &'w [u8] {
    match name {
        Some(name) => name,
        None => b"standard input",
    }
}

// Random bytes of the system.
fn draw_bytes(rt: HostRuntime, alloc: Global, n: usize) -> Result<Draws, Trouble<'static>>
    ensures drawn { IfOk result (λ d. length d ≡ n) }
    ensures refused { IfErr result (IsOfStatus 35) }
{
    let mut bytes = Vec::new(alloc);
    if bytes.resize(n, 0).is_err() {
        return Err(Trouble::Refused(b"random bytes", Kind::OutOfMemory));
    }
    match rt.fill_bytes(bytes.as_mut_slice()) {
        Ok(()) => Ok(Draws::new(bytes)),
        Err(_) => Err(Trouble::Refused(b"random bytes", Kind::RandomFault)),
    }
}

// What a name that is written as a stream is of.
fn stream_of<'w>(rt: HostRuntime, name: &'w [u8]) -> Result<Stream, Trouble<'w>>
    ensures { IfErr result (IsOfStatus 12) }
{
    let text = match text_of(name) {
        Ok(text) => text,
        Err(code) => return Err(unwritable(name, code)),
    };
    match standard_of(&rt, text) {
        Some(Standard::Output) => return Ok(Written::new(Way::Output(rt.stdout()))),
        Some(Standard::Error) => return Ok(Written::new(Way::Error(rt.stderr()))),
        _ => {}
    }
    match fs::metadata(&rt, text) {
        Ok(found) if found.is_file() => {
            return Err(refuse_write(
                name,
                "it is a regular file: give its own name, and not that of a descriptor",
            ));
        }
        Ok(_) => {}
        Err(e) => match code_of(e) {
            ENOENT => return Err(refuse_write(name, "no such descriptor is open")),
            code => return Err(unwritable(name, code)),
        },
    }
    match OpenOptions::new().write(true).open(&rt, text) {
        Ok(file) => Ok(Written::new(Way::File(file))),
        Err(e) => Err(unwritable(name, code_of(e))),
    }
}

// Whether a name is of a pipe, a device or an open descriptor.
fn is_stream(rt: &HostRuntime, name: &[u8]) -> bool {
    let text = match text_of(name) {
        Ok(text) => text,
        Err(_) => return false,
    };
    if standard_of(rt, text).is_some() {
        return true;
    }
    match fs::metadata(rt, text) {
        Ok(found) => !found.is_file() && !found.is_dir(),
        Err(_) => false,
    }
}

// Whether two names are of one file, or the second is that of a draft of the first, which would be taken away.
fn are_one(rt: &HostRuntime, name: &[u8], other: &[u8]) -> bool {
    let (name, other) = match (text_of(name), text_of(other)) {
        (Ok(name), Ok(other)) => (name, other),
        _ => return name == other,
    };
    match (fs::metadata(rt, name), fs::metadata(rt, other)) {
        (Ok(one), Ok(two)) if FileId::of(&one) == FileId::of(&two) => true,
        (_, Ok(two)) => is_draft_of(rt, name, FileId::of(&two)),
        (Err(_), Err(_)) => lead_to_one(rt, name, other),
        _ => false,
    }
}

// Whether two names that no file has lead to one name in one folder.
fn lead_to_one(rt: &HostRuntime, name: &str, other: &str) -> bool {
    let (one, two) = match (follow(rt, name), follow(rt, other)) {
        (Ok(one), Ok(two)) => (one, two),
        _ => return false,
    };
    let (_, last) = parts_of(one.as_str());
    let (_, other_last) = parts_of(two.as_str());
    if last != other_last {
        return false;
    }
    match (
        fs::metadata(rt, folder_of(one.as_str())),
        fs::metadata(rt, folder_of(two.as_str())),
    ) {
        (Ok(one), Ok(two)) => FileId::of(&one) == FileId::of(&two),
        _ => false,
    }
}
