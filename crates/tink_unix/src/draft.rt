//! A draft beside the file that it is to become.

ghost use Rattle.std.specs.Prelude.{◌≡◌, true, IfOk, IfErr};
ghost use Rattle.tink_system.specs.States.{replaces_by};
ghost use Rattle.tink_unix.specs.OfStatus.{IsOfStatus};

use crate::output::Written;
use crate::refusals::{refuse_write, unwritable};
use std::fs;
use std::fs::{File, Metadata, OpenFile, OpenOptions, TryLockError};
use std::os::unix::fs::{MetadataExt, OpenOptionsExt, fchown};
use tink_io::Kind;
use tink_system::{How, Trouble};
use tink_unix_names::leftovers::{Cleared, MOST_RUNS, clear, names_this, sweep, take_away};
use tink_unix_names::names::{Which, draft_name, follow, is_name_of_draft, parts_of, text_of};
use tink_unix_names::notes::note;
use tink_unix_names::reasons::{NONE, NOT_UTF8, code_of};

// At most this many bytes wait before they are written.
const WAITING: usize = 32_768;

// How often a draft is tried that another run holds or took for a leftover.
const TRIES: usize = 100;

const EPERM: i32 = 1;

const ENOENT: i32 = 2;

const ENOMEM: i32 = 12;

const EACCES: i32 = 13;

const EEXIST: i32 = 17;

const ELOOP: i32 = 40;

/// A draft, whose lock is held. Only its owner may read it until it is shown. No clause knows its bytes.
#[derive(Drop)]
pub struct Draft {
    pub(crate) rt: HostRuntime,
    pub(crate) sink: Written<File>,
    pub(crate) waiting: Vec<u8>,
    // another handle of the same open file
    pub(crate) file: File,
    pub(crate) path: String,
    // the name that it gets
    pub(crate) target: String,
    // that of the file which it replaces
    pub(crate) mode: Option<u32>,
    pub(crate) is_drafted: bool,
    pub(crate) is_replacing: bool,
    pub(crate) code: i32,
    pub(crate) faults: u64,
}

/// Makes a draft for the file behind a name.
///
/// # Errors
/// Status 12 if the name is not one of a file that may be written as `how` says, or the system refuses; 10.
pub fn begin<'w>(rt: &HostRuntime, name: &'w [u8], how: How) -> Result<Draft, Trouble<'w>>
    ensures made { IfOk result (λ d. (d.is_drafted ≡ true) × (d.is_replacing ≡ replaces_by how)) }
    ensures refused { IfErr result (IsOfStatus 12) }
{
    let target = target_of(rt, name)?;
    sweep(rt, target.as_str());
    let found = found_at(rt, name, target.as_str(), how)?;
    require_free(name, &found, how)?;
    let (file, path) = claim_draft(rt, name, target.as_str(), how)?;
    match rest_of_draft(rt, &file, found) {
        Ok((sink, waiting, mode)) => Ok(Draft {
            rt: *rt,
            sink,
            waiting,
            file,
            path,
            target,
            mode,
            is_drafted: true,
            is_replacing: replaces(how),
            code: NONE,
            faults: 0,
        }),
        Err(code) => {
            take_away(rt, path.as_str());
            match code {
                EPERM => Err(refuse_write(
                    name,
                    "it belongs to another user or group, and a new file cannot be given to them",
                )),
                _ => Err(unwritable(name, code)),
            }
        }
    }
}

fn replaces(how: How) -> bool
    ensures { result ≡ replaces_by how }
{
    match how {
        How::Replace | How::Change => true,
        How::Fresh => false,
    }
}

// A file that is to be new may not be there.
fn require_free<'w>(name: &'w [u8], found: &Option<Metadata>, how: How) -> Result<(), Trouble<'w>>
    ensures { IfErr result (IsOfStatus 12) }
{
    match how {
        How::Fresh if found.is_some() => Err(refuse_write(
            name,
            "it is there already: give another name, or move it away",
        )),
        _ => Ok(()),
    }
}

// A new draft, locked, and its path.
fn claim_draft<'w>(
    rt: &HostRuntime,
    name: &'w [u8],
    target: &str,
    how: How,
) -> Result<(File, String), Trouble<'w>>
    ensures { IfErr result (IsOfStatus 12) }
{
    match how {
        How::Change => claim_lone(rt, name, target),
        _ => claim_numbered(rt, name, target),
    }
}

// The path behind all links that the name ends in.
fn target_of<'w>(rt: &HostRuntime, name: &'w [u8]) -> Result<String, Trouble<'w>>
    ensures { IfErr result (IsOfStatus 12) }
{
    let text = match text_of(name) {
        Ok(text) => text,
        Err(code) => return Err(unwritable(name, code)),
    };
    let target = match follow(rt, text) {
        Ok(target) => target,
        Err(NOT_UTF8) => {
            return Err(refuse_write(
                name,
                "it is a link to a name that is not UTF-8, and this program opens no such file",
            ));
        }
        Err(code) => return Err(unwritable(name, code)),
    };
    match parts_of(target.as_str()) {
        (_, "") => return Err(refuse_write(
            name,
            "no file's name ends so: give the name of a file",
        )),
        (_, last) if is_name_of_draft(last) => {
            return Err(refuse_write(
                name,
                "the names of drafts end so, and the next run that writes its file would remove it: give another name",
            ));
        }
        _ => {}
    }
    if target.as_str() != text {
        require_followed(rt, name, text)?;
    }
    Ok(target)
}

// The system itself may refuse to follow a link, as one of another user in a folder that all may write into.
fn require_followed<'w>(rt: &HostRuntime, name: &'w [u8], text: &str) -> Result<(), Trouble<'w>>
    ensures { IfErr result (IsOfStatus 12) }
{
    match fs::metadata(rt, text) {
        Ok(_) => Ok(()),
        Err(e) => match code_of(e) {
            ENOENT => Ok(()),
            EACCES | ELOOP => Err(refuse_write(name, "the system does not follow this link")),
            code => Err(unwritable(name, code)),
        },
    }
}

// What is under the path: nothing, or a regular file that may be written.
fn found_at<'w>(
    rt: &HostRuntime,
    name: &'w [u8],
    target: &str,
    how: How,
) -> Result<Option<Metadata>, Trouble<'w>>
    ensures { IfErr result (IsOfStatus 12) }
{
    match fs::symlink_metadata(rt, target) {
        Ok(found) => {
            if found.is_dir() {
                return Err(refuse_write(name, "it is a folder: give the name of a file"));
            }
            if !found.is_file() {
                return Err(refuse_write(name, "it is no regular file"));
            }
            match how {
                How::Fresh => {}
                _ => require_writable(rt, name, target, found.mode())?,
            }
            Ok(Some(found))
        }
        Err(e) => match (code_of(e), how) {
            (ENOENT, How::Change) => Err(refuse_write(name, "there is no such file")),
            (ENOENT, _) => Ok(None),
            (code, _) => Err(unwritable(name, code)),
        },
    }
}

// A file that may not be written is not replaced either.
fn require_writable<'w>(
    rt: &HostRuntime,
    name: &'w [u8],
    target: &str,
    mode: u32,
) -> Result<(), Trouble<'w>>
    ensures { IfErr result (IsOfStatus 12) }
{
    if mode & 0o222 == 0 {
        return Err(refuse_write(
            name,
            "it is write-protected: `chmod u+w` lets it be replaced",
        ));
    }
    match OpenOptions::new().write(true).open(rt, target) {
        Ok(_) => Ok(()),
        Err(e) => match code_of(e) {
            EACCES => Err(refuse_write(name, "you may not write it")),
            code => Err(unwritable(name, code)),
        },
    }
}

// Why no draft was made.
#[derive(Clone, Copy)]
enum Unclaimed {
    Busy,
    Foreign,
    Failed(i32),
}

// The one draft of a change.
fn claim_lone<'w>(
    rt: &HostRuntime,
    name: &'w [u8],
    target: &str,
) -> Result<(File, String), Trouble<'w>>
    ensures { IfErr result (IsOfStatus 12) }
{
    let path = match draft_name(rt, target, Which::Change) {
        Ok(path) => path,
        Err(_) => return Err(Trouble::Refused(name, Kind::OutOfMemory)),
    };
    match claim(rt, path.as_str()) {
        Ok(file) => Ok((file, path)),
        Err(Unclaimed::Busy) => Err(refuse_write(
            name,
            "another run is changing it (its draft NAME.tink.part is locked): wait for it, or end it",
        )),
        Err(Unclaimed::Foreign) => {
            note(
                rt,
                path.as_str(),
                &["no run may take this draft away: remove it, or ask its owner to"],
            );
            Err(refuse_write(name, "a draft blocks each change of it"))
        }
        Err(Unclaimed::Failed(code)) => Err(unwritable(name, code)),
    }
}

// The first draft that is free of those that replace or make the file.
fn claim_numbered<'w>(
    rt: &HostRuntime,
    name: &'w [u8],
    target: &str,
) -> Result<(File, String), Trouble<'w>>
    ensures { IfErr result (IsOfStatus 12) }
{
    for number in 1..=MOST_RUNS {
        let path = match draft_name(rt, target, Which::Numbered(number)) {
            Ok(path) => path,
            Err(_) => return Err(Trouble::Refused(name, Kind::OutOfMemory)),
        };
        match claim(rt, path.as_str()) {
            Ok(file) => return Ok((file, path)),
            Err(Unclaimed::Failed(code)) => return Err(unwritable(name, code)),
            Err(_) => {}
        }
    }
    Err(refuse_write(
        name,
        "nine runs write it, or their drafts NAME.tink-1.part to NAME.tink-9.part are not yours: wait for them to end",
    ))
}

// A new file under the path, locked.
fn claim(rt: &HostRuntime, path: &str) -> Result<File, Unclaimed> {
    for _ in 0..TRIES {
        let made = OpenOptions::new()
            .read(true)
            .write(true)
            .create_new(true)
            .mode(0o600)
            .open(rt, path);
        match made {
            Ok(file) => {
                if is_locked(rt, path, &file) {
                    return Ok(file);
                }
            }
            Err(e) => match code_of(e) {
                EEXIST => match clear(rt, path) {
                    // A run that only looks for leftovers holds one for a moment.
                    Cleared::Gone | Cleared::Busy => {}
                    Cleared::Foreign => return Err(Unclaimed::Foreign),
                },
                code => return Err(Unclaimed::Failed(code)),
            },
        }
    }
    Err(Unclaimed::Busy)
}

// Locks a new draft, and looks whether another run took it away before, as a leftover. On a file system without locks no
// run takes one away.
fn is_locked(rt: &HostRuntime, path: &str, file: &File) -> bool {
    match file.try_lock() {
        Err(TryLockError::WouldBlock) => false,
        _ => names_this(rt, path, file),
    }
}

// The rest of a draft: a second handle, memory for what waits, and the owner and the mode of the file that it replaces.
fn rest_of_draft(
    rt: &HostRuntime,
    file: &File,
    found: Option<Metadata>,
) -> Result<(Written<File>, Vec<u8>, Option<u32>), i32> {
    let mode = match found {
        None => None,
        Some(found) => {
            give_to(file, found.uid(), found.gid())?;
            Some(found.mode() & 0o7777)
        }
    };
    let waiting = match Vec::with_capacity(rt.alloc(), WAITING) {
        Ok(waiting) => waiting,
        Err(_) => return Err(ENOMEM),
    };
    match file.try_clone() {
        Ok(other) => Ok((Written::new(other), waiting, mode)),
        Err(e) => Err(code_of(e)),
    }
}

// Gives a file to a user and a group, if it is not theirs.
fn give_to(file: &File, uid: u32, gid: u32) -> Result<(), i32> {
    if is_of(file, uid, gid) {
        return Ok(());
    }
    match fchown(file, Some(uid), Some(gid)) {
        Ok(()) => {}
        Err(e) => return Err(code_of(e)),
    }
    if is_of(file, uid, gid) {
        Ok(())
    } else {
        Err(EPERM)
    }
}

fn is_of(file: &File, uid: u32, gid: u32) -> bool {
    match file.metadata() {
        Ok(found) => found.uid() == uid && found.gid() == gid,
        Err(_) => false,
    }
}
