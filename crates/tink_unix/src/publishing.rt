//! A draft becomes the file, whole and at once, or is taken away.

ghost use Rattle.std.specs.Prelude.{◌≡◌, [], None, OnOk};

use crate::draft::Draft;
use std::fs;
use std::fs::{File, OpenFile, OpenOptions, Permissions};
use std::os::unix::fs::{MetadataExt, OpenOptionsExt, PermissionsExt};
use tink_io::{Failed, Gathered, Place, Sink};
use tink_unix_names::leftovers::{is_name_of, names_this, take_away};
use tink_unix_names::names::folder_of;
use tink_unix_names::notes::note;
use tink_unix_names::reasons::{DRAFT_GONE, code_of, reason_of_errno};

const EPERM: i32 = 1;

const EACCES: i32 = 13;

impl Sink for Draft {
    ghost use Rattle.std.proofs.Common.{refl, ◌∙◌};

    ghost got = { λ _. None };

    ghost faults = { λ d. d.faults };

    ghost same = { λ d e. (e.is_drafted ≡ d.is_drafted) × (e.is_replacing ≡ d.is_replacing) };

    fn write(&mut self, buf: &[u8]) -> Result<usize, Failed> {
        let mut gathered = Gathered {
            sink: &mut self.sink,
            waiting: &mut self.waiting,
        };
        match gathered.write(buf) {
            Ok(count) => Ok(count),
            Err(_) => {
                self.code = self.sink.code;
                self.faults = self.faults.saturating_add(1);
                Err(Failed)
            }
        }
    }

    ghost same_refl = { λ _. (refl, refl) };

    ghost same_trans = { λ _ _ _ p q. (q.0 ∙ p.0, q.1 ∙ p.1) };
}

impl Place for Draft {
    ghost use Rattle.std.proofs.Common.{refl, ◌∙◌};

    ghost shown = { λ _. None };

    ghost has_draft = { λ d. d.is_drafted };

    ghost replaces = { λ d. d.is_replacing };

    ghost rest = { λ d e. e.is_replacing ≡ d.is_replacing };

    // A draft that failed once is never shown.
    fn show(&mut self) -> Result<(), Failed> {
        match self.publish() {
            Ok(()) => {
                self.is_drafted = false;
                Ok(())
            }
            Err(code) => {
                self.code = code;
                self.faults = self.faults.saturating_add(1);
                Err(Failed)
            }
        }
    }

    fn discard(&mut self) {
        if names_this(&self.rt, self.path.as_str(), &self.file) {
            take_away(&self.rt, self.path.as_str());
        }
        self.is_drafted = false;
    }

    ghost same_shown = { λ _ _ _. refl };

    ghost same_draft = { λ _ _ same. same.0 };

    ghost same_replaces = { λ _ _ same. same.1 };

    ghost rest_refl = { λ _. refl };

    ghost rest_trans = { λ _ _ _ p q. q ∙ p };

    ghost same_rest = { λ _ _ same. same.1 };
}

impl Draft {
    // Writes what waits and gives the draft its name, or answers the error's number.
    fn publish(&mut self) -> Result<(), i32>
        ensures drafted { self.new.is_drafted ≡ self.old.is_drafted }
        ensures replacing { self.new.is_replacing ≡ self.old.is_replacing }
        ensures faults { self.new.faults ≡ self.old.faults }
        ensures sound { OnOk result (self.old.faults ≡ 0) }
        ensures sent { OnOk result (self.new.waiting.items ≡ []) }
    {
        if self.faults > 0 {
            return Err(self.code);
        }
        self.hand_on()?;
        self.put_in_place()?;
        Ok(())
    }

    // Gives the draft its name.
    fn put_in_place(&self) -> Result<(), i32> {
        let (path, target) = (self.path.as_str(), self.target.as_str());
        self.wear_mode()?;
        match self.file.sync_all() {
            Ok(()) => {}
            Err(e) => return Err(code_of(e)),
        }
        if !is_name_of(&self.rt, path, &self.file)? {
            return Err(DRAFT_GONE);
        }
        if self.is_replacing {
            rename_file(&self.rt, path, target)?;
        } else {
            appear(&self.rt, path, target)?;
        }
        keep_name(&self.rt, target);
        Ok(())
    }

    // Writes what waits.
    fn hand_on(&mut self) -> Result<(), i32>
        ensures drafted { self.new.is_drafted ≡ self.old.is_drafted }
        ensures replacing { self.new.is_replacing ≡ self.old.is_replacing }
        ensures faults { self.new.faults ≡ self.old.faults }
        ensures sent { OnOk result (self.new.waiting.items ≡ []) }
    {
        let mut gathered = Gathered {
            sink: &mut self.sink,
            waiting: &mut self.waiting,
        };
        match gathered.flush() {
            Ok(()) => Ok(()),
            Err(_) => Err(self.sink.code),
        }
    }

    // Takes over the mode of the file that it replaces.
    fn wear_mode(&self) -> Result<(), i32> {
        let Some(mode) = self.mode else {
            return Ok(());
        };
        match self.file.metadata() {
            Ok(found) if found.mode() & 0o7777 == mode => return Ok(()),
            Ok(_) => {}
            Err(e) => return Err(code_of(e)),
        }
        match self.file.set_permissions(Permissions::from_mode(mode)) {
            Ok(()) => Ok(()),
            Err(e) => Err(code_of(e)),
        }
    }
}

fn rename_file(rt: &HostRuntime, from: &str, to: &str) -> Result<(), i32> {
    match fs::rename(rt, from, to) {
        Ok(()) => Ok(()),
        Err(e) => Err(code_of(e)),
    }
}

// Gives a draft a name that no file has: by a link, which fails if one has it.
fn appear(rt: &HostRuntime, path: &str, target: &str) -> Result<(), i32> {
    match fs::hard_link(rt, path, target) {
        Ok(()) => {
            take_away(rt, path);
            Ok(())
        }
        Err(e) => match code_of(e) {
            // no links: EPERM, EMLINK, ENOSYS, EOPNOTSUPP
            EPERM | 31 | 38 | 95 => appear_by_claim(rt, path, target),
            code => Err(code),
        },
    }
}

// The same where there are no links: an empty file takes the name, and the draft replaces it.
fn appear_by_claim(rt: &HostRuntime, path: &str, target: &str) -> Result<(), i32> {
    let made = OpenOptions::new()
        .write(true)
        .create_new(true)
        .mode(0o600)
        .open(rt, target);
    let claimed = match made {
        Ok(claimed) => claimed,
        Err(e) => return Err(code_of(e)),
    };
    match rename_file(rt, path, target) {
        Ok(()) => Ok(()),
        Err(code) => {
            unclaim(rt, target, &claimed);
            Err(code)
        }
    }
}

// Gives the name back, if it is still of the empty file.
fn unclaim(rt: &HostRuntime, target: &str, claimed: &File) {
    let is_empty = match claimed.metadata() {
        Ok(found) => found.len() == 0,
        Err(_) => false,
    };
    if is_empty && names_this(rt, target, claimed) {
        let _removed = fs::remove_file(rt, target);
    }
}

// The folder of the name reaches the disk. The file has its name by now, so that a failure is no refusal.
fn keep_name(rt: &HostRuntime, target: &str) {
    match sync_folder(rt, folder_of(target)) {
        Ok(()) => {}
        Err(code) => note(
            rt,
            target,
            &[
                "it is in place, but its folder could not be written to the disk (",
                match code {
                    EACCES => "you may not read it",
                    _ => reason_of_errno(code),
                },
                "): a power cut may undo the change",
            ],
        ),
    }
}

fn sync_folder(rt: &HostRuntime, folder: &str) -> Result<(), i32> {
    let folder = match File::open(rt, folder) {
        Ok(folder) => folder,
        Err(e) => return Err(code_of(e)),
    };
    match folder.sync_all() {
        Ok(()) => Ok(()),
        Err(e) => Err(code_of(e)),
    }
}
