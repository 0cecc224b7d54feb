//! A system over memory.

ghost use Rattle.std.specs.Prelude.{◌≡◌, ◌≤◌, [], false, true, None, Some, IfErr, IfOk, OnErr, OnOk, option_map};
ghost use Rattle.tink_io.specs.Faults.{Rose};
ghost use Rattle.tink_io.specs.declared.error.Kind.TheVariants.{OutOfMemory};
ghost use Rattle.tink_system.specs.Memory.{IsLinked, beginning, file_at, state_of, target_of};
ghost use Rattle.tink_system.specs.States.{IsOfCause, IsSettled, content, replaces_by};

use crate::system::{End, How, System};
use crate::trouble::Trouble;
use std::alloc::Global;
use tink_io::{Draws, Kind, MemPlace, SureSink, SureSource, TinkError};
use tink_range::SureAt;

/// A system over memory: files, links, standard input and random bytes to come. A contract sees all of them. No name is a
/// pipe or a device, and no standard stream a terminal.
#[derive(Drop)]
pub struct MemSystem {
    alloc: Global,
    // The newest first. A name without bytes is of no file.
    files: Vec<File>,
    links: Vec<Link>,
    input: Vec<u8>,
    random: Draws,
    room: usize,
    faults: u64,
}

// A name, and the bytes under it if it is of a file.
#[derive(Drop)]
struct File {
    name: Vec<u8>,
    bytes: Option<Vec<u8>>,
}

// A name that is of the file of another.
#[derive(Drop)]
struct Link {
    name: Vec<u8>,
    target: Vec<u8>,
}

impl MemSystem {
    /// A system without files and links. Standard input and the random bytes to come are given, and a draft has room for
    /// `room` bytes.
    pub fn new(alloc: Global, input: Vec<u8>, random: Vec<u8>, room: usize) -> MemSystem
        ensures { state_of result ≡ beginning input.items random.items }
    {
        MemSystem {
            alloc,
            files: Vec::new(alloc),
            links: Vec::new(alloc),
            input,
            random: Draws::new(random),
            room,
            faults: 0,
        }
    }

    /// The bytes of a file, by its name or a link to it.
    pub fn file<'s>(&'s self, name: &[u8]) -> Option<&'s [u8]>
        ensures { option_map (λ f. f.now) result ≡ (state_of self.now).file name.now }
    {
        bytes_at(
            self.files.as_slice(),
            target_in(self.links.as_slice(), name),
        )
    }

    /// Puts bytes under a name. If a file has the name they replace its bytes, also if the name is a link.
    ///
    /// # Errors
    /// `OutOfMemory`. Nothing is changed then.
    pub fn put_file(&mut self, name: &[u8], bytes: &[u8]) -> Result<(), TinkError>
        ensures put { OnOk result (IsSettled (state_of self.old) (state_of self.new) name.now (Some (Some bytes.now))) }
        ensures refused { IfErr result (λ e. e ≡ record { kind = OutOfMemory }) }
        ensures kept { OnErr result (state_of self.new ≡ state_of self.old) }
    {
        let bytes = Vec::from_slice(self.alloc, bytes)?;
        self.put(self.alloc, name, Some(bytes))
    }

    /// Makes a name a link to the file of another name, whether there is a file yet or not. A link that comes later does not
    /// move it to another file.
    ///
    /// # Errors
    /// `OutOfMemory`. Nothing is changed then.
    pub fn put_link(&mut self, name: &[u8], target: &[u8]) -> Result<(), TinkError>
        ensures put { OnOk result (IsLinked (state_of self.old) (state_of self.new) name.now target.now) }
        ensures refused { IfErr result (λ e. e ≡ record { kind = OutOfMemory }) }
        ensures kept { OnErr result (state_of self.new ≡ state_of self.old) }
    {
        let target = Vec::from_slice(self.alloc, target_in(self.links.as_slice(), target))?;
        let name = Vec::from_slice(self.alloc, name)?;
        self.links.insert(0, Link { name, target })?;
        Ok(())
    }

    /// Gives standard input.
    pub fn set_input(&mut self, input: Vec<u8>)
        ensures { state_of self.new ≡ record (state_of self.old) { input = input.items } }
    {
        self.input = input;
    }

    /// Gives the random bytes to come.
    pub fn set_random(&mut self, random: Vec<u8>)
        ensures { state_of self.new ≡ record (state_of self.old) { random = random.items } }
    {
        self.random = Draws::new(random);
    }

    // Puts bytes under a name, or takes the file away.
    fn put(&mut self, alloc: Global, name: &[u8], bytes: Option<Vec<u8>>) -> Result<(), TinkError>
        ensures put { OnOk result (IsSettled (state_of self.old) (state_of self.new) name.now
            (Some (option_map (λ v. v.items) bytes))) }
        ensures refused { IfErr result (λ e. e ≡ record { kind = OutOfMemory }) }
        ensures kept { OnErr result (state_of self.new ≡ state_of self.old) }
        ensures faults { self.new.faults ≡ self.old.faults }
    {
        let name = Vec::from_slice(alloc, target_in(self.links.as_slice(), name))?;
        self.files.insert(0, File { name, bytes })?;
        Ok(())
    }

    // Counts one refusal more if a draft has failed.
    fn count(&mut self, failed: u64)
        ensures state { state_of self.new ≡ state_of self.old }
        ensures counted { (failed ≡ 0 → ⊥) → Rose self.old.faults self.new.faults }
        ensures later { self.old.faults ≤ self.new.faults }
    {
        if failed > 0 {
            self.faults = self.faults.saturating_add(1);
        }
    }

    // The bytes of a file, or standard input.
    fn content<'s>(&'s self, name: Option<&[u8]>) -> Option<&'s [u8]>
        ensures { option_map (λ f. f.now) result ≡ content (state_of self.now) (option_map (λ n. n.now) name.entry) }
    {
        match name {
            Some(name) => self.file(name),
            None => Some(self.input.as_slice()),
        }
    }

    // A copy of it.
    fn copy<'w>(&self, alloc: Global, name: Option<&'w [u8]>) -> Result<Vec<u8>, Trouble<'w>>
        ensures copied { IfOk result (λ bytes. content (state_of self.now) (option_map (λ n. n.now) name.entry) ≡ Some bytes.items) }
        ensures refused { IfErr result (IsOfCause 11 (content (state_of self.now) (option_map (λ n. n.now) name.entry) ≡ None)) }
    {
        let label = label_of(name);
        let Some(bytes) = self.content(name) else {
            return Err(Trouble::Unusable(label, "there is no such file", 11));
        };
        match Vec::from_slice(alloc, bytes) {
            Ok(bytes) => Ok(bytes),
            Err(_) => Err(Trouble::Refused(label, Kind::OutOfMemory)),
        }
    }
}

impl System for MemSystem {
    type Input = SureSource;

    type Object = SureAt;

    type Stream = SureSink;

    type Draft = MemPlace;

    ghost state = { state_of };

    ghost faults = { λ m. m.faults };

    fn read_whole<'w>(
        &mut self,
        alloc: Global,
        name: Option<&'w [u8]>,
        most: u64,
    ) -> Result<Vec<u8>, Trouble<'w>> {
        let bytes = self.copy(alloc, name)?;
        if bytes.len() as u64 > most {
            return Err(Trouble::Refused(label_of(name), Kind::KeysetTooLong));
        }
        Ok(bytes)
    }

    fn open<'w>(
        &mut self,
        name: Option<&'w [u8]>,
        _is_quiet: bool,
    ) -> Result<SureSource, Trouble<'w>> {
        match self.copy(self.alloc, name) {
            Ok(bytes) => Ok(SureSource::new(bytes)),
            Err(trouble) => Err(trouble),
        }
    }

    fn open_at<'w>(
        &mut self,
        name: &'w [u8],
        _total: u64,
        _is_quiet: bool,
    ) -> Result<SureAt, Trouble<'w>> {
        match self.copy(self.alloc, Some(name)) {
            Ok(bytes) => Ok(SureAt::new(bytes)),
            Err(trouble) => Err(trouble),
        }
    }

    fn open_stream<'w>(&mut self, name: &'w [u8]) -> Result<SureSink, Trouble<'w>> {
        self.faults = self.faults.saturating_add(1);
        Err(Trouble::Unusable(name, "it is no pipe and no device", 12))
    }

    fn begin<'w>(&mut self, name: &'w [u8], how: How) -> Result<MemPlace, Trouble<'w>> {
        let shown = self.file(name);
        match (how, shown.is_some()) {
            (How::Fresh, true) => return Err(Trouble::Unusable(
                name,
                "a file has this name already",
                12,
            )),
            (How::Change, false) => return Err(Trouble::Unusable(
                name,
                "there is no such file",
                12,
            )),
            _ => {}
        }
        match draft_of(self.alloc, self.room, shown, how) {
            Ok(draft) => Ok(draft),
            Err(_) => Err(Trouble::Refused(name, Kind::OutOfMemory)),
        }
    }

    fn settle(
        &mut self,
        alloc: Global,
        name: &[u8],
        draft: MemPlace,
    ) -> Result<(), Trouble<'static>> {
        self.count(draft.faults);
        match self.put(alloc, name, draft.shown) {
            Ok(()) => Ok(()),
            Err(_) => Err(Trouble::Refused(b"tink", Kind::OutOfMemory)),
        }
    }

    fn draws(&mut self, alloc: Global, n: usize) -> Result<Draws, Trouble<'static>> {
        let mut bytes = Vec::new(alloc);
        if bytes.resize(n, 0).is_err() {
            return Err(Trouble::Refused(b"tink", Kind::OutOfMemory));
        }
        match self.random.take_into(bytes.as_mut_slice()) {
            Ok(()) => Ok(Draws::new(bytes)),
            Err(e) => {
                self.faults = self.faults.saturating_add(1);
                Err(Trouble::Refused(b"tink", e.kind))
            }
        }
    }

    fn are_one(&mut self, name: &[u8], other: &[u8]) -> bool {
        target_in(self.links.as_slice(), name) == target_in(self.links.as_slice(), other)
    }

    fn is_stream(&mut self, _name: &[u8]) -> bool {
        false
    }

    fn is_terminal(&mut self, _end: End) -> bool {
        false
    }

    fn leads_to_terminal(&mut self, _name: &[u8]) -> bool {
        false
    }

    fn reason_of_draft(&self, _draft: &MemPlace) -> &'static str {
        "its room is used up"
    }

    fn reason_of_input(&self, _input: &SureSource) -> &'static str {
        ""
    }

    fn reason_of_object(&self, _object: &SureAt) -> &'static str {
        ""
    }

    fn reason_of_stream(&self, _stream: &SureSink) -> &'static str {
        ""
    }

    fn end_input(&self, _input: &SureSource) {}

    fn end_object(&self, _object: &SureAt) {}

    ghost use Rattle.tink_system.specs.MemoryLaws.{no-rise, one-content};

    ghost one_content = { one-content };

    ghost input_sure = { λ _ _ _ _. no-rise };

    ghost object_sure = { λ _ _ _ _. no-rise };
}

// The name of the file that a name is of.
fn target_in<'a>(links: &'a [Link], name: &'a [u8]) -> &'a [u8]
    ensures { result.now ≡ target_of links.now name.now }
{
    'links: for link in links {
        if link.name.as_slice() == name {
            return link.target.as_slice();
        }
    }
    name
}

// The bytes under a name that is no link.
fn bytes_at<'s>(files: &'s [File], name: &[u8]) -> Option<&'s [u8]>
    ensures { option_map (λ f. f.now) result ≡ file_at files.now name.now }
{
    'files: for file in files {
        if file.name.as_slice() == name {
            return match &file.bytes {
                Some(bytes) => Some(bytes.as_slice()),
                None => None,
            };
        }
    }
    None
}

// How messages call what is read.
fn label_of<'w>(name: Option<&'w [u8]>) -> &'w [u8] {
    match name {
        Some(name) => name,
        None => b"standard input",
    }
}

// A draft of no bytes under whose name these are shown.
fn draft_of(
    alloc: Global,
    room: usize,
    shown: Option<&[u8]>,
    how: How,
) -> Result<MemPlace, TinkError>
    ensures draft { IfOk result (λ p. (p.draft.items ≡ []) × (p.has_draft ≡ true)) }
    ensures unfailed { IfOk result (λ p. p.faults ≡ 0) }
    ensures name { IfOk result (λ p. (option_map (λ v. v.items) p.shown ≡ option_map (λ f. f.now) shown.entry)
        × (p.replaces ≡ replaces_by how)) }
{
    let shown = match shown {
        Some(bytes) => Some(Vec::from_slice(alloc, bytes)?),
        None => None,
    };
    let mut place = MemPlace::new(alloc, room, shown)?;
    place.replaces = match how {
        How::Fresh => false,
        How::Replace | How::Change => true,
    };
    Ok(place)
}
