//! A system in memory, and the steps that are taken in it.

use crate::known::{KEYS, MACS, MASTER, TEXT};
use std::alloc::Global;
use test_util::{Ask, CTR_35, GCM_41, sink_of};
use tink_cli::run;
use tink_io::{SureSink, TinkError};
use tink_system::MemSystem;

// Each command takes at most so many random bytes.
const DRAWN: usize = 1024;

// A draft, standard output and standard error have room for so many bytes.
const ROOM: usize = 20_000;

/// A system in memory, and what the last command wrote.
#[derive(Drop)]
pub struct World {
    system: MemSystem,
    output: SureSink,
    faults: SureSink,
}

/// A step, which holds or not.
pub enum Step {
    /// The command of these words, between which a space is, ends by this status.
    Run(&'static str, u8),
    /// The next random bytes are these and zeros.
    Random(&'static [u8]),
    /// These bytes are standard input.
    Input(&'static [u8]),
    /// The file of this name has these bytes from now on.
    Put(&'static str, &'static [u8]),
    /// The file of this name has those of these bytes that are between two places.
    Part(&'static str, &'static [u8], usize, usize),
    /// The first name is a link to the file of the second.
    Link(&'static str, &'static str),
    /// The file of this name has these bytes.
    Is(&'static str, &'static [u8]),
    /// No file has this name.
    IsNone(&'static str),
    /// The last command wrote these bytes to standard output.
    Output(&'static [u8]),
}

impl Ask<World> for Step {
    fn answer(&self, alloc: Global, world: &mut World) -> Result<bool, TinkError> {
        match *self {
            Step::Run(words, status) => world.ends_by(alloc, words, status),
            Step::Random(bytes) => world.draw(alloc, bytes),
            Step::Input(bytes) => world.read(alloc, bytes),
            Step::Put(name, bytes) => world.put(name, bytes),
            Step::Part(name, bytes, from, to) => world.put(name, part(bytes, from, to)),
            Step::Link(name, target) => world.link(name, target),
            Step::Is(name, bytes) => Ok(world.has(name, Some(bytes))),
            Step::IsNone(name) => Ok(world.has(name, None)),
            Step::Output(bytes) => Ok(world.output.bytes() == bytes),
        }
    }
}

impl World {
    /// A world with a file of keys of each use, and a text.
    pub fn new(alloc: Global) -> Result<World, TinkError> {
        let mut system = MemSystem::new(alloc, Vec::new(alloc), Vec::new(alloc), ROOM);
        for (name, bytes) in FILES {
            system.put_file(name.as_bytes(), bytes)?;
        }
        Ok(World {
            system,
            output: sink_of(alloc, ROOM)?,
            faults: sink_of(alloc, ROOM)?,
        })
    }

    // Whether a command ends by this status.
    fn ends_by(&mut self, alloc: Global, words: &str, status: u8) -> Result<bool, TinkError> {
        let words = words_of(alloc, words)?;
        self.output = sink_of(alloc, ROOM)?;
        self.faults = sink_of(alloc, ROOM)?;
        let ended = run(
            alloc,
            &mut self.system,
            &words,
            &mut self.output,
            &mut self.faults,
        );
        Ok(ended == status)
    }

    fn draw(&mut self, alloc: Global, bytes: &[u8]) -> Result<bool, TinkError> {
        let mut random = Vec::from_slice(alloc, bytes)?;
        random.resize(DRAWN, 0)?;
        self.system.set_random(random);
        Ok(true)
    }

    fn read(&mut self, alloc: Global, bytes: &[u8]) -> Result<bool, TinkError> {
        self.system.set_input(Vec::from_slice(alloc, bytes)?);
        Ok(true)
    }

    fn put(&mut self, name: &str, bytes: &[u8]) -> Result<bool, TinkError> {
        self.system.put_file(name.as_bytes(), bytes)?;
        Ok(true)
    }

    fn link(&mut self, name: &str, target: &str) -> Result<bool, TinkError> {
        self.system.put_link(name.as_bytes(), target.as_bytes())?;
        Ok(true)
    }

    // Whether a file has these bytes, or there is none.
    fn has(&self, name: &str, bytes: Option<&[u8]>) -> bool {
        self.system.file(name.as_bytes()) == bytes
    }
}

// The files that a world begins with.
const FILES: &[(&str, &[u8])] = &[
    ("keys", KEYS),
    ("master", MASTER),
    ("macs", MACS),
    ("ctr", CTR_35),
    ("gcm", GCM_41),
    ("text", TEXT),
];

// The bytes between two places, as far as there are some.
fn part(bytes: &[u8], from: usize, to: usize) -> &[u8] {
    bytes.get(from..to).unwrap_or(&[])
}

/// The words of a line, between which a space is.
pub fn words_of(alloc: Global, line: &str) -> Result<Vec<Vec<u8>>, TinkError> {
    let mut words = Vec::new(alloc);
    for word in line.split(' ') {
        words.push(Vec::from_slice(alloc, word.as_bytes())?)?;
    }
    Ok(words)
}
