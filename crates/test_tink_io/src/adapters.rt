//! A reader and writer of std, which no clause ties to what a source or a sink over it gives and takes.

ghost use Rattle.std.specs.Prelude.{◌≤◌, IfOk};

use std::io;
use std::io::{ErrorKind, Read, Write};
use tink_io::{Failed, Sink, StdSink};

/// A reader and writer of one byte a call: so many calls and so many flushes are interrupted, and then each answers by
/// `answer`.
#[derive(Drop)]
pub struct Flaky {
    interrupts: u32,
    flush_interrupts: u32,
    answer: Answer,
    /// The byte that was written last.
    last: u8,
}

/// What it answers.
#[derive(Clone, Copy)]
pub enum Answer {
    One,
    Nothing,
    Broken,
    NoFlush,
}

impl Flaky {
    /// One of which so many calls and so many flushes are interrupted.
    pub fn new(interrupts: u32, flush_interrupts: u32, answer: Answer) -> Flaky {
        Flaky {
            interrupts,
            flush_interrupts,
            answer,
            last: 0,
        }
    }

    fn step(&mut self) -> io::Result<usize>
        ensures { IfOk result (λ n. n ≤ 1) }
    {
        if self.interrupts > 0 {
            self.interrupts -= 1;
            return Err(ErrorKind::Interrupted.into());
        }
        match self.answer {
            Answer::One | Answer::NoFlush => Ok(1),
            Answer::Nothing => Ok(0),
            Answer::Broken => Err(ErrorKind::BrokenPipe.into()),
        }
    }
}

impl Read for Flaky {
    fn read(&mut self, buf: &mut [u8]) -> io::Result<usize> {
        let count = self.step()?.min(buf.len());
        buf[..count].fill(7);
        Ok(count)
    }
}

impl Write for Flaky {
    fn write(&mut self, buf: &[u8]) -> io::Result<usize> {
        let count = self.step()?.min(buf.len());
        if count > 0 {
            self.last = buf[0];
        }
        Ok(count)
    }

    fn flush(&mut self) -> io::Result<()> {
        if self.flush_interrupts > 0 {
            self.flush_interrupts -= 1;
            return Err(ErrorKind::Interrupted.into());
        }
        match self.answer {
            Answer::NoFlush => Err(ErrorKind::BrokenPipe.into()),
            _ => Ok(()),
        }
    }
}

/// What a sink over such a writer answers to a piece, and the byte that the writer took last.
pub fn write_once(mut writer: Flaky, piece: &[u8]) -> (Result<usize, Failed>, u8) {
    let answer = StdSink::new(&mut writer).write(piece);
    (answer, writer.last)
}
