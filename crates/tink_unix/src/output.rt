//! An output: a file, or a pipe or a device as it comes.

ghost use Rattle.std.specs.Prelude.{◌≡◌, ◌<◌, None, ⊤, length, IfOk};
ghost use Rattle.std.specs.Io.{WritesAtMost};

use std::fs::File;
use std::io;
use std::io::{ErrorKind, Write};
use std::rt::{Stderr, Stdout};
use tink_io::{Failed, Sink};
use tink_unix_names::reasons::{NONE, TOO_MANY, WROTE_NOTHING, code_of};

// How often a call that was interrupted is made again.
const TRIES: usize = 1_000;

const EINTR: i32 = 4;

/// A pipe, a device or a standard stream.
#[derive(Drop)]
pub enum Way {
    Output(Stdout),
    Error(Stderr),
    File(File),
}

impl Write for Way {
    fn write(&mut self, buf: &[u8]) -> io::Result<usize> {
        match self {
            Way::Output(stdout) => stdout.write(buf),
            Way::Error(stderr) => stderr.write(buf),
            Way::File(file) => file.write(buf),
        }
    }

    fn flush(&mut self) -> io::Result<()> {
        Ok(())
    }
}

/// A pipe or a device that is written as it comes. No clause knows its bytes.
pub type Stream = Written<Way>;

/// A writer of the system as a sink, and why its last write failed. No clause knows its bytes.
#[derive(Drop)]
pub struct Written<W: Write> {
    pub(crate) inner: W,
    pub(crate) code: i32,
    pub(crate) faults: u64,
}

impl<W: Write> Written<W> {
    pub(crate) fn new(inner: W) -> Written<W>
        ensures { result.faults ≡ 0 }
    {
        Written {
            inner,
            code: NONE,
            faults: 0,
        }
    }
}

impl<W: Write> Sink for Written<W> {
    ghost got = { λ _. None };

    ghost faults = { λ s. s.faults };

    ghost same = { λ _ _. ⊤ };

    fn write(&mut self, buf: &[u8]) -> Result<usize, Failed> {
        match write_retrying(&mut self.inner, buf) {
            Ok(count) => Ok(count),
            Err(code) => {
                self.code = code;
                self.faults = self.faults.saturating_add(1);
                Err(Failed)
            }
        }
    }

    ghost same_refl = { λ _. tt };

    ghost same_trans = { λ _ _ _ _ _. tt };
}

// Writes a byte at least if there is one, again where it was interrupted, or answers the error's number.
fn write_retrying<W: Write>(writer: &mut W, buf: &[u8]) -> Result<usize, i32>
    ensures bound { WritesAtMost result buf.now }
    ensures some { IfOk result (λ n. 0 < length buf.now → 0 < n) }
{
    for _ in 0..TRIES {
        match writer.write(buf) {
            Ok(0) if !buf.is_empty() => return Err(WROTE_NOTHING),
            Ok(count) if count <= buf.len() => return Ok(count),
            Ok(_) => return Err(TOO_MANY),
            Err(e) => {
                if e.kind() != ErrorKind::Interrupted {
                    return Err(code_of(e));
                }
            }
        }
    }
    Err(EINTR)
}
