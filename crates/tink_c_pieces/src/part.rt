//! Bytes that are lent, as a source.

ghost use Rattle.std.specs.Prelude.{◌≡◌, Some, ⊤};
ghost use Rattle.std.specs.Io.{ReadsAtMost};
ghost use Rattle.std.specs.Io.KnownBytes.{ReadConsumes};
ghost use Rattle.tink_io.specs.Faults.{CountsFault};

use std::marker::Model;
use tink_io::{Failed, Source};

/// Bytes that are lent, which are read one after another. No read fails.
#[derive(Drop)]
pub struct Part<'a> {
    bytes: &'a [u8],
}

impl<'a> Model for Part<'a> {
    ghost use Rattle.std.specs.Prelude.{List, ℕ};

    ghost Value = { List ℕ };

    ghost view = { λ s. s.bytes.now };
}

impl<'a> Part<'a> {
    /// A source of `bytes`.
    pub fn new(bytes: &'a [u8]) -> Part<'a>
        ensures { result ≡ bytes.now }
    {
        Part { bytes }
    }
}

impl<'a> Source for Part<'a> {
    ghost left = { λ s. Some s };

    ghost faults = { λ _. 0 };

    ghost same = { λ _ _. ⊤ };

    fn read(&mut self, buf: &mut [u8]) -> Result<usize, Failed>
        ensures bound { ReadsAtMost result buf.new }
        ensures bytes { ReadConsumes (Some self.old) (Some self.new) result buf.new }
        ensures cause { CountsFault 0 0 result }
        ensures same { ⊤ }
    {
        let bytes = self.bytes;
        let n = bytes.len().min(buf.len());
        buf[..n].copy_from_slice(&bytes[..n]);
        self.bytes = &bytes[n..];
        Ok(n)
    }

    ghost same_refl = { λ _. tt };

    ghost same_trans = { λ _ _ _ _ _. tt };
}
