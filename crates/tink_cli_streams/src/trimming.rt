//! A source without the newline that its bytes end by.

ghost use Rattle.std.specs.Prelude.{◌≡◌, ◌<◌, ◌≤◌, ◌==◌, ◌&&◌, Some, None, true, length};
ghost use Rattle.std.specs.Io.{ReadsAtMost};
ghost use Rattle.std.specs.Io.KnownBytes.{ReadConsumes};
ghost use Rattle.tink_io.specs.Faults.{CountsFault};
ghost use Rattle.tink_cli_streams.specs.Trimming.{ends_at, holds_back, unread};

use tink_io::{Failed, Source};

/// A source. If it trims, one newline at the end of its bytes is not given.
#[derive(Drop)]
pub struct Trimmed<S: Source + Drop> {
    pub source: S,
    trims: bool,
    // A byte that was read and is still to be given.
    held: Option<u8>,
}

impl<S: Source + Drop> Trimmed<S> {
    /// This source. One newline at the end is not given if `trims` holds.
    pub fn new(source: S, trims: bool) -> Self
        ensures { unread result.trims result.held (S.left result.source) ≡ unread trims None (S.left source) }
    {
        Trimmed {
            source,
            trims,
            held: None,
        }
    }

    // Gives the byte that is held, if it is not the last newline.
    fn give_held(&mut self, byte: u8, buf: &mut [u8]) -> Result<usize, Failed>
        requires held { self.old.held ≡ Some byte }
        requires room { 0 < length buf.old }
        ensures bound { ReadsAtMost result buf.new }
        ensures bytes { ReadConsumes (unread self.old.trims self.old.held (S.left self.old.source))
            (unread self.new.trims self.new.held (S.left self.new.source)) result buf.new }
        ensures cause { CountsFault (S.faults self.old.source) (S.faults self.new.source) result }
        ensures same { S.same self.old.source self.new.source }
    {
        if may_end(self.trims, byte) {
            return self.give_newline(buf);
        }
        self.held = None;
        buf[0] = byte;
        Ok(1)
    }

    // Gives a newline that is held, if a byte is behind it. That one is held then.
    fn give_newline(&mut self, buf: &mut [u8]) -> Result<usize, Failed>
        requires trims { self.old.trims ≡ true }
        requires held { self.old.held ≡ Some 10 }
        requires room { 0 < length buf.old }
        ensures bound { ReadsAtMost result buf.new }
        ensures bytes { ReadConsumes (unread self.old.trims self.old.held (S.left self.old.source))
            (unread self.new.trims self.new.held (S.left self.new.source)) result buf.new }
        ensures cause { CountsFault (S.faults self.old.source) (S.faults self.new.source) result }
        ensures same { S.same self.old.source self.new.source }
    {
        let mut next = [0];
        match self.source.read(&mut next) {
            Ok(0) => Ok(0),
            Ok(_) => {
                self.held = Some(next[0]);
                buf[0] = b'\n';
                Ok(1)
            }
            Err(e) => Err(e),
        }
    }

    // Gives what is read. A newline that it ends by is held.
    fn give_read(&mut self, buf: &mut [u8]) -> Result<usize, Failed>
        requires held { self.old.held ≡ None }
        requires room { 0 < length buf.old }
        ensures bound { ReadsAtMost result buf.new }
        ensures bytes { ReadConsumes (unread self.old.trims self.old.held (S.left self.old.source))
            (unread self.new.trims self.new.held (S.left self.new.source)) result buf.new }
        ensures cause { CountsFault (S.faults self.old.source) (S.faults self.new.source) result }
        ensures same { S.same self.old.source self.new.source }
    {
        match self.source.read(buf) {
            Ok(n) => {
                if !holds_back(self.trims, buf, n) {
                    return Ok(n);
                }
                self.held = Some(b'\n');
                if n == 1 {
                    return self.give_newline(buf);
                }
                Ok(n - 1)
            }
            Err(e) => Err(e),
        }
    }
}

// Whether a byte that is held may be the last newline.
fn may_end(trims: bool, byte: u8) -> bool
    ensures { result ≡ (trims && (byte == 10)) }
{
    trims && byte == b'\n'
}

// Whether the last of so many bytes may be the last newline.
fn holds_back(trims: bool, buf: &[u8], n: usize) -> bool
    requires { n ≤ length buf.now }
    ensures { result ≡ holds_back trims buf.now n }
{
    trims && ends_at(buf, n)
}

// Whether the last of so many bytes is a newline.
fn ends_at(buf: &[u8], n: usize) -> bool
    requires { n ≤ length buf.now }
    ensures { result ≡ ends_at buf.now n }
{
    if n == 0 {
        return false;
    }
    buf[n - 1] == b'\n'
}

impl<S: Source + Drop> Source for Trimmed<S> {
    ghost left = { λ s. unread s.trims s.held (S.left s.source) };

    ghost faults = { λ s. S.faults s.source };

    ghost same = { λ s t. S.same s.source t.source };

    fn read(&mut self, buf: &mut [u8]) -> Result<usize, Failed> {
        if buf.is_empty() {
            return Ok(0);
        }
        match self.held {
            Some(byte) => self.give_held(byte, buf),
            None => self.give_read(buf),
        }
    }

    ghost same_refl = { λ s. S.same_refl s.source };

    ghost same_trans = { λ s t u p q. S.same_trans s.source t.source u.source p q };
}
