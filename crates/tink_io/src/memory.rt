//! Sources and sinks over memory.

ghost use Rattle.std.specs.Prelude.{◌≡◌, ◌≤◌, ◌+◌, ◌-◌, ◌<◌, ◌↔◌, ◌==◌, ◌++◌, ⊤, ℕ, List, [], Some, Ok};
ghost use Rattle.std.specs.Prelude.{IsErr, IsTrue, IfOk, IfErr, OnOk, OnErr, length, take, drop, max, min};
ghost use Rattle.tink_io.specs.declared.error.Kind.TheVariants.{OutOfMemory};
ghost use Rattle.std.specs.List.{list_any};
ghost use Rattle.std.specs.Io.{ReadsAtMost, WritesAtMost};
ghost use Rattle.std.specs.Io.KnownBytes.{ReadConsumes, WriteAppends};
ghost use Rattle.tink_io.specs.Faults.{CountsFault};
ghost use Rattle.tink_io.specs.Memory.{SameSource, SameSink, after_read, after_write, at_most_piece};
ghost use Rattle.tink_io.specs.Memory.{read_len, write_len, is_read_fault, is_write_fault};

use crate::{Failed, Sink, Source, TinkError};
use std::alloc::Global;
use std::marker::Model;

/// A source over memory. Its calls are numbered from 1, and those in `fails` fail; a call moves at
/// most `piece` bytes, 0 being no limit.
#[derive(Drop)]
pub struct MemSource {
    bytes: Vec<u8>,
    at: usize,
    piece: usize,
    fails: Vec<u32>,
    calls: u64,
    faults: u64,
}

impl Model for MemSource {
    ghost use Rattle.std.specs.Prelude.{◌≤◌, drop, vec_len};
    ghost use Rattle.tink_io.specs.Memory.{MemoryLeft};

    ghost Value = { MemoryLeft };

    ghost view = { λ s. record {
      left = drop s.at s.bytes.items;
      piece = s.piece;
      fails = s.fails.items;
      calls = s.calls;
      faults = s.faults;
    } };

    ghost invariant = { λ s. s.at ≤ vec_len s.bytes };
}

impl MemSource {
    /// A source that gives `bytes`.
    pub fn new(bytes: Vec<u8>, piece: usize, fails: Vec<u32>) -> Self
        ensures { result ≡ record { left = bytes.items; piece = piece; fails = fails.items; calls = 0; faults = 0 } }
    {
        MemSource {
            bytes,
            at: 0,
            piece,
            fails,
            calls: 0,
            faults: 0,
        }
    }
}

// Whether the call of that number is to fail.
fn is_listed(fails: &Vec<u32>, call: u64) -> bool
    ensures { result ≡ list_any (λ f. f == call) fails.now.items }
{
    fails.iter().any(|f| u64::from(*f) == call)
}

// Moves the next bytes, at most a piece, to the beginning of `buf`, and answers how many.
fn give(bytes: &[u8], at: usize, piece: usize, buf: &mut [u8]) -> usize
    requires { at ≤ length bytes.now }
    ensures count { result ≡ at_most_piece piece (min (length bytes.now - at) (length buf.old)) }
    ensures moved { drop at bytes.now ≡ take result buf.new ++ drop (at + result) bytes.now }
    ensures end { result ≡ 0 → 0 < length buf.old → length bytes.now ≤ at }
{
    let mut n = (bytes.len() - at).min(buf.len());
    if piece > 0 {
        n = n.min(piece);
    }
    buf[..n].copy_from_slice(&bytes[at..at + n]);
    n
}

impl Source for MemSource {
    ghost use Rattle.tink_io.specs.MemoryLaws.{SameSource-refl, SameSource-trans};

    ghost left = { λ s. Some s.left };

    ghost faults = { λ s. s.faults };

    ghost same = { SameSource };

    fn read(&mut self, buf: &mut [u8]) -> Result<usize, Failed>
        ensures bound { ReadsAtMost result buf.new }
        ensures bytes { ReadConsumes (Some self.old.left) (Some self.new.left) result buf.new }
        ensures cause { CountsFault self.old.faults self.new.faults result }
        ensures same { SameSource self.old self.new }
        ensures moved { IfOk result (λ n. n ≡ read_len self.old (length buf.old)) }
        ensures fault { IsErr result ↔ IsTrue (is_read_fault self.old) }
        ensures after { self.new ≡ after_read self.old (length buf.old) }
    {
        self.calls = self.calls.saturating_add(1);
        if is_listed(&self.fails, self.calls) {
            self.faults = self.faults.saturating_add(1);
            return Err(Failed);
        }
        let n = give(&self.bytes, self.at, self.piece, buf);
        self.at += n;
        Ok(n)
    }

    ghost same_refl = { SameSource-refl };

    ghost same_trans = { SameSource-trans };
}

/// A sink over memory, with room for what `reserve` made. Its calls are numbered from 1, and those
/// in `fails` fail; a call moves at most `piece` bytes, 0 being no limit. Where the room is used up
/// a write of a piece that is not empty fails. A write takes no memory.
#[derive(Drop)]
pub struct MemSink {
    taken: Vec<u8>,
    room: usize,
    piece: usize,
    fails: Vec<u32>,
    calls: u64,
    faults: u64,
}

impl Model for MemSink {
    ghost use Rattle.std.specs.Prelude.{◌≤◌, vec_len, vec_capacity};
    ghost use Rattle.tink_io.specs.Memory.{MemoryTaken};

    ghost Value = { MemoryTaken };

    ghost view = { λ s. record {
      got = s.taken.items;
      room = s.room;
      piece = s.piece;
      fails = s.fails.items;
      calls = s.calls;
      faults = s.faults;
    } };

    ghost invariant = { λ s. (vec_len s.taken ≤ s.room) × (s.room ≤ vec_capacity s.taken) };
}

impl MemSink {
    /// A sink that has taken nothing and has no room.
    pub fn new(alloc: Global, piece: usize, fails: Vec<u32>) -> Self
        ensures { result ≡ record { got = []; room = 0; piece = piece; fails = fails.items; calls = 0; faults = 0 } }
    {
        MemSink {
            taken: Vec::new(alloc),
            room: 0,
            piece,
            fails,
            calls: 0,
            faults: 0,
        }
    }

    /// Makes room for `n` more bytes than it has taken.
    ///
    /// # Errors
    /// `OutOfMemory`. Nothing changes then.
    pub fn reserve(&mut self, _alloc: Global, n: usize) -> Result<(), TinkError>
        ensures made { OnOk result (self.new ≡ record self.old { room = max self.old.room (length self.old.got + n) }) }
        ensures refused { IfErr result (λ e. e ≡ record { kind = OutOfMemory }) }
        ensures err { OnErr result (self.new ≡ self.old) }
    {
        self.taken.reserve(n)?;
        self.room = self.room.max(self.taken.len() + n);
        Ok(())
    }

    /// The bytes that it has taken.
    pub fn bytes(&self) -> &[u8]
        ensures { result.now ≡ self.now.got }
    {
        &self.taken
    }

    /// The bytes that it has taken, without memory.
    pub fn into_bytes(self) -> Vec<u8>
        ensures { result.items ≡ self.got }
    {
        self.taken
    }
}

impl Sink for MemSink {
    ghost use Rattle.tink_io.specs.MemoryLaws.{SameSink-refl, SameSink-trans};

    ghost got = { λ s. Some s.got };

    ghost faults = { λ s. s.faults };

    ghost same = { SameSink };

    fn write(&mut self, buf: &[u8]) -> Result<usize, Failed>
        ensures bound { WritesAtMost result buf.now }
        ensures some { IfOk result (λ n. 0 < length buf.now → 0 < n) }
        ensures bytes { WriteAppends (Some self.old.got) (Some self.new.got) result buf.now }
        ensures cause { CountsFault self.old.faults self.new.faults result }
        ensures same { SameSink self.old self.new }
        ensures taken { IfOk result (λ n. n ≡ write_len self.old (length buf.now)) }
        ensures fault { IsErr result ↔ IsTrue (is_write_fault self.old (length buf.now)) }
        ensures after { self.new ≡ after_write self.old buf.now }
    {
        self.calls = self.calls.saturating_add(1);
        if is_listed(&self.fails, self.calls) {
            self.faults = self.faults.saturating_add(1);
            return Err(Failed);
        }
        if buf.is_empty() {
            return Ok(0);
        }
        let mut n = (self.room - self.taken.len()).min(buf.len());
        if n == 0 {
            self.faults = self.faults.saturating_add(1);
            return Err(Failed);
        }
        if self.piece > 0 {
            n = n.min(self.piece);
        }
        match self.taken.extend_from_slice(&buf[..n]) {
            Ok(()) => Ok(n),
            Err(_) => unreachable!(),
        }
    }

    ghost same_refl = { SameSink-refl };

    ghost same_trans = { SameSink-trans };
}

/// A source over memory that never fails.
#[derive(Drop)]
pub struct SureSource {
    bytes: Vec<u8>,
    at: usize,
}

impl Model for SureSource {
    ghost use Rattle.std.specs.Prelude.{List, ℕ, ◌≤◌, drop, vec_len};

    ghost Value = { List ℕ };

    ghost view = { λ s. drop s.at s.bytes.items };

    ghost invariant = { λ s. s.at ≤ vec_len s.bytes };
}

impl SureSource {
    /// A source that gives `bytes`.
    pub fn new(bytes: Vec<u8>) -> Self
        ensures { result ≡ bytes.items }
    {
        SureSource { bytes, at: 0 }
    }
}

impl Source for SureSource {
    ghost left = { λ s. Some s };

    ghost faults = { λ _. 0 };

    ghost same = { λ _ _. ⊤ };

    fn read(&mut self, buf: &mut [u8]) -> Result<usize, Failed>
        ensures bound { ReadsAtMost result buf.new }
        ensures bytes { ReadConsumes (Some self.old) (Some self.new) result buf.new }
        ensures cause { CountsFault 0 0 result }
        ensures same { ⊤ }
        ensures moved { result ≡ Ok (min (length self.old) (length buf.old)) }
    {
        let n = give(&self.bytes, self.at, 0, buf);
        self.at += n;
        Ok(n)
    }

    ghost same_refl = { λ _. tt };

    ghost same_trans = { λ _ _ _ _ _. tt };
}

/// A sink over memory without a limit on a call and without calls that are to fail.
#[derive(Drop)]
pub struct SureSink {
    inner: MemSink,
}

impl Model for SureSink {
    ghost use Rattle.std.specs.Prelude.{◌≡◌, []};
    ghost use Rattle.tink_io.specs.Memory.{MemoryTaken};

    ghost Value = { MemoryTaken };

    ghost view = { λ s. s.inner };

    ghost invariant = { λ s. (s.inner.fails ≡ []) × (s.inner.piece ≡ 0) };
}

impl SureSink {
    /// A sink that has taken nothing and has no room.
    pub fn new(alloc: Global) -> Self
        ensures { result ≡ record { got = []; room = 0; piece = 0; fails = []; calls = 0; faults = 0 } }
    {
        SureSink {
            inner: MemSink::new(alloc, 0, Vec::new(alloc)),
        }
    }

    /// Makes room for `n` more bytes than it has taken.
    ///
    /// # Errors
    /// `OutOfMemory`. Nothing changes then.
    pub fn reserve(&mut self, alloc: Global, n: usize) -> Result<(), TinkError>
        ensures made { OnOk result (self.new ≡ record self.old { room = max self.old.room (length self.old.got + n) }) }
        ensures refused { IfErr result (λ e. e ≡ record { kind = OutOfMemory }) }
        ensures err { OnErr result (self.new ≡ self.old) }
    {
        self.inner.reserve(alloc, n)
    }

    /// The bytes that it has taken.
    pub fn bytes(&self) -> &[u8]
        ensures { result.now ≡ self.now.got }
    {
        self.inner.bytes()
    }

    /// The bytes that it has taken, without memory.
    pub fn into_bytes(self) -> Vec<u8>
        ensures { result.items ≡ self.got }
    {
        self.inner.into_bytes()
    }
}

impl Sink for SureSink {
    ghost use Rattle.tink_io.specs.MemoryLaws.{SameSink-refl, SameSink-trans};

    ghost got = { λ s. Some s.got };

    ghost faults = { λ s. s.faults };

    ghost same = { SameSink };

    fn write(&mut self, buf: &[u8]) -> Result<usize, Failed>
        ensures bound { WritesAtMost result buf.now }
        ensures some { IfOk result (λ n. 0 < length buf.now → 0 < n) }
        ensures bytes { WriteAppends (Some self.old.got) (Some self.new.got) result buf.now }
        ensures cause { CountsFault self.old.faults self.new.faults result }
        ensures same { SameSink self.old self.new }
        ensures taken { IfOk result (λ n. n ≡ min (self.old.room - length self.old.got) (length buf.now)) }
        ensures fault { IsErr result → (self.old.room ≤ length self.old.got) × (0 < length buf.now) }
        ensures after { self.new ≡ after_write self.old buf.now }
    {
        self.inner.write(buf)
    }

    ghost same_refl = { SameSink-refl };

    ghost same_trans = { SameSink-trans };
}
