//! Sealed bytes that wait to be read.

ghost use Rattle.std.specs.Prelude.{◌≡◌, ◌≤◌, ◌<◌, ◌++◌, [], Some, length, take, drop, nat_le, IfOk, IfErr, vec_len, vec_capacity};
ghost use Rattle.tink_io.specs.declared.error.Kind.TheVariants.{OutOfMemory};

use std::alloc::Global;
use tink_io::{Failed, Sink, TinkError};

/// A sink in memory whose bytes are read again. It takes as many as it was made for.
#[derive(Drop)]
pub struct Pending {
    /// The bytes that it has taken.
    pub bytes: Vec<u8>,
    /// The number of bytes that were read again.
    pub given: usize,
    /// The bytes that it takes at most.
    pub room: usize,
    /// How often it has failed.
    pub faults: u64,
    ghost given_in: { given ≤ vec_len bytes },
    ghost fits: { vec_len bytes ≤ room },
    ghost reserved: { room ≤ vec_capacity bytes },
    ghost full: { 0 < faults → room ≤ vec_len bytes },
}

impl Pending {
    ghost use Rattle.tink_large.specs.Coming.{pending_bytes};

    /// An empty one with room for this number of bytes.
    ///
    /// # Errors
    /// `OutOfMemory`.
    pub fn reserve(alloc: Global, room: usize) -> Result<Pending, TinkError>
        ensures empty { IfOk result (λ p. p.bytes.items ≡ []) }
        ensures given { IfOk result (λ p. p.given ≡ 0) }
        ensures room { IfOk result (λ p. p.room ≡ room) }
        ensures refused { IfErr result (λ e. e ≡ record { kind = OutOfMemory }) }
    {
        let bytes = Vec::with_capacity(alloc, room)?;
        Ok(Pending {
            bytes,
            given: 0,
            room,
            faults: 0,
        })
    }

    /// Forgets all bytes.
    pub fn clear(&mut self)
        ensures empty { self.new.bytes.items ≡ [] }
        ensures given { self.new.given ≡ 0 }
        ensures room { self.new.room ≡ self.old.room }
    {
        self.bytes.clear();
        self.given = 0;
        self.faults = 0;
    }

    /// Whether all bytes were given.
    pub fn is_given(&self) -> bool
        ensures { result ≡ nat_le (vec_len self.now.bytes) self.now.given }
    {
        self.bytes.len() <= self.given
    }

    /// Moves the next bytes to the beginning of `buf`, and answers how many.
    pub fn give(&mut self, buf: &mut [u8]) -> usize
        ensures within { result ≤ length buf.old }
        ensures moved { pending_bytes self.old ≡ take result buf.new ++ pending_bytes self.new }
        ensures end { result ≡ 0 → 0 < length buf.old → pending_bytes self.old ≡ [] }
        ensures room { self.new.room ≡ self.old.room }
    {
        let n = (self.bytes.len() - self.given).min(buf.len());
        buf[..n].copy_from_slice(&self.bytes[self.given..self.given + n]);
        self.given += n;
        n
    }
}

impl Sink for Pending {
    ghost use Rattle.std.proofs.Common.{refl, ◌∙◌};

    ghost got = { λ p. Some p.bytes.items };

    ghost faults = { λ p. p.faults };

    ghost same = { λ p q. (q.room ≡ p.room) × (q.given ≡ p.given) };

    fn write(&mut self, buf: &[u8]) -> Result<usize, Failed> {
        let n = (self.room - self.bytes.len()).min(buf.len());
        if n < buf.len().min(1) {
            self.faults = self.faults.saturating_add(1);
            return Err(Failed);
        }
        match self.bytes.extend_from_slice(&buf[..n]) {
            Ok(()) => Ok(n),
            Err(_) => unreachable!(),
        }
    }

    ghost same_refl = { λ _. (refl, refl) };

    ghost same_trans = { λ _ _ _ p q. (q.0 ∙ p.0, q.1 ∙ p.1) };
}
