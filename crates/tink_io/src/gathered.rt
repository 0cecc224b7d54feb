//! A sink that joins small pieces before it hands them on.

ghost use Rattle.std.specs.Prelude.{◌≡◌, ◌≤◌, [], ◌++◌, Ok, length, vec_capacity, IfOk, IfErr, OnOk, OnErr};
ghost use Rattle.std.specs.Io.KnownBytes.{Keeps, append_known};
ghost use Rattle.tink_io.specs.Faults.{CountsFault};
ghost use Rattle.tink_io.specs.declared.error.Kind.TheVariants.{OutOfMemory, WriteFault};
ghost use Rattle.tink_io.specs.Gathering.{HandsOn, IsCutShort, OnlyGrows};

use crate::sending::{drain, keep};
use crate::{Failed, Kind, Sink, TinkError};
use std::alloc::Global;

/// The bytes of the memory that `room` gives.
pub const ROOM: usize = 65_536;

/// A sink for small pieces over a sink that it is lent. They may wait, in a vector that it is lent too, before they
/// are handed on. If it is dropped, the bytes that still wait are lost: `flush` comes before.
#[derive(Drop)]
pub struct Gathered<'a, K> {
    /// The sink that gets the pieces together.
    pub sink: &'a mut K,
    /// The bytes that wait.
    pub waiting: &'a mut Vec<u8>,
}

impl<'a, K: Sink> Gathered<'a, K> {
    /// A sink over `sink` for which nothing waits. The capacity of `waiting` stays, and its bytes are dropped.
    pub fn new(sink: &'a mut K, waiting: &'a mut Vec<u8>) -> Gathered<'a, K>
        ensures lent { result.sink.ghost_name ≡ sink.entry.ghost_name }
        ensures sink { result.sink.now ≡ sink.old }
        ensures memory { result.waiting.ghost_name ≡ waiting.entry.ghost_name }
        ensures empty { result.waiting.now.items ≡ [] }
        ensures capacity { vec_capacity result.waiting.now ≡ vec_capacity waiting.old }
    {
        waiting.clear();
        Gathered { sink, waiting }
    }

    /// Hands on all that waits. Where nothing waits the sink is as before.
    ///
    /// # Errors
    /// `WriteFault` if the sink failed. It has got a prefix of the bytes that waited, and exactly the rest waits
    /// still. A further flush sends it.
    pub fn flush(&mut self) -> Result<(), TinkError>
        ensures sent { OnOk result (Keeps (append_known (K.got self.old.sink.now) self.old.waiting.now.items)
            (K.got self.new.sink.now)) }
        ensures cut { OnErr result (IsCutShort (append_known (K.got self.old.sink.now) self.old.waiting.now.items)
            (K.got self.new.sink.now)) }
        ensures handed { HandsOn (K.got self.old.sink.now) (K.got self.new.sink.now)
            self.old.waiting.now.items self.new.waiting.now.items }
        ensures refused { IfErr result (λ e. e ≡ record { kind = WriteFault }) }
        ensures cause { CountsFault (K.faults self.old.sink.now) (K.faults self.new.sink.now) result }
        ensures still { self.old.waiting.now.items ≡ [] → (result ≡ Ok tt) × (self.new.sink.now ≡ self.old.sink.now) }
        ensures empty { OnOk result (self.new.waiting.now.items ≡ []) }
        ensures capacity { vec_capacity self.new.waiting.now ≡ vec_capacity self.old.waiting.now }
        ensures grows { OnlyGrows (K.got self.old.sink.now) (K.got self.new.sink.now) }
        ensures lent { self.new.sink.ghost_name ≡ self.old.sink.ghost_name }
        ensures memory { self.new.waiting.ghost_name ≡ self.old.waiting.ghost_name }
        ensures same { K.same self.old.sink.now self.new.sink.now }
    {
        match drain(self.sink, self.waiting) {
            Ok(()) => Ok(()),
            Err(_) => Err(TinkError::new(Kind::WriteFault)),
        }
    }
}

/// Memory for pieces of 65,536 bytes together.
///
/// # Errors
/// OutOfMemory.
pub fn room(alloc: Global) -> Result<Vec<u8>, TinkError>
    ensures capacity { IfOk result (λ v. vec_capacity v ≡ 65536) }
    ensures refused { IfErr result (λ e. e ≡ record { kind = OutOfMemory }) }
{
    let room = Vec::with_capacity(alloc, ROOM)?;
    Ok(room)
}

impl<'a, K: Sink> Sink for Gathered<'a, K> {
    // What the sink behind has got, and then what waits.
    ghost got = { λ s. append_known (K.got s.sink.now) s.waiting.now.items };

    ghost faults = { λ s. K.faults s.sink.now };

    // Both loans are the same, what the sink behind has got stays a prefix of what it gets, and the memory does not
    // shrink.
    ghost same = { λ s t. (t.sink.ghost_name ≡ s.sink.ghost_name) × (t.waiting.ghost_name ≡ s.waiting.ghost_name)
        × K.same s.sink.now t.sink.now × OnlyGrows (K.got s.sink.now) (K.got t.sink.now)
        × (vec_capacity s.waiting.now ≤ vec_capacity t.waiting.now) };

    // A piece that does not fit behind what waits sends that first, and one that is as long as the memory does not
    // wait.
    fn write(&mut self, buf: &[u8]) -> Result<usize, Failed> {
        let capacity = self.waiting.capacity();
        if buf.len() < capacity && buf.len() <= capacity - self.waiting.len() {
            keep(self.waiting, buf);
            return Ok(buf.len());
        }
        drain(self.sink, self.waiting)?;
        if buf.len() < capacity {
            keep(self.waiting, buf);
            return Ok(buf.len());
        }
        self.sink.write(buf)
    }

    ghost use Rattle.std.proofs.Common.{refl, ◌∙◌, le_refl, le_trans};
    ghost use Rattle.std.proofs.KnownBytes.{Appends-nil, Appends-trans};

    ghost same_refl = { λ s. (refl, refl, K.same_refl s.sink.now, ([], Appends-nil (K.got s.sink.now)), le_refl _) };

    ghost same_trans = { λ s t u p q. (
      q.0 ∙ p.0,
      q.1 ∙ p.1,
      K.same_trans s.sink.now t.sink.now u.sink.now p.2 q.2,
      (p.3.0 ++ q.3.0, Appends-trans _ _ _ _ _ p.3.1 q.3.1),
      le_trans p.4 q.4,
    ) };
}
