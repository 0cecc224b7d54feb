//! A sink in memory that grows.

ghost use Rattle.std.specs.Prelude.{◌≡◌, ◌<◌, ◌==◌, length, ⊤, Some, [], IfOk};
ghost use Rattle.std.specs.Io.{WritesAtMost};
ghost use Rattle.std.specs.Io.KnownBytes.{WriteAppends};
ghost use Rattle.tink_io.specs.Faults.{CountsFault};

use std::alloc::Global;
use tink_io::{Failed, Sink};

/// A sink in memory that grows. A write fails if there is no memory for its bytes.
#[derive(Drop)]
pub struct Growing {
    bytes: Vec<u8>,
    faults: u64,
}

impl Growing {
    /// A sink that has taken nothing.
    pub fn new(alloc: Global) -> Self
        ensures bytes { result.bytes.items ≡ [] }
        ensures faults { result.faults ≡ 0 }
    {
        Growing {
            bytes: Vec::new(alloc),
            faults: 0,
        }
    }

    /// Whether no write has failed.
    pub fn is_intact(&self) -> bool
        ensures { result ≡ (self.now.faults == 0) }
    {
        self.faults == 0
    }

    /// The bytes that it has taken.
    pub fn into_bytes(self) -> Vec<u8>
        ensures { result.items ≡ self.bytes.items }
    {
        self.bytes
    }
}

impl Sink for Growing {
    ghost got = { λ s. Some s.bytes.items };

    ghost faults = { λ s. s.faults };

    ghost same = { λ _ _. ⊤ };

    fn write(&mut self, buf: &[u8]) -> Result<usize, Failed>
        ensures bound { WritesAtMost result buf.now }
        ensures some { IfOk result (λ n. 0 < length buf.now → 0 < n) }
        ensures bytes { WriteAppends (Some self.old.bytes.items) (Some self.new.bytes.items) result buf.now }
        ensures cause { CountsFault self.old.faults self.new.faults result }
        ensures same { ⊤ }
    {
        match self.bytes.extend_from_slice(buf) {
            Ok(()) => Ok(buf.len()),
            Err(_) => {
                self.faults = self.faults.saturating_add(1);
                Err(Failed)
            }
        }
    }

    ghost same_refl = { λ _. tt };

    ghost same_trans = { λ _ _ _ _ _. tt };
}
