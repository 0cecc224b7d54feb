//! Objects in memory.

ghost use Rattle.std.specs.Prelude.{◌≡◌, ◌≤◌, ◌+◌, ◌-◌, ◌<◌, ◌↔◌, ◌==◌, ⊤, ℕ, List, [], Some, Ok};
ghost use Rattle.std.specs.Prelude.{IsErr, IsTrue, IfOk, length, take, drop, min};
ghost use Rattle.std.specs.List.{list_any};
ghost use Rattle.tink_io.specs.Memory.{at_most_piece};
ghost use Rattle.tink_range.specs.MemoryAt.{SameAt, after_read_at, is_at_fault, read_at_len};
ghost use Rattle.tink_range.specs.Objects.{CountsRead};
ghost use Rattle.tink_range.specs.ReadCounts.{read_count};

use crate::read_at::ReadAt;
use std::marker::Model;
use tink_io::Failed;

/// An object in memory. Its reads are numbered from 1, and those in `fails` fail; a read moves at most `piece` bytes,
/// 0 being no limit.
#[derive(Drop)]
pub struct MemAt {
    bytes: Vec<u8>,
    piece: usize,
    fails: Vec<u32>,
    calls: u64,
    faults: u64,
}

impl Model for MemAt {
    ghost use Rattle.tink_range.specs.MemoryAt.{MemoryAt};

    ghost Value = { MemoryAt };

    ghost view = { λ s. record {
      bytes = s.bytes.items;
      piece = s.piece;
      fails = s.fails.items;
      calls = s.calls;
      faults = s.faults;
    } };
}

impl MemAt {
    /// An object of `bytes`.
    pub fn new(bytes: Vec<u8>, piece: usize, fails: Vec<u32>) -> Self
        ensures { result ≡ record { bytes = bytes.items; piece = piece; fails = fails.items; calls = 0; faults = 0 } }
    {
        MemAt {
            bytes,
            piece,
            fails,
            calls: 0,
            faults: 0,
        }
    }
}

// Whether the read of that number is to fail.
fn is_listed(fails: &Vec<u32>, call: u64) -> bool
    ensures { result ≡ list_any (λ f. f == call) fails.now.items }
{
    fails.iter().any(|f| u64::from(*f) == call)
}

// Moves bytes from `pos` on, at most a piece, to the beginning of `buf`, and answers how many.
fn give_at(bytes: &[u8], pos: u64, piece: usize, buf: &mut [u8]) -> usize
    ensures count { result ≡ at_most_piece piece (min (length bytes.now - pos) (length buf.old)) }
    ensures given { take result buf.new ≡ take result (drop pos bytes.now) }
{
    if pos >= bytes.len() as u64 {
        return 0;
    }
    let at = pos as usize;
    let mut n = (bytes.len() - at).min(buf.len());
    if piece > 0 {
        n = n.min(piece);
    }
    buf[..n].copy_from_slice(&bytes[at..at + n]);
    n
}

impl ReadAt for MemAt {
    ghost use Rattle.tink_range.specs.MemoryAt.{SameAt-refl, SameAt-trans};
    ghost use Rattle.std.proofs.Common.{refl};

    ghost length_of = { λ s. length s.bytes };

    ghost bytes = { λ s. Some s.bytes };

    ghost faults = { λ s. s.faults };

    ghost taken = { λ s. s.calls };

    ghost same = { SameAt };

    fn size(&self) -> u64 {
        self.bytes.len() as u64
    }

    fn read_at(&mut self, pos: u64, buf: &mut [u8]) -> Result<usize, Failed>
        ensures room { IfOk result (λ n. n ≤ length buf.old) }
        ensures within { IfOk result (λ n. n ≤ length self.old.bytes - pos) }
        ensures some { IfOk result (λ n. 0 < length buf.old → pos < length self.old.bytes → 0 < n) }
        ensures given { IfOk result (λ n. take n buf.new ≡ take n (drop pos self.old.bytes)) }
        ensures length { length self.new.bytes ≡ length self.old.bytes }
        ensures bytes { Some self.new.bytes ≡ Some self.old.bytes }
        ensures cause { CountsRead self.old.faults self.new.faults result }
        ensures taken { self.new.calls ≤ self.old.calls + read_count result }
        ensures same { SameAt self.old self.new }
        ensures moved { IfOk result (λ n. n ≡ read_at_len self.old pos (length buf.old)) }
        ensures after { (IsErr result ↔ IsTrue (is_at_fault self.old)) × (self.new ≡ after_read_at self.old) }
    {
        self.calls = self.calls.saturating_add(1);
        if is_listed(&self.fails, self.calls) {
            self.faults = self.faults.saturating_add(1);
            return Err(Failed);
        }
        Ok(give_at(&self.bytes, pos, self.piece, buf))
    }

    ghost told = { λ s. refl };

    ghost same_refl = { SameAt-refl };

    ghost same_trans = { SameAt-trans };
}

/// An object in memory that never fails.
#[derive(Drop)]
pub struct SureAt {
    bytes: Vec<u8>,
}

impl Model for SureAt {
    ghost use Rattle.std.specs.Prelude.{List, ℕ};

    ghost Value = { List ℕ };

    ghost view = { λ s. s.bytes.items };
}

impl SureAt {
    /// An object of `bytes`.
    pub fn new(bytes: Vec<u8>) -> Self
        ensures { result ≡ bytes.items }
    {
        SureAt { bytes }
    }
}

impl ReadAt for SureAt {
    ghost use Rattle.std.proofs.Common.{refl};

    ghost length_of = { λ s. length s };

    ghost bytes = { λ s. Some s };

    ghost faults = { λ _. 0 };

    ghost taken = { λ _. 0 };

    ghost same = { λ s t. t ≡ s };

    fn size(&self) -> u64 {
        self.bytes.len() as u64
    }

    fn read_at(&mut self, pos: u64, buf: &mut [u8]) -> Result<usize, Failed>
        ensures room { IfOk result (λ n. n ≤ length buf.old) }
        ensures within { IfOk result (λ n. n ≤ length self.old - pos) }
        ensures some { IfOk result (λ n. 0 < length buf.old → pos < length self.old → 0 < n) }
        ensures given { IfOk result (λ n. take n buf.new ≡ take n (drop pos self.old)) }
        ensures length { length self.new ≡ length self.old }
        ensures bytes { Some self.new ≡ Some self.old }
        ensures cause { CountsRead 0 0 result }
        ensures taken { 0 ≤ 0 + read_count result }
        ensures same { self.new ≡ self.old }
        ensures moved { result ≡ Ok (min (length self.old - pos) (length buf.old)) }
    {
        Ok(give_at(&self.bytes, pos, 0, buf))
    }

    ghost use Rattle.std.proofs.Common.{◌∙◌};

    ghost told = { λ s. refl };

    ghost same_refl = { λ s. refl };

    ghost same_trans = { λ s t u p q. q ∙ p };
}
