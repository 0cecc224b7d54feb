//! Bytes that are lent, as an object of ranges.

ghost use Rattle.std.specs.Prelude.{◌≡◌, ◌≤◌, ◌+◌, ◌-◌, ◌<◌, ℕ, List, Some, Ok, IfOk, length, take, drop, min};
ghost use Rattle.tink_range.specs.Objects.{CountsRead};
ghost use Rattle.tink_range.specs.ReadCounts.{read_count};

use std::marker::Model;
use tink_io::Failed;
use tink_range::ReadAt;

/// Bytes that are lent, which are read in any place. No read fails.
#[derive(Drop)]
pub struct LentAt<'a> {
    bytes: &'a [u8],
}

impl<'a> Model for LentAt<'a> {
    ghost use Rattle.std.specs.Prelude.{List, ℕ};

    ghost Value = { List ℕ };

    ghost view = { λ s. s.bytes.now };
}

impl<'a> LentAt<'a> {
    /// An object of `bytes`.
    pub fn new(bytes: &'a [u8]) -> LentAt<'a>
        ensures { result ≡ bytes.now }
    {
        LentAt { bytes }
    }
}

// Moves bytes from `pos` on to the beginning of `buf`, and answers how many.
fn give_at(bytes: &[u8], pos: u64, buf: &mut [u8]) -> usize
    ensures count { result ≡ min (length bytes.now - pos) (length buf.old) }
    ensures given { take result buf.new ≡ take result (drop pos bytes.now) }
{
    if pos >= bytes.len() as u64 {
        return 0;
    }
    let at = pos as usize;
    let n = (bytes.len() - at).min(buf.len());
    buf[..n].copy_from_slice(&bytes[at..at + n]);
    n
}

impl<'a> ReadAt for LentAt<'a> {
    ghost use Rattle.std.proofs.Common.{refl, ◌∙◌};

    ghost length_of = { λ s. length s };

    ghost bytes = { λ s. Some s };

    ghost faults = { λ _. 0 };

    ghost taken = { λ _. 0 };

    ghost same = { λ s t. t ≡ s };

    fn size(&self) -> u64 {
        self.bytes.len() as u64
    }

    fn read_at(&mut self, pos: u64, buf: &mut [u8]) -> Result<usize, Failed>
        ensures room { IfOk result (λ n. n ≤ length buf.old) }
        ensures within { IfOk result (λ n. n ≤ length self.old - pos) }
        ensures some { IfOk result (λ n. 0 < length buf.old → pos < length self.old → 0 < n) }
        ensures given { IfOk result (λ n. take n buf.new ≡ take n (drop pos self.old)) }
        ensures length { length self.new ≡ length self.old }
        ensures bytes { Some self.new ≡ Some self.old }
        ensures cause { CountsRead 0 0 result }
        ensures taken { 0 ≤ 0 + read_count result }
        ensures same { self.new ≡ self.old }
    {
        Ok(give_at(self.bytes, pos, buf))
    }

    ghost told = { λ s. refl };

    ghost same_refl = { λ s. refl };

    ghost same_trans = { λ s t u p q. q ∙ p };
}
