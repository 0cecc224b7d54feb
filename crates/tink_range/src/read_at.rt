//! Objects that are read in any place.

ghost use Rattle.std.specs.Prelude.{◌≡◌, ◌<◌, ◌≤◌, ◌+◌, ◌-◌, ℕ, List, length, take, drop, IfOk, IfSome};
ghost use Rattle.std.specs.declared.option.Option.{Option};
ghost use Rattle.tink_range.specs.Objects.{CountsRead};
ghost use Rattle.tink_range.specs.ReadCounts.{read_count};

use tink_io::Failed;

/// An object of known length, which is read in any place.
pub trait ReadAt {
    // How many bytes it has. No call changes it.
    ghost length_of: { Self → ℕ };

    // The bytes, where it tells them. No call changes them.
    ghost bytes: { Self → Option (List ℕ) };

    // How often it has failed. The count never falls, and stands still at the last value of u64.
    ghost faults: { Self → ℕ };

    // What its reads have taken, as far as it counts them. A read counts the bytes that it moves, and one if it moves
    // none, so that neither the reads nor the bytes are more than the counts of all reads.
    ghost taken: { Self → ℕ };

    // What stays over calls.
    ghost same: { Self → Self → Type 0 };

    /// How many bytes it has.
    fn size(&self) -> u64
        ensures { result ≡ length_of self.now };

    /// Moves some of the bytes from `pos` on to the beginning of `buf`, and answers how many; what `buf` has behind
    /// them is left open. Below the object's end a buffer that is not empty gets a byte at least. At the end and past
    /// it there is none.
    ///
    /// # Errors
    /// `Failed` if the object failed. It raises the count of faults, and any other answer leaves the count as it was.
    fn read_at(&mut self, pos: u64, buf: &mut [u8]) -> Result<usize, Failed>
        ensures room { IfOk result (λ n. n ≤ length buf.old) }
        ensures within { IfOk result (λ n. n ≤ length_of self.old - pos) }
        ensures some { IfOk result (λ n. 0 < length buf.old → pos < length_of self.old → 0 < n) }
        ensures given { IfOk result (λ n. IfSome (bytes self.old) (λ X. take n buf.new ≡ take n (drop pos X))) }
        ensures length { length_of self.new ≡ length_of self.old }
        ensures bytes { bytes self.new ≡ bytes self.old }
        ensures cause { CountsRead (faults self.old) (faults self.new) result }
        ensures taken { taken self.new ≤ taken self.old + read_count result }
        ensures same { same self.old self.new };

    // The bytes are as many as it has.
    ghost told: { (s : Self) → IfSome (bytes s) (λ X. length X ≡ length_of s) };

    ghost same_refl: { (s : Self) → same s s };

    ghost same_trans: { (s t u : Self) → same s t → same t u → same s u };
}
