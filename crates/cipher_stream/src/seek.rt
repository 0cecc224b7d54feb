//! Stream ciphers whose position can be read and chosen.

ghost use Rattle.std.specs.Prelude.{◌≡◌, ◌↔◌, ℕ, ◌+◌, ◌<◌, Some, IsOk, IfOk, OnOk, OnErr};
ghost use Rattle.cipher_stream.specs.ByteStream.{ByteStream, to_come, position, IsSame, AtMost};

use crate::ciphers::StreamCipher;
use crate::errors::{OverflowError, StreamCipherError};
use crate::positions::SeekNum;

/// A stream cipher whose position, in bytes, can be read and chosen.
pub trait StreamCipherSeek: StreamCipher {
    // the greatest position: the first byte of the greatest block
    ghost end: { ℕ };

    // whether so many bytes are left where this is the position
    ghost room_at: { ℕ → ℕ → Type 0 };

    /// The position in bytes.
    ///
    /// # Errors
    /// `OverflowError` exactly if it is below 0 (a rest of the greatest block) or is no value of the type.
    fn try_current_pos<N: SeekNum>(&self) -> Result<N, OverflowError>
        ensures ok { IsOk result ↔ AtMost (position (Self.stream self.now)) N.most }
        ensures value { IfOk result (λ n. N.place n ≡ position (Self.stream self.now)) }
        ensures within { (Self.stream self.now).taken < (Self.stream self.now).period };

    /// Chooses the position in bytes.
    ///
    /// # Errors
    /// `StreamCipherError` exactly if it is negative, its block exceeds the counter, or it is in the greatest block
    /// past the first byte. Nothing changes then.
    fn try_seek<N: SeekNum>(&mut self, pos: N) -> Result<(), StreamCipherError>
        ensures ok { IsOk result ↔ AtMost (N.place pos) end }
        ensures placed { OnOk result (position (Self.stream self.new) ≡ N.place pos) }
        ensures same { OnOk result (IsSame (Self.stream self.old) (Self.stream self.new)) }
        ensures ahead { OnOk result ((n j : ℕ) → N.place pos ≡ Some n
            → to_come (Self.stream self.new) j ≡ (Self.stream self.old).byte_at (n + j)) }
        ensures left { OnOk result ((n m : ℕ) → N.place pos ≡ Some n → (Self.has self.new m ↔ room_at n m)) }
        ensures err { OnErr result (self.new ≡ self.old) };

    /// The position, which is a value of the type.
    final fn current_pos<N: SeekNum>(&self) -> N
        requires { AtMost (position (Self.stream self.now)) N.most }
        ensures value { N.place result ≡ position (Self.stream self.now) }
    {
        match self.try_current_pos() {
            Ok(pos) => pos,
            Err(_) => unreachable!(),
        }
    }

    /// Chooses the position, which is not negative and at most the first byte of the greatest block.
    final fn seek<N: SeekNum>(&mut self, pos: N)
        requires { AtMost (N.place pos) end }
        ensures placed { position (Self.stream self.new) ≡ N.place pos }
        ensures same { IsSame (Self.stream self.old) (Self.stream self.new) }
        ensures ahead { (n j : ℕ) → N.place pos ≡ Some n
            → to_come (Self.stream self.new) j ≡ (Self.stream self.old).byte_at (n + j) }
        ensures left { (n m : ℕ) → N.place pos ≡ Some n → (Self.has self.new m ↔ room_at n m) }
    {
        match self.try_seek(pos) {
            Ok(()) => {}
            Err(_) => unreachable!(),
        }
    }
}
