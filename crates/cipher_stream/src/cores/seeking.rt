//! Cores whose next block can be chosen.

ghost use Rattle.std.specs.Prelude.{◌≡◌, ℕ, ◌+◌, Option};
ghost use Rattle.cipher_stream.specs.Keystream.{Keystream, IsPlaced};

use crate::cores::StreamCipherCore;
use crate::counters::StreamCipherCounter;

/// A core whose next block can be chosen: its blocks repeat after the counter's greatest value.
pub trait StreamCipherSeekCore<const B: usize>: StreamCipherCore<B> {
    /// The numbers of blocks.
    type Counter: StreamCipherCounter;

    // how many blocks remain where the next block has this number
    ghost remaining_at: { ℕ → Option ℕ };

    /// The number of the next block.
    fn get_block_pos(&self) -> Self::Counter
        ensures value { Self.Counter.value result ≡ (Self.keystream self.now).position };

    /// Makes this block the next one.
    fn set_block_pos(&mut self, pos: Self::Counter)
        ensures placed { IsPlaced (Self.keystream self.old) (Self.Counter.value pos) (Self.keystream self.new) };

    // after the greatest number comes 0
    ghost wraps: { (c : Self) → (Self.keystream c).period ≡ Self.Counter.most + 1 };

    // what remains goes by the position
    ghost remains: { (c : Self) → Self.remaining c ≡ remaining_at (Self.keystream c).position };
}
