//! Positions of a buffered core.

ghost use Rattle.std.specs.Prelude.{◌≡◌, ℕ, ◌+◌, ◌-◌, ◌*◌, ◌/◌, ◌%◌, ◌<◌, ◌≤◌, Some};
ghost use Rattle.cipher_stream.specs.ByteStream.{buffered, to_come, position, IsSame, HasRoomAt, blocks_before, rest_at};

use crate::cores::seeking::StreamCipherSeekCore;
use crate::counters::{StreamCipherCounter, with_range};
use crate::errors::{OverflowError, StreamCipherError};
use crate::positions::SeekNum;
use crate::seek::StreamCipherSeek;
use crate::wrapper::BufferedCore;

impl<T: StreamCipherSeekCore<B>, const B: usize> BufferedCore<T, [u8; B]> {
    // makes this byte of this block the next one
    fn seek_to(&mut self, block: T::Counter, byte: u8)
        requires part { byte < B }
        requires further { 0 < byte → T.Counter.value block < T.Counter.most }
        ensures further { 0 < byte → T.Counter.value block < T.Counter.most }
        ensures same { IsSame (buffered B T.keystream self.old) (buffered B T.keystream self.new) }
        ensures placed { position (buffered B T.keystream self.new) ≡ Some (T.Counter.value block * B + byte) }
        ensures ahead { (j : ℕ) → to_come (buffered B T.keystream self.new) j
            ≡ (buffered B T.keystream self.old).byte_at (T.Counter.value block * B + byte + j) }
        ensures left { T.remaining self.new.0 ≡ T.remaining_at (blocks_before B (T.Counter.value block * B + byte)) }
        ensures rest { self.new.1 ≡ rest_at B (T.Counter.value block * B + byte) }
    {
        let inside = byte > 0;
        self.core.set_block_pos(block);
        self.used = B;
        if inside {
            self.core.write_keystream_block(&mut self.buffer);
            self.used = byte as usize;
            with_range(self.core.get_block_pos());
        }
    }
}

impl<T: StreamCipherSeekCore<B>, const B: usize> StreamCipherSeek for BufferedCore<T, [u8; B]> {
    ghost end = { T.Counter.most * B };

    ghost room_at = { λ n m. HasRoomAt B T.remaining_at n m };

    fn try_current_pos<N: SeekNum>(&self) -> Result<N, OverflowError> {
        let block = with_range(self.core.get_block_pos());
        N::from_block_byte(block, self.used as u8, B as u8)
    }

    fn try_seek<N: SeekNum>(&mut self, pos: N) -> Result<(), StreamCipherError> {
        let (block, byte) = pos.into_block_byte::<T::Counter>(B as u8)?;
        if byte != 0 && block.is_max() {
            return Err(StreamCipherError);
        }
        self.seek_to(block, byte);
        Ok(())
    }
}
