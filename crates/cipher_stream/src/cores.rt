//! Stream ciphers by blocks.

pub(crate) mod backends;
pub(crate) mod contexts;
pub(crate) mod partial;
pub(crate) mod seeking;

ghost use Rattle.std.specs.Prelude.{◌≡◌, ◌↔◌, ℕ, ◌+◌, ◌-◌, ◌/◌, ◌<◌, ◌≤◌, Option, length, IsOk, OnOk, OnErr};
ghost use Rattle.cipher.specs.Buffers.{read_of, read_all, pick};
ghost use Rattle.standards.specs.Lists.{xor_bytes};
ghost use Rattle.cipher.specs.Transcript.{Block};
ghost use Rattle.cipher_stream.specs.Keystream.{Keystream, next, stream_of, bytes_of, as_usize, Remain, IsMoved, IsServed, Spends, xored, xored_blocks};

use crate::errors::StreamCipherError;
use backends::StreamCipherClosure;
use cipher::{InOut, InOutBuf};
use contexts::{ApplyBlockCtx, ApplyBlocksCtx, WriteBlockCtx, WriteBlocksCtx};
use partial::{apply_read, try_partial};

/// A stream cipher by blocks of B bytes, B being from 1 to 255. No call but `try_apply_keystream_partial` tests how
/// many remain.
pub trait StreamCipherCore<const B: usize>: Sized + Drop {
    ghost keystream: { Self → Keystream };

    // how many blocks remain, if a number does
    ghost remaining: { Self → Option ℕ };

    /// How many blocks remain before the keystream repeats, or `None` where no number remains or it is no `usize`.
    fn remaining_blocks(&self) -> Option<usize>
        ensures value { result ≡ as_usize (remaining self.now) };

    /// Lends a backend to a closure: some number of the next blocks, in order, leads it from its old state to its new
    /// one. The position moves by that number.
    fn process_with_backend<F: StreamCipherClosure<B>>(&mut self, f: &mut F)
        ensures kept { F.keeps f.old f.new }
        ensures fed { IsServed F.leads f.old f.new (keystream self.old) (remaining self.old)
            (keystream self.new) (remaining self.new) };

    ghost block_size: { (1 ≤ B) × (B < 256) };

    /// Writes the next block.
    final fn write_keystream_block(&mut self, block: &mut [u8; B])
        ensures value { block.new ≡ stream_of (keystream self.old) 0 }
        ensures is_moved { IsMoved (keystream self.old) 1 (keystream self.new) }
        ensures spent { Spends (remaining self.old) 1 (remaining self.new) }
    {
        let mut ctx = WriteBlockCtx { block };
        self.process_with_backend(&mut ctx);
    }

    /// Writes the next blocks.
    final fn write_keystream_blocks(&mut self, blocks: &mut [[u8; B]])
        ensures value { blocks.new ≡ next (length blocks.old) (keystream self.old) }
        ensures is_moved { IsMoved (keystream self.old) (length blocks.old) (keystream self.new) }
        ensures spent { Spends (remaining self.old) (length blocks.old) (remaining self.new) }
    {
        let mut ctx = WriteBlocksCtx { blocks };
        self.process_with_backend(&mut ctx);
    }

    /// Writes the block that is read xor the next block.
    final fn apply_keystream_block_inout(&mut self, block: InOut<'_, '_, [u8; B]>)
        ensures value { block.exit.0.now ≡ xor_bytes (read_of block.entry) (stream_of (keystream self.old) 0) }
        ensures is_moved { IsMoved (keystream self.old) 1 (keystream self.new) }
        ensures spent { Spends (remaining self.old) 1 (remaining self.new) }
    {
        let InOut { output, input } = block;
        let mut ctx = ApplyBlockCtx { output, input };
        self.process_with_backend(&mut ctx);
    }

    /// Writes blocks xor the next blocks in their places.
    final fn apply_keystream_blocks(&mut self, blocks: &mut [[u8; B]])
        ensures value { blocks.new ≡ xored_blocks (stream_of (keystream self.old)) blocks.old }
        ensures is_moved { IsMoved (keystream self.old) (length blocks.old) (keystream self.new) }
        ensures spent { Spends (remaining self.old) (length blocks.old) (remaining self.new) }
    {
        let mut ctx = ApplyBlocksCtx {
            output: blocks,
            input: &[],
        };
        self.process_with_backend(&mut ctx);
    }

    /// Writes the blocks that are read xor the next blocks.
    final fn apply_keystream_blocks_inout(&mut self, blocks: InOutBuf<'_, '_, [u8; B]>)
        ensures value { blocks.exit.0.now ≡ xored_blocks (stream_of (keystream self.old)) (read_all blocks.entry) }
        ensures is_moved { IsMoved (keystream self.old) (length blocks.entry.output.now) (keystream self.new) }
        ensures spent { Spends (remaining self.old) (length blocks.entry.output.now) (remaining self.new) }
    {
        let InOutBuf { output, input } = blocks;
        let mut ctx = ApplyBlocksCtx { output, input };
        self.process_with_backend(&mut ctx);
    }

    /// Writes the bytes that are read xor the bytes to come. The last block may be used in part, since the core is
    /// consumed.
    ///
    /// # Errors
    /// `StreamCipherError` exactly if a number of blocks remains and the length divided by B exceeds it. Nothing is
    /// written then.
    final fn try_apply_keystream_partial(
        self,
        buf: InOutBuf<'_, '_, u8>,
    ) -> Result<(), StreamCipherError>
        ensures ok { IsOk result ↔ Remain (remaining self) (length buf.entry.output.now / B) }
        ensures value { OnOk result (buf.exit.0.now ≡ xored (bytes_of B (keystream self)) (read_all buf.entry)) }
        ensures err { OnErr result (buf.exit.0.now ≡ buf.entry.output.now) }
    {
        let InOutBuf { output, input } = buf;
        try_partial(self, output, input)
    }

    /// Writes the bytes that are read xor the bytes to come, the length by B being at most the number of blocks that
    /// remains.
    final fn apply_keystream_partial(self, buf: InOutBuf<'_, '_, u8>)
        requires { Remain (remaining self) (length buf.output.now / B) }
        ensures value { buf.exit.0.now ≡ xored (bytes_of B (keystream self)) (read_all buf.entry) }
    {
        let InOutBuf { output, input } = buf;
        apply_read(self, output, input);
    }
}
