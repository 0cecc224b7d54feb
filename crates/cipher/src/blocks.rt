//! Block ciphers.

pub(crate) mod backends;
pub(crate) mod contexts;

ghost use Rattle.std.specs.Prelude.{◌≡◌, ◌↔◌, ℕ, ◌<◌, ◌≤◌, List, map, IsOk, OnOk, OnErr, length};
ghost use Rattle.cipher.specs.Buffers.{read_of, read_all, pick};
ghost use Rattle.cipher.specs.Transcript.{Block, Led};

use crate::buffers::{InOut, InOutBuf, NotEqualError};
use backends::{BlockCipherDecClosure, BlockCipherEncClosure};
use contexts::{BlockCtx, BlocksCtx};

/// A block cipher that encrypts blocks of B bytes, B being from 1 to 255.
pub trait BlockCipherEncrypt<const B: usize> {
    // the block that it makes of a block
    ghost encrypts: { Self → Block → Block };

    /// Lends a backend to a closure: a transcript of the cipher's map alone leads it from its old state to its new one.
    fn encrypt_with_backend<F: BlockCipherEncClosure<B>>(&self, f: &mut F)
        ensures kept { F.keeps f.old f.new }
        ensures led { Led (encrypts self.now) F.leads f.old f.new };

    ghost block_size: { (1 ≤ B) × (B < 256) };

    // the map is on blocks of B bytes
    ghost sized: { (c : Self) (x : Block) → length x ≡ B → length (encrypts c x) ≡ B };

    /// Encrypts the block that is read into the place that is written.
    final fn encrypt_block_inout(&self, block: InOut<'_, '_, [u8; B]>)
        ensures value { block.exit.0.now ≡ encrypts self.now (read_of block.entry) }
    {
        let InOut { output, input } = block;
        let mut ctx = BlockCtx { output, input };
        self.encrypt_with_backend(&mut ctx);
    }

    /// Encrypts the blocks that are read into the places that are written.
    final fn encrypt_blocks_inout(&self, blocks: InOutBuf<'_, '_, [u8; B]>)
        ensures value { blocks.exit.0.now ≡ map (encrypts self.now) (read_all blocks.entry) }
    {
        let InOutBuf { output, input } = blocks;
        let mut ctx = BlocksCtx { output, input };
        self.encrypt_with_backend(&mut ctx);
    }

    /// Encrypts a block in its place.
    final fn encrypt_block(&self, block: &mut [u8; B])
        ensures value { block.new ≡ encrypts self.now block.old }
    {
        let mut ctx = BlockCtx {
            output: block,
            input: &[],
        };
        self.encrypt_with_backend(&mut ctx);
    }

    /// Encrypts one block into another place.
    final fn encrypt_block_b2b(&self, in_block: &[u8; B], out_block: &mut [u8; B])
        ensures value { out_block.new ≡ encrypts self.now in_block.now }
    {
        *out_block = *in_block;
        self.encrypt_block(out_block);
    }

    /// Encrypts blocks in their places.
    final fn encrypt_blocks(&self, blocks: &mut [[u8; B]])
        ensures value { blocks.new ≡ map (encrypts self.now) blocks.old }
    {
        let mut ctx = BlocksCtx {
            output: blocks,
            input: &[],
        };
        self.encrypt_with_backend(&mut ctx);
    }

    /// Encrypts blocks into other places.
    ///
    /// # Errors
    /// `NotEqualError` exactly if there are not as many places as blocks. Nothing is written then.
    final fn encrypt_blocks_b2b(
        &self,
        in_blocks: &[[u8; B]],
        out_blocks: &mut [[u8; B]],
    ) -> Result<(), NotEqualError>
        ensures ok { IsOk result ↔ (length in_blocks.now ≡ length out_blocks.old) }
        ensures value { OnOk result (out_blocks.new ≡ map (encrypts self.now) in_blocks.now) }
        ensures err { OnErr result (out_blocks.new ≡ out_blocks.old) }
    {
        if in_blocks.len() != out_blocks.len() {
            return Err(NotEqualError);
        }
        let mut ctx = BlocksCtx {
            output: out_blocks,
            input: in_blocks,
        };
        self.encrypt_with_backend(&mut ctx);
        Ok(())
    }
}

impl<C: BlockCipherEncrypt<B>, const B: usize> BlockCipherEncrypt<B> for &C {
    ghost encrypts = { λ c. C.encrypts c.now };

    fn encrypt_with_backend<F: BlockCipherEncClosure<B>>(&self, f: &mut F) {
        C::encrypt_with_backend(*self, f);
    }

    ghost block_size = { C.block_size };

    ghost sized = { λ c x. C.sized c.now x };
}

/// A block cipher that decrypts blocks of B bytes, B being from 1 to 255.
pub trait BlockCipherDecrypt<const B: usize> {
    // the block that it makes of a block
    ghost decrypts: { Self → Block → Block };

    /// Lends a backend to a closure: a transcript of the cipher's map alone leads it from its old state to its new one.
    fn decrypt_with_backend<F: BlockCipherDecClosure<B>>(&self, f: &mut F)
        ensures kept { F.keeps f.old f.new }
        ensures led { Led (decrypts self.now) F.leads f.old f.new };

    ghost block_size: { (1 ≤ B) × (B < 256) };

    // the map is on blocks of B bytes
    ghost sized: { (c : Self) (x : Block) → length x ≡ B → length (decrypts c x) ≡ B };

    /// Decrypts the block that is read into the place that is written.
    final fn decrypt_block_inout(&self, block: InOut<'_, '_, [u8; B]>)
        ensures value { block.exit.0.now ≡ decrypts self.now (read_of block.entry) }
    {
        let InOut { output, input } = block;
        let mut ctx = BlockCtx { output, input };
        self.decrypt_with_backend(&mut ctx);
    }

    /// Decrypts the blocks that are read into the places that are written.
    final fn decrypt_blocks_inout(&self, blocks: InOutBuf<'_, '_, [u8; B]>)
        ensures value { blocks.exit.0.now ≡ map (decrypts self.now) (read_all blocks.entry) }
    {
        let InOutBuf { output, input } = blocks;
        let mut ctx = BlocksCtx { output, input };
        self.decrypt_with_backend(&mut ctx);
    }

    /// Decrypts a block in its place.
    final fn decrypt_block(&self, block: &mut [u8; B])
        ensures value { block.new ≡ decrypts self.now block.old }
    {
        let mut ctx = BlockCtx {
            output: block,
            input: &[],
        };
        self.decrypt_with_backend(&mut ctx);
    }

    /// Decrypts one block into another place.
    final fn decrypt_block_b2b(&self, in_block: &[u8; B], out_block: &mut [u8; B])
        ensures value { out_block.new ≡ decrypts self.now in_block.now }
    {
        *out_block = *in_block;
        self.decrypt_block(out_block);
    }

    /// Decrypts blocks in their places.
    final fn decrypt_blocks(&self, blocks: &mut [[u8; B]])
        ensures value { blocks.new ≡ map (decrypts self.now) blocks.old }
    {
        let mut ctx = BlocksCtx {
            output: blocks,
            input: &[],
        };
        self.decrypt_with_backend(&mut ctx);
    }

    /// Decrypts blocks into other places.
    ///
    /// # Errors
    /// `NotEqualError` exactly if there are not as many places as blocks. Nothing is written then.
    final fn decrypt_blocks_b2b(
        &self,
        in_blocks: &[[u8; B]],
        out_blocks: &mut [[u8; B]],
    ) -> Result<(), NotEqualError>
        ensures ok { IsOk result ↔ (length in_blocks.now ≡ length out_blocks.old) }
        ensures value { OnOk result (out_blocks.new ≡ map (decrypts self.now) in_blocks.now) }
        ensures err { OnErr result (out_blocks.new ≡ out_blocks.old) }
    {
        if in_blocks.len() != out_blocks.len() {
            return Err(NotEqualError);
        }
        let mut ctx = BlocksCtx {
            output: out_blocks,
            input: in_blocks,
        };
        self.decrypt_with_backend(&mut ctx);
        Ok(())
    }
}

impl<C: BlockCipherDecrypt<B>, const B: usize> BlockCipherDecrypt<B> for &C {
    ghost decrypts = { λ c. C.decrypts c.now };

    fn decrypt_with_backend<F: BlockCipherDecClosure<B>>(&self, f: &mut F) {
        C::decrypt_with_backend(*self, f);
    }

    ghost block_size = { C.block_size };

    ghost sized = { λ c x. C.sized c.now x };
}
