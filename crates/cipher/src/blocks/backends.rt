//! What a block cipher lends to a closure, and the closures.

ghost use Rattle.std.specs.Prelude.{◌≡◌, ℕ, ◌<◌, ◌≤◌, List, map, length};
ghost use Rattle.cipher.specs.Buffers.{read_of, read_all, pick};
ghost use Rattle.cipher.specs.Transcript.{Transcript, Block, Led};

use crate::buffers::{InOut, InOutBuf, part_of};

// The blocks of a buffer, each by a call on one block.
macro_rules! one_by_one {
    ($backend:ident, $blocks:ident, $call:ident) => {{
        let n = $blocks.output.len();
        for i in 0..n {
            let input = part_of($blocks.input, n, i, i + 1);
            let output = &mut $blocks.output[i];
            $backend.$call(&mut InOut { output, input });
        }
    }};
}

/// What encrypts blocks of B bytes, `width` of them at a time, B being from 1 to 255.
pub trait BlockCipherEncBackend<const B: usize> {
    // the block that it makes of a block
    ghost encrypts: { Self → Block → Block };

    // how many blocks it encrypts at a time
    ghost lanes: { Self → ℕ };

    /// How many blocks are encrypted at a time, at least 1.
    fn width(&self) -> usize
        ensures value { result ≡ lanes self.now }
        ensures positive { 1 ≤ result };

    /// Encrypts one block.
    fn encrypt_block(&self, block: &mut InOut<'_, '_, [u8; B]>)
        ensures kept { block.new.output.ghost_name ≡ block.old.output.ghost_name }
        ensures reads { block.new.input ≡ block.old.input }
        ensures value { block.new.output.now ≡ encrypts self.now (read_of block.old) };

    /// Encrypts `width` blocks.
    fn encrypt_par_blocks(&self, blocks: &mut InOutBuf<'_, '_, [u8; B]>)
        requires { length blocks.old.output.now ≡ lanes self.now }
        ensures kept { blocks.new.output.ghost_name ≡ blocks.old.output.ghost_name }
        ensures reads { blocks.new.input ≡ blocks.old.input }
        ensures value { blocks.new.output.now ≡ map (encrypts self.now) (read_all blocks.old) }
    {
        one_by_one!(self, blocks, encrypt_block)
    }

    /// Encrypts fewer than `width` blocks.
    fn encrypt_tail_blocks(&self, blocks: &mut InOutBuf<'_, '_, [u8; B]>)
        requires { length blocks.old.output.now < lanes self.now }
        ensures kept { blocks.new.output.ghost_name ≡ blocks.old.output.ghost_name }
        ensures reads { blocks.new.input ≡ blocks.old.input }
        ensures value { blocks.new.output.now ≡ map (encrypts self.now) (read_all blocks.old) }
    {
        one_by_one!(self, blocks, encrypt_block)
    }

    ghost block_size: { (1 ≤ B) × (B < 256) };

    /// Encrypts one block in its place.
    final fn encrypt_block_inplace(&self, block: &mut [u8; B])
        ensures value { block.new ≡ encrypts self.now block.old }
    {
        self.encrypt_block(&mut InOut {
            output: block,
            input: &[],
        });
    }

    /// Encrypts `width` blocks in their places.
    final fn encrypt_par_blocks_inplace(&self, blocks: &mut [[u8; B]])
        requires { length blocks.old ≡ lanes self.now }
        ensures value { blocks.new ≡ map (encrypts self.now) blocks.old }
    {
        self.encrypt_par_blocks(&mut InOutBuf {
            output: blocks,
            input: &[],
        });
    }

    /// Encrypts fewer than `width` blocks in their places.
    final fn encrypt_tail_blocks_inplace(&self, blocks: &mut [[u8; B]])
        requires { length blocks.old < lanes self.now }
        ensures value { blocks.new ≡ map (encrypts self.now) blocks.old }
    {
        self.encrypt_tail_blocks(&mut InOutBuf {
            output: blocks,
            input: &[],
        });
    }
}

/// What asks an encryption backend of any width for blocks.
pub trait BlockCipherEncClosure<const B: usize> {
    // what a call leaves alone, as the place that a reference names
    ghost keeps: { Self → Self → Type 0 };

    // this transcript leads from the first state to the second
    ghost leads: { Transcript → Self → Self → Type 0 };

    /// Asks the backend: a transcript of its map alone leads from the old state to the new one.
    fn call<K: BlockCipherEncBackend<B>>(&mut self, backend: &K)
        ensures kept { keeps self.old self.new }
        ensures led { Led (K.encrypts backend.now) leads self.old self.new };
}

/// What decrypts blocks of B bytes, `width` of them at a time, B being from 1 to 255.
pub trait BlockCipherDecBackend<const B: usize> {
    // the block that it makes of a block
    ghost decrypts: { Self → Block → Block };

    // how many blocks it decrypts at a time
    ghost lanes: { Self → ℕ };

    /// How many blocks are decrypted at a time, at least 1.
    fn width(&self) -> usize
        ensures value { result ≡ lanes self.now }
        ensures positive { 1 ≤ result };

    /// Decrypts one block.
    fn decrypt_block(&self, block: &mut InOut<'_, '_, [u8; B]>)
        ensures kept { block.new.output.ghost_name ≡ block.old.output.ghost_name }
        ensures reads { block.new.input ≡ block.old.input }
        ensures value { block.new.output.now ≡ decrypts self.now (read_of block.old) };

    /// Decrypts `width` blocks.
    fn decrypt_par_blocks(&self, blocks: &mut InOutBuf<'_, '_, [u8; B]>)
        requires { length blocks.old.output.now ≡ lanes self.now }
        ensures kept { blocks.new.output.ghost_name ≡ blocks.old.output.ghost_name }
        ensures reads { blocks.new.input ≡ blocks.old.input }
        ensures value { blocks.new.output.now ≡ map (decrypts self.now) (read_all blocks.old) }
    {
        one_by_one!(self, blocks, decrypt_block)
    }

    /// Decrypts fewer than `width` blocks.
    fn decrypt_tail_blocks(&self, blocks: &mut InOutBuf<'_, '_, [u8; B]>)
        requires { length blocks.old.output.now < lanes self.now }
        ensures kept { blocks.new.output.ghost_name ≡ blocks.old.output.ghost_name }
        ensures reads { blocks.new.input ≡ blocks.old.input }
        ensures value { blocks.new.output.now ≡ map (decrypts self.now) (read_all blocks.old) }
    {
        one_by_one!(self, blocks, decrypt_block)
    }

    ghost block_size: { (1 ≤ B) × (B < 256) };

    /// Decrypts one block in its place.
    final fn decrypt_block_inplace(&self, block: &mut [u8; B])
        ensures value { block.new ≡ decrypts self.now block.old }
    {
        self.decrypt_block(&mut InOut {
            output: block,
            input: &[],
        });
    }

    /// Decrypts `width` blocks in their places.
    final fn decrypt_par_blocks_inplace(&self, blocks: &mut [[u8; B]])
        requires { length blocks.old ≡ lanes self.now }
        ensures value { blocks.new ≡ map (decrypts self.now) blocks.old }
    {
        self.decrypt_par_blocks(&mut InOutBuf {
            output: blocks,
            input: &[],
        });
    }

    /// Decrypts fewer than `width` blocks in their places.
    final fn decrypt_tail_blocks_inplace(&self, blocks: &mut [[u8; B]])
        requires { length blocks.old < lanes self.now }
        ensures value { blocks.new ≡ map (decrypts self.now) blocks.old }
    {
        self.decrypt_tail_blocks(&mut InOutBuf {
            output: blocks,
            input: &[],
        });
    }
}

/// What asks a decryption backend of any width for blocks.
pub trait BlockCipherDecClosure<const B: usize> {
    // what a call leaves alone, as the place that a reference names
    ghost keeps: { Self → Self → Type 0 };

    // this transcript leads from the first state to the second
    ghost leads: { Transcript → Self → Self → Type 0 };

    /// Asks the backend: a transcript of its map alone leads from the old state to the new one.
    fn call<K: BlockCipherDecBackend<B>>(&mut self, backend: &K)
        ensures kept { keeps self.old self.new }
        ensures led { Led (K.decrypts backend.now) leads self.old self.new };
}
