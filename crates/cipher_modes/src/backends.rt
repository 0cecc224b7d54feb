//! What a block mode lends to a closure, and the closures.

ghost use Rattle.std.specs.Prelude.{◌≡◌, ℕ, ◌<◌, ◌≤◌, List, length};
ghost use Rattle.cipher.specs.Buffers.{read_of, read_all, pick};
ghost use Rattle.cipher.specs.Transcript.{Transcript, Block};
ghost use Rattle.cipher_modes.specs.Steps.{run_of, state_after, LedOn};

use cipher::{InOut, InOutBuf, part_of};

// The blocks of a buffer, each by a call on one block.
macro_rules! one_by_one {
    ($backend:ident, $blocks:ident, $call:ident) => {{
        let n = $blocks.output.len();
        for i in 0..n {
            let input = part_of($blocks.input, n, i, i + 1);
            let output = &mut $blocks.output[i];
            $backend.$call(&mut InOut { output, input });
        }
    }};
}

/// What encrypts blocks of B bytes in order, `width` of them at a time, B being from 1 to 255.
pub trait BlockModeEncBackend<const B: usize> {
    // what it makes of a state and a block: the output and the next state
    ghost step: { Self → Block → Block × Self };

    // how many blocks it encrypts at a time
    ghost lanes: { Self → ℕ };

    /// How many blocks are encrypted at a time, at least 1.
    fn width(&self) -> usize
        ensures value { result ≡ lanes self.now }
        ensures positive { 1 ≤ result };

    /// Encrypts one block.
    fn encrypt_block(&mut self, block: &mut InOut<'_, '_, [u8; B]>)
        ensures kept { block.new.output.ghost_name ≡ block.old.output.ghost_name }
        ensures reads { block.new.input ≡ block.old.input }
        ensures value { block.new.output.now ≡ (step self.old (read_of block.old)).0 }
        ensures stepped { self.new ≡ (step self.old (read_of block.old)).1 };

    /// Encrypts `width` blocks.
    fn encrypt_par_blocks(&mut self, blocks: &mut InOutBuf<'_, '_, [u8; B]>)
        requires { length blocks.old.output.now ≡ lanes self.old }
        ensures kept { blocks.new.output.ghost_name ≡ blocks.old.output.ghost_name }
        ensures reads { blocks.new.input ≡ blocks.old.input }
        ensures value { blocks.new.output.now ≡ run_of step self.old (read_all blocks.old) }
        ensures stepped { self.new ≡ state_after step self.old (read_all blocks.old) }
    {
        one_by_one!(self, blocks, encrypt_block)
    }

    /// Encrypts fewer than `width` blocks.
    fn encrypt_tail_blocks(&mut self, blocks: &mut InOutBuf<'_, '_, [u8; B]>)
        requires { length blocks.old.output.now < lanes self.old }
        ensures kept { blocks.new.output.ghost_name ≡ blocks.old.output.ghost_name }
        ensures reads { blocks.new.input ≡ blocks.old.input }
        ensures value { blocks.new.output.now ≡ run_of step self.old (read_all blocks.old) }
        ensures stepped { self.new ≡ state_after step self.old (read_all blocks.old) }
    {
        one_by_one!(self, blocks, encrypt_block)
    }

    ghost block_size: { (1 ≤ B) × (B < 256) };

    // a step leaves the width
    ghost same_width: { (s : Self) (x : Block) → lanes (step s x).1 ≡ lanes s };

    /// Encrypts one block in its place.
    final fn encrypt_block_inplace(&mut self, block: &mut [u8; B])
        ensures value { block.new ≡ (step self.old block.old).0 }
        ensures stepped { self.new ≡ (step self.old block.old).1 }
    {
        self.encrypt_block(&mut InOut {
            output: block,
            input: &[],
        });
    }

    /// Encrypts `width` blocks in their places.
    final fn encrypt_par_blocks_inplace(&mut self, blocks: &mut [[u8; B]])
        requires { length blocks.old ≡ lanes self.old }
        ensures value { blocks.new ≡ run_of step self.old blocks.old }
        ensures stepped { self.new ≡ state_after step self.old blocks.old }
    {
        self.encrypt_par_blocks(&mut InOutBuf {
            output: blocks,
            input: &[],
        });
    }

    /// Encrypts fewer than `width` blocks in their places.
    final fn encrypt_tail_blocks_inplace(&mut self, blocks: &mut [[u8; B]])
        requires { length blocks.old < lanes self.old }
        ensures value { blocks.new ≡ run_of step self.old blocks.old }
        ensures stepped { self.new ≡ state_after step self.old blocks.old }
    {
        self.encrypt_tail_blocks(&mut InOutBuf {
            output: blocks,
            input: &[],
        });
    }
}

/// What asks an encryption backend of any width for blocks.
pub trait BlockModeEncClosure<const B: usize> {
    // what a call leaves alone, as the place that a reference names
    ghost keeps: { Self → Self → Type 0 };

    // this transcript leads from the first state to the second
    ghost leads: { Transcript → Self → Self → Type 0 };

    /// Asks the backend: a transcript of its steps alone leads from the old state to the new one.
    fn call<K: BlockModeEncBackend<B>>(&mut self, backend: &mut K)
        ensures kept { keeps self.old self.new }
        ensures led { LedOn K.step leads self.old self.new backend.old backend.new };
}

/// What decrypts blocks of B bytes in order, `width` of them at a time, B being from 1 to 255.
pub trait BlockModeDecBackend<const B: usize> {
    // what it makes of a state and a block: the output and the next state
    ghost step: { Self → Block → Block × Self };

    // how many blocks it decrypts at a time
    ghost lanes: { Self → ℕ };

    /// How many blocks are decrypted at a time, at least 1.
    fn width(&self) -> usize
        ensures value { result ≡ lanes self.now }
        ensures positive { 1 ≤ result };

    /// Decrypts one block.
    fn decrypt_block(&mut self, block: &mut InOut<'_, '_, [u8; B]>)
        ensures kept { block.new.output.ghost_name ≡ block.old.output.ghost_name }
        ensures reads { block.new.input ≡ block.old.input }
        ensures value { block.new.output.now ≡ (step self.old (read_of block.old)).0 }
        ensures stepped { self.new ≡ (step self.old (read_of block.old)).1 };

    /// Decrypts `width` blocks.
    fn decrypt_par_blocks(&mut self, blocks: &mut InOutBuf<'_, '_, [u8; B]>)
        requires { length blocks.old.output.now ≡ lanes self.old }
        ensures kept { blocks.new.output.ghost_name ≡ blocks.old.output.ghost_name }
        ensures reads { blocks.new.input ≡ blocks.old.input }
        ensures value { blocks.new.output.now ≡ run_of step self.old (read_all blocks.old) }
        ensures stepped { self.new ≡ state_after step self.old (read_all blocks.old) }
    {
        one_by_one!(self, blocks, decrypt_block)
    }

    /// Decrypts fewer than `width` blocks.
    fn decrypt_tail_blocks(&mut self, blocks: &mut InOutBuf<'_, '_, [u8; B]>)
        requires { length blocks.old.output.now < lanes self.old }
        ensures kept { blocks.new.output.ghost_name ≡ blocks.old.output.ghost_name }
        ensures reads { blocks.new.input ≡ blocks.old.input }
        ensures value { blocks.new.output.now ≡ run_of step self.old (read_all blocks.old) }
        ensures stepped { self.new ≡ state_after step self.old (read_all blocks.old) }
    {
        one_by_one!(self, blocks, decrypt_block)
    }

    ghost block_size: { (1 ≤ B) × (B < 256) };

    // a step leaves the width
    ghost same_width: { (s : Self) (x : Block) → lanes (step s x).1 ≡ lanes s };

    /// Decrypts one block in its place.
    final fn decrypt_block_inplace(&mut self, block: &mut [u8; B])
        ensures value { block.new ≡ (step self.old block.old).0 }
        ensures stepped { self.new ≡ (step self.old block.old).1 }
    {
        self.decrypt_block(&mut InOut {
            output: block,
            input: &[],
        });
    }

    /// Decrypts `width` blocks in their places.
    final fn decrypt_par_blocks_inplace(&mut self, blocks: &mut [[u8; B]])
        requires { length blocks.old ≡ lanes self.old }
        ensures value { blocks.new ≡ run_of step self.old blocks.old }
        ensures stepped { self.new ≡ state_after step self.old blocks.old }
    {
        self.decrypt_par_blocks(&mut InOutBuf {
            output: blocks,
            input: &[],
        });
    }

    /// Decrypts fewer than `width` blocks in their places.
    final fn decrypt_tail_blocks_inplace(&mut self, blocks: &mut [[u8; B]])
        requires { length blocks.old < lanes self.old }
        ensures value { blocks.new ≡ run_of step self.old blocks.old }
        ensures stepped { self.new ≡ state_after step self.old blocks.old }
    {
        self.decrypt_tail_blocks(&mut InOutBuf {
            output: blocks,
            input: &[],
        });
    }
}

/// What asks a decryption backend of any width for blocks.
pub trait BlockModeDecClosure<const B: usize> {
    // what a call leaves alone, as the place that a reference names
    ghost keeps: { Self → Self → Type 0 };

    // this transcript leads from the first state to the second
    ghost leads: { Transcript → Self → Self → Type 0 };

    /// Asks the backend: a transcript of its steps alone leads from the old state to the new one.
    fn call<K: BlockModeDecBackend<B>>(&mut self, backend: &mut K)
        ensures kept { keeps self.old self.new }
        ensures led { LedOn K.step leads self.old self.new backend.old backend.new };
}
