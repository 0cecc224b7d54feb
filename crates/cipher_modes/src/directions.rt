//! A mode in one of its two directions, for calls that are alike in both.

ghost use Rattle.std.specs.Prelude.{◌≡◌, ℕ, List, ◌<◌, ◌≤◌, length};
ghost use Rattle.cipher.specs.Transcript.{Block};
ghost use Rattle.cipher.specs.Buffers.{pick};
ghost use Rattle.cipher_modes.specs.Steps.{run_of, state_after};

use crate::backends::{BlockModeDecBackend, BlockModeEncBackend};
use crate::modes::{BlockModeDecrypt, BlockModeEncrypt};
use cipher::InOutBuf;

// the directions
pub(crate) struct Encrypting;

pub(crate) struct Decrypting;

// a block mode that runs in the direction D over blocks of B bytes, which stay in their places
pub(crate) trait Runs<D, const B: usize>: Sized + Drop {
    // what it makes of a state and a block: the output and the next state
    ghost step: { Self → Block → Block × Self };

    fn run_block(&mut self, block: &mut [u8; B])
        ensures value { block.new ≡ (step self.old block.old).0 }
        ensures stepped { self.new ≡ (step self.old block.old).1 };

    // the blocks together
    fn run_blocks(&mut self, blocks: &mut [[u8; B]])
        ensures value { blocks.new ≡ run_of step self.old blocks.old }
        ensures stepped { self.new ≡ state_after step self.old blocks.old };

    ghost block_size: { (1 ≤ B) × (B < 256) };

    // the outputs for blocks of B bytes have B bytes
    ghost sized: { (s : Self) (x : Block) → length x ≡ B → length (step s x).0 ≡ B };
}

impl<M: BlockModeEncrypt<B>, const B: usize> Runs<Encrypting, B> for M {
    ghost step = { M.step };

    fn run_block(&mut self, block: &mut [u8; B]) {
        self.encrypt_block(block);
    }

    fn run_blocks(&mut self, blocks: &mut [[u8; B]]) {
        self.encrypt_blocks(blocks);
    }

    ghost block_size = { M.block_size };

    ghost sized = { M.sized };
}

impl<M: BlockModeDecrypt<B>, const B: usize> Runs<Decrypting, B> for M {
    ghost step = { M.step };

    fn run_block(&mut self, block: &mut [u8; B]) {
        self.decrypt_block(block);
    }

    fn run_blocks(&mut self, blocks: &mut [[u8; B]]) {
        self.decrypt_blocks(blocks);
    }

    ghost block_size = { M.block_size };

    ghost sized = { M.sized };
}

// a backend that runs in the direction D over blocks of B bytes, from an input or in their places
pub(crate) trait RunsLanes<D, const B: usize> {
    // what it makes of a state and a block: the output and the next state
    ghost step: { Self → Block → Block × Self };

    // how many blocks it runs at a time
    ghost lanes: { Self → ℕ };

    fn run_lanes(&mut self, output: &mut [[u8; B]], input: &[[u8; B]])
        requires { length output.old ≡ lanes self.old }
        ensures value { output.new ≡ run_of step self.old (pick input.now output.old) }
        ensures stepped { self.new ≡ state_after step self.old (pick input.now output.old) };

    fn run_tail(&mut self, output: &mut [[u8; B]], input: &[[u8; B]])
        requires { length output.old < lanes self.old }
        ensures value { output.new ≡ run_of step self.old (pick input.now output.old) }
        ensures stepped { self.new ≡ state_after step self.old (pick input.now output.old) };

    ghost block_size: { (1 ≤ B) × (B < 256) };

    // a step leaves the width
    ghost same_width: { (s : Self) (x : Block) → lanes (step s x).1 ≡ lanes s };
}

impl<K: BlockModeEncBackend<B>, const B: usize> RunsLanes<Encrypting, B> for K {
    ghost step = { K.step };

    ghost lanes = { K.lanes };

    fn run_lanes(&mut self, output: &mut [[u8; B]], input: &[[u8; B]]) {
        self.encrypt_par_blocks(&mut InOutBuf { output, input });
    }

    fn run_tail(&mut self, output: &mut [[u8; B]], input: &[[u8; B]]) {
        self.encrypt_tail_blocks(&mut InOutBuf { output, input });
    }

    ghost block_size = { K.block_size };

    ghost same_width = { K.same_width };
}

impl<K: BlockModeDecBackend<B>, const B: usize> RunsLanes<Decrypting, B> for K {
    ghost step = { K.step };

    ghost lanes = { K.lanes };

    fn run_lanes(&mut self, output: &mut [[u8; B]], input: &[[u8; B]]) {
        self.decrypt_par_blocks(&mut InOutBuf { output, input });
    }

    fn run_tail(&mut self, output: &mut [[u8; B]], input: &[[u8; B]]) {
        self.decrypt_tail_blocks(&mut InOutBuf { output, input });
    }

    ghost block_size = { K.block_size };

    ghost same_width = { K.same_width };
}
