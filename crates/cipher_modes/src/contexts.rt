//! The closures behind the calls on one block and on a slice of blocks.

ghost use Rattle.std.specs.Prelude.{◌≡◌, ℕ, List, [], ◌∷◌, ◌+◌, ◌≤◌, ◌<◌, length, slice_index_or};
ghost use Rattle.cipher.specs.Buffers.{read_of, read_all, pick};
ghost use Rattle.cipher_modes.specs.Steps.{run_of, state_after, LedOn};
ghost use Rattle.cipher.specs.Contexts.{OneBlock, EachBlock};

use crate::backends::{
    BlockModeDecBackend, BlockModeDecClosure, BlockModeEncBackend, BlockModeEncClosure,
};
use crate::directions::{Decrypting, Encrypting, RunsLanes};
use cipher::{BlockCtx, BlocksCtx, InOut, part_of};

impl<const B: usize> BlockModeEncClosure<B> for BlockCtx<'_, '_, B> {
    ghost keeps = { λ a b. b.output.ghost_name ≡ a.output.ghost_name };

    ghost leads = { OneBlock };

    fn call<K: BlockModeEncBackend<B>>(&mut self, backend: &mut K) {
        backend.encrypt_block(&mut InOut {
            output: &mut *self.output,
            input: self.input,
        });
    }
}

impl<const B: usize> BlockModeEncClosure<B> for BlocksCtx<'_, '_, B> {
    ghost keeps = { λ a b. b.output.ghost_name ≡ a.output.ghost_name };

    ghost leads = { EachBlock };

    fn call<K: BlockModeEncBackend<B>>(&mut self, backend: &mut K) {
        let width = backend.width();
        run_in_parts::<Encrypting, K, B>(&mut *self.output, self.input, backend, width);
    }
}

impl<const B: usize> BlockModeDecClosure<B> for BlockCtx<'_, '_, B> {
    ghost keeps = { λ a b. b.output.ghost_name ≡ a.output.ghost_name };

    ghost leads = { OneBlock };

    fn call<K: BlockModeDecBackend<B>>(&mut self, backend: &mut K) {
        backend.decrypt_block(&mut InOut {
            output: &mut *self.output,
            input: self.input,
        });
    }
}

impl<const B: usize> BlockModeDecClosure<B> for BlocksCtx<'_, '_, B> {
    ghost keeps = { λ a b. b.output.ghost_name ≡ a.output.ghost_name };

    ghost leads = { EachBlock };

    fn call<K: BlockModeDecBackend<B>>(&mut self, backend: &mut K) {
        let width = backend.width();
        run_in_parts::<Decrypting, K, B>(&mut *self.output, self.input, backend, width);
    }
}

// `width` blocks at a time, and then the rest
fn run_in_parts<D, K: RunsLanes<D, B>, const B: usize>(
    output: &mut [[u8; B]],
    input: &[[u8; B]],
    backend: &mut K,
    width: usize,
)
    requires at_a_time { width ≡ K.lanes backend.old }
    requires some { 1 ≤ width }
    ensures value { output.new ≡ run_of K.step backend.old (pick input.now output.old) }
    ensures stepped { backend.new ≡ state_after K.step backend.old (pick input.now output.old) }
{
    let n = output.len();
    let mut at = 0;
    while n - at >= width {
        backend.run_lanes(
            &mut output[at..at + width],
            part_of(input, n, at, at + width),
        );
        at += width;
    }
    backend.run_tail(&mut output[at..], part_of(input, n, at, n));
}
