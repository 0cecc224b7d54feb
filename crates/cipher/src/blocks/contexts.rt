//! The closures behind the calls on one block and on a slice of blocks.

ghost use Rattle.std.specs.Prelude.{◌≡◌, ℕ, List, [], ◌∷◌, ◌+◌, ◌≤◌, ◌<◌, length, map, slice_index_or};
ghost use Rattle.cipher.specs.Buffers.{read_of, read_all, pick};
ghost use Rattle.cipher.specs.Transcript.{Transcript, Led};
ghost use Rattle.cipher.specs.Contexts.{OneBlock, EachBlock};

use crate::blocks::backends::{
    BlockCipherDecBackend, BlockCipherDecClosure, BlockCipherEncBackend, BlockCipherEncClosure,
};
use crate::buffers::{InOut, InOutBuf, part_of};

/// The closure of a call on one block, of a cipher or of a mode. It reads the first block of the input, or the output
/// if the input has none.
#[derive(Drop)]
pub struct BlockCtx<'i, 'o, const B: usize> {
    /// The place that is written.
    pub output: &'o mut [u8; B],
    /// The blocks that are read, if there is one.
    pub input: &'i [[u8; B]],
}

/// The closure of a call on blocks, of a cipher or of a mode. It reads the input, or the output if the input has
/// another length.
#[derive(Drop)]
pub struct BlocksCtx<'i, 'o, const B: usize> {
    /// The places that are written.
    pub output: &'o mut [[u8; B]],
    /// The blocks that are read, if they are as many.
    pub input: &'i [[u8; B]],
}

impl<const B: usize> BlockCipherEncClosure<B> for BlockCtx<'_, '_, B> {
    ghost keeps = { λ a b. b.output.ghost_name ≡ a.output.ghost_name };

    ghost leads = { OneBlock };

    fn call<K: BlockCipherEncBackend<B>>(&mut self, backend: &K) {
        encrypt_one(&mut *self.output, self.input, backend);
    }
}

impl<const B: usize> BlockCipherEncClosure<B> for BlocksCtx<'_, '_, B> {
    ghost keeps = { λ a b. b.output.ghost_name ≡ a.output.ghost_name };

    ghost leads = { EachBlock };

    fn call<K: BlockCipherEncBackend<B>>(&mut self, backend: &K) {
        encrypt_in_parts(&mut *self.output, self.input, backend);
    }
}

// `width` blocks at a time, and then the rest
fn encrypt_in_parts<const B: usize, K: BlockCipherEncBackend<B>>(
    output: &mut [[u8; B]],
    input: &[[u8; B]],
    backend: &K,
)
    ensures value { output.new ≡ map (K.encrypts backend.now) (pick input.now output.old) }
{
    let width = backend.width();
    let n = output.len();
    let mut at = 0;
    while n - at >= width {
        encrypt_par(
            &mut output[at..at + width],
            part_of(input, n, at, at + width),
            backend,
        );
        at += width;
    }
    encrypt_tail(&mut output[at..], part_of(input, n, at, n), backend);
}

fn encrypt_par<const B: usize, K: BlockCipherEncBackend<B>>(
    output: &mut [[u8; B]],
    input: &[[u8; B]],
    backend: &K,
)
    requires { length output.old ≡ K.lanes backend.now }
    ensures value { output.new ≡ map (K.encrypts backend.now) (pick input.now output.old) }
{
    backend.encrypt_par_blocks(&mut InOutBuf { output, input });
}

// the rest, if there is one
fn encrypt_tail<const B: usize, K: BlockCipherEncBackend<B>>(
    output: &mut [[u8; B]],
    input: &[[u8; B]],
    backend: &K,
)
    requires { length output.old < K.lanes backend.now }
    ensures value { output.new ≡ map (K.encrypts backend.now) (pick input.now output.old) }
{
    if output.is_empty() {
        return;
    }
    backend.encrypt_tail_blocks(&mut InOutBuf { output, input });
}

fn encrypt_one<const B: usize, K: BlockCipherEncBackend<B>>(
    output: &mut [u8; B],
    input: &[[u8; B]],
    backend: &K,
)
    ensures value { output.new ≡ K.encrypts backend.now (slice_index_or input.now 0 output.old) }
{
    backend.encrypt_block(&mut InOut { output, input });
}

impl<const B: usize> BlockCipherDecClosure<B> for BlockCtx<'_, '_, B> {
    ghost keeps = { λ a b. b.output.ghost_name ≡ a.output.ghost_name };

    ghost leads = { OneBlock };

    fn call<K: BlockCipherDecBackend<B>>(&mut self, backend: &K) {
        decrypt_one(&mut *self.output, self.input, backend);
    }
}

impl<const B: usize> BlockCipherDecClosure<B> for BlocksCtx<'_, '_, B> {
    ghost keeps = { λ a b. b.output.ghost_name ≡ a.output.ghost_name };

    ghost leads = { EachBlock };

    fn call<K: BlockCipherDecBackend<B>>(&mut self, backend: &K) {
        decrypt_in_parts(&mut *self.output, self.input, backend);
    }
}

// `width` blocks at a time, and then the rest
fn decrypt_in_parts<const B: usize, K: BlockCipherDecBackend<B>>(
    output: &mut [[u8; B]],
    input: &[[u8; B]],
    backend: &K,
)
    ensures value { output.new ≡ map (K.decrypts backend.now) (pick input.now output.old) }
{
    let width = backend.width();
    let n = output.len();
    let mut at = 0;
    while n - at >= width {
        decrypt_par(
            &mut output[at..at + width],
            part_of(input, n, at, at + width),
            backend,
        );
        at += width;
    }
    decrypt_tail(&mut output[at..], part_of(input, n, at, n), backend);
}

fn decrypt_par<const B: usize, K: BlockCipherDecBackend<B>>(
    output: &mut [[u8; B]],
    input: &[[u8; B]],
    backend: &K,
)
    requires { length output.old ≡ K.lanes backend.now }
    ensures value { output.new ≡ map (K.decrypts backend.now) (pick input.now output.old) }
{
    backend.decrypt_par_blocks(&mut InOutBuf { output, input });
}

// the rest, if there is one
fn decrypt_tail<const B: usize, K: BlockCipherDecBackend<B>>(
    output: &mut [[u8; B]],
    input: &[[u8; B]],
    backend: &K,
)
    requires { length output.old < K.lanes backend.now }
    ensures value { output.new ≡ map (K.decrypts backend.now) (pick input.now output.old) }
{
    if output.is_empty() {
        return;
    }
    backend.decrypt_tail_blocks(&mut InOutBuf { output, input });
}

fn decrypt_one<const B: usize, K: BlockCipherDecBackend<B>>(
    output: &mut [u8; B],
    input: &[[u8; B]],
    backend: &K,
)
    ensures value { output.new ≡ K.decrypts backend.now (slice_index_or input.now 0 output.old) }
{
    backend.decrypt_block(&mut InOut { output, input });
}
