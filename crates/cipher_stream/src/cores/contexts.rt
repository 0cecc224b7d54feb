//! The closures behind the calls on one block and on a slice of blocks.

ghost use Rattle.std.specs.Prelude.{◌≡◌, ℕ, ◌+◌, ◌-◌, ◌<◌, ◌≤◌, List, length, slice_index_or};
ghost use Rattle.cipher.specs.Buffers.{pick};
ghost use Rattle.standards.specs.Lists.{xor_bytes};
ghost use Rattle.cipher.specs.Transcript.{Block};
ghost use Rattle.cipher_stream.specs.Keystream.{Keystream, next, stream_of, IsMoved, IsFed, xored_blocks};
ghost use Rattle.cipher_stream.specs.Contexts.{WritesOne, WritesEach, AppliesOne, AppliesEach};

use crate::cores::backends::{StreamCipherBackend, StreamCipherClosure};
use crate::xor::{xor_block, xor_blocks};

#[derive(Drop)]
pub(crate) struct WriteBlockCtx<'o, const B: usize> {
    pub(crate) block: &'o mut [u8; B],
}

#[derive(Drop)]
pub(crate) struct WriteBlocksCtx<'o, const B: usize> {
    pub(crate) blocks: &'o mut [[u8; B]],
}

#[derive(Drop)]
pub(crate) struct ApplyBlockCtx<'i, 'o, const B: usize> {
    pub(crate) output: &'o mut [u8; B],
    pub(crate) input: &'i [[u8; B]],
}

#[derive(Drop)]
pub(crate) struct ApplyBlocksCtx<'i, 'o, const B: usize> {
    pub(crate) output: &'o mut [[u8; B]],
    pub(crate) input: &'i [[u8; B]],
}

impl<const B: usize> StreamCipherClosure<B> for WriteBlockCtx<'_, B> {
    ghost keeps = { λ a b. b.block.ghost_name ≡ a.block.ghost_name };

    ghost leads = { WritesOne };

    fn call<K: StreamCipherBackend<B>>(&mut self, backend: &mut K) {
        backend.gen_ks_block(&mut *self.block);
    }
}

impl<const B: usize> StreamCipherClosure<B> for WriteBlocksCtx<'_, B> {
    ghost keeps = { λ a b. b.blocks.ghost_name ≡ a.blocks.ghost_name };

    ghost leads = { WritesEach };

    fn call<K: StreamCipherBackend<B>>(&mut self, backend: &mut K) {
        write_in_parts(&mut *self.blocks, backend);
    }
}

// `width` blocks at a time, and then the rest
fn write_in_parts<K: StreamCipherBackend<B>, const B: usize>(
    blocks: &mut [[u8; B]],
    backend: &mut K,
)
    ensures kept { K.keeps backend.old backend.new }
    ensures value { blocks.new ≡ next (length blocks.old) (K.keystream backend.old) }
    ensures is_moved { IsMoved (K.keystream backend.old) (length blocks.old) (K.keystream backend.new) }
{
    let width = backend.width();
    let n = blocks.len();
    let mut at = 0;
    while n - at >= width {
        backend.gen_par_ks_blocks(&mut blocks[at..at + width]);
        at += width;
    }
    gen_rest(&mut blocks[at..], backend);
}

// the rest, if there is one
fn gen_rest<K: StreamCipherBackend<B>, const B: usize>(blocks: &mut [[u8; B]], backend: &mut K)
    requires { length blocks.old < K.lanes backend.old }
    ensures kept { K.keeps backend.old backend.new }
    ensures value { blocks.new ≡ next (length blocks.old) (K.keystream backend.old) }
    ensures is_moved { IsMoved (K.keystream backend.old) (length blocks.old) (K.keystream backend.new) }
{
    if blocks.is_empty() {
        return;
    }
    backend.gen_tail_blocks(blocks);
}

impl<const B: usize> StreamCipherClosure<B> for ApplyBlockCtx<'_, '_, B> {
    ghost keeps = { λ a b. b.output.ghost_name ≡ a.output.ghost_name };

    ghost leads = { AppliesOne };

    fn call<K: StreamCipherBackend<B>>(&mut self, backend: &mut K) {
        let mut key = [0; B];
        backend.gen_ks_block(&mut key);
        xor_block(&mut *self.output, self.input, &key);
    }
}

impl<const B: usize> StreamCipherClosure<B> for ApplyBlocksCtx<'_, '_, B> {
    ghost keeps = { λ a b. b.output.ghost_name ≡ a.output.ghost_name };

    ghost leads = { AppliesEach };

    fn call<K: StreamCipherBackend<B>>(&mut self, backend: &mut K) {
        apply_in_parts(&mut *self.output, self.input, backend);
    }
}

fn apply_in_parts<K: StreamCipherBackend<B>, const B: usize>(
    output: &mut [[u8; B]],
    input: &[[u8; B]],
    backend: &mut K,
)
    ensures kept { K.keeps backend.old backend.new }
    ensures value { output.new ≡ xored_blocks (stream_of (K.keystream backend.old)) (pick input.now output.old) }
    ensures is_moved { IsMoved (K.keystream backend.old) (length output.old) (K.keystream backend.new) }
{
    if input.len() == output.len() {
        output.copy_from_slice(input);
    }
    apply_in_place(output, backend);
}

// sixteen blocks at a time, or `width` if that is less
fn apply_in_place<K: StreamCipherBackend<B>, const B: usize>(
    output: &mut [[u8; B]],
    backend: &mut K,
)
    ensures kept { K.keeps backend.old backend.new }
    ensures value { output.new ≡ xored_blocks (stream_of (K.keystream backend.old)) output.old }
    ensures is_moved { IsMoved (K.keystream backend.old) (length output.old) (K.keystream backend.new) }
{
    let mut keys = [[0; B]; 16];
    let most = backend.width().min(16);
    let n = output.len();
    let mut at = 0;
    while at < n {
        let count = most.min(n - at);
        apply_some(&mut output[at..at + count], &mut keys, backend);
        at += count;
    }
}

fn apply_some<K: StreamCipherBackend<B>, const B: usize>(
    output: &mut [[u8; B]],
    keys: &mut [[u8; B]; 16],
    backend: &mut K,
)
    requires few { length output.old ≤ 16 }
    requires narrow { length output.old ≤ K.lanes backend.old }
    ensures kept { K.keeps backend.old backend.new }
    ensures same_lanes { K.lanes backend.new ≡ K.lanes backend.old }
    ensures value { output.new ≡ xored_blocks (stream_of (K.keystream backend.old)) output.old }
    ensures is_moved { IsMoved (K.keystream backend.old) (length output.old) (K.keystream backend.new) }
{
    let n = output.len();
    apply_keys(output, &mut keys[..n], backend);
}

// as many blocks as there are places for keys
fn apply_keys<K: StreamCipherBackend<B>, const B: usize>(
    output: &mut [[u8; B]],
    keys: &mut [[u8; B]],
    backend: &mut K,
)
    requires size { length output.old ≡ length keys.old }
    requires narrow { length keys.old ≤ K.lanes backend.old }
    ensures kept { K.keeps backend.old backend.new }
    ensures same_lanes { K.lanes backend.new ≡ K.lanes backend.old }
    ensures value { output.new ≡ xored_blocks (stream_of (K.keystream backend.old)) output.old }
    ensures is_moved { IsMoved (K.keystream backend.old) (length keys.old) (K.keystream backend.new) }
{
    gen_some(keys, backend);
    xor_blocks(output, keys);
}

// the next blocks, at most `width`
fn gen_some<K: StreamCipherBackend<B>, const B: usize>(blocks: &mut [[u8; B]], backend: &mut K)
    requires { length blocks.old ≤ K.lanes backend.old }
    ensures kept { K.keeps backend.old backend.new }
    ensures same_lanes { K.lanes backend.new ≡ K.lanes backend.old }
    ensures value { blocks.new ≡ next (length blocks.old) (K.keystream backend.old) }
    ensures is_moved { IsMoved (K.keystream backend.old) (length blocks.old) (K.keystream backend.new) }
{
    if blocks.len() == backend.width() {
        backend.gen_par_ks_blocks(blocks);
    } else {
        backend.gen_tail_blocks(blocks);
    }
}
