//! Bytes and blocks xor others.

ghost use Rattle.std.specs.Prelude.{◌≡◌, ◌≤◌, ◌+◌, List, length, slice_index, slice_index_or};
ghost use Rattle.standards.specs.Lists.{xor_bytes};
ghost use Rattle.cipher_stream.specs.Keystream.{combined, xored};

use cipher::xor_in_place;

// writes bytes xor the first of others, which are no fewer
#[inline(always)]
pub(crate) fn xor_into(out: &mut [u8], with: &[u8])
    requires { length out.old ≤ length with.now }
    ensures value { out.new ≡ xored (slice_index with.now) out.old }
{
    let n = out.len();
    xor_in_place(out, &with[..n]);
}

// writes at most B bytes xor a block
#[inline(always)]
pub(crate) fn xor_part<const B: usize>(out: &mut [u8], key: &[u8; B])
    requires { length out.old ≤ B }
    ensures value { out.new ≡ xored (slice_index key.now) out.old }
{
    xor_into(out, key);
}

// writes bytes xor those of a block from a place on
pub(crate) fn xor_from<const B: usize>(out: &mut [u8], key: &[u8; B], at: usize)
    requires { at + length out.old ≤ B }
    ensures value { out.new ≡ xored (λ j. slice_index key.now (at + j)) out.old }
{
    let whole = &key[..];
    xor_into(out, &whole[at..]);
}

// writes a block, or the one that is read in its stead, xor another
pub(crate) fn xor_block<const B: usize>(output: &mut [u8; B], input: &[[u8; B]], key: &[u8; B])
    ensures value { output.new ≡ xor_bytes (slice_index_or input.now 0 output.old) key.now }
{
    read_block(output, input);
    xor_in_place(output, key);
}

// the block that is read, if there is one
fn read_block<const B: usize>(output: &mut [u8; B], input: &[[u8; B]])
    ensures value { output.new ≡ slice_index_or input.now 0 output.old }
{
    if let Some(input) = input.first() {
        *output = *input;
    }
}

// writes blocks xor as many others in their places
pub(crate) fn xor_blocks<const B: usize>(output: &mut [[u8; B]], keys: &[[u8; B]])
    requires { length output.old ≡ length keys.now }
    ensures value { output.new ≡ combined xor_bytes output.old keys.now }
{
    for i in 0..output.len() {
        xor_block(&mut output[i], &[], &keys[i]);
    }
}
