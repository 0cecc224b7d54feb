//! A core over bytes.

ghost use Rattle.std.specs.Prelude.{◌≡◌, ◌↔◌, ℕ, ◌+◌, ◌*◌, ◌/◌, ◌%◌, ◌<◌, ◌≤◌, List, length, IsOk, OnOk, OnErr};
ghost use Rattle.cipher.specs.Buffers.{pick};
ghost use Rattle.cipher_stream.specs.Keystream.{Keystream, bytes_of, Remain, joined, IsMoved, Spends, xored};

use crate::cores::StreamCipherCore;
use crate::errors::StreamCipherError;
use crate::xor::xor_part;

pub(crate) fn try_partial<T: StreamCipherCore<B>, const B: usize>(
    core: T,
    output: &mut [u8],
    input: &[u8],
) -> Result<(), StreamCipherError>
    ensures ok { IsOk result ↔ Remain (T.remaining core) (length output.old / B) }
    ensures value { OnOk result (output.new ≡ xored (bytes_of B (T.keystream core)) (pick input.now output.old)) }
    ensures err { OnErr result (output.new ≡ output.old) }
{
    if let Some(remaining) = core.remaining_blocks() {
        if output.len() / B > remaining {
            return Err(StreamCipherError);
        }
    }
    apply_read(core, output, input);
    Ok(())
}

// all bytes that are read
pub(crate) fn apply_read<T: StreamCipherCore<B>, const B: usize>(
    core: T,
    output: &mut [u8],
    input: &[u8],
)
    ensures value { output.new ≡ xored (bytes_of B (T.keystream core)) (pick input.now output.old) }
{
    if input.len() == output.len() {
        output.copy_from_slice(input);
    }
    apply_all(core, output);
}

fn apply_all<T: StreamCipherCore<B>, const B: usize>(core: T, bytes: &mut [u8])
    ensures value { bytes.new ≡ xored (bytes_of B (T.keystream core)) bytes.old }
{
    let mut core = core;
    let whole = bytes.len() / B * B;
    apply_whole(&mut core, &mut bytes[..whole]);
    apply_last(&mut core, &mut bytes[whole..]);
}

// fewer bytes than a block has: none of them need no block
fn apply_last<T: StreamCipherCore<B>, const B: usize>(core: &mut T, bytes: &mut [u8])
    requires { length bytes.old < B }
    ensures value { bytes.new ≡ xored (bytes_of B (T.keystream core.old)) bytes.old }
{
    if bytes.is_empty() {
        return;
    }
    let mut key = [0; B];
    core.write_keystream_block(&mut key);
    xor_part(bytes, &key);
}

// whole blocks
pub(crate) fn apply_whole<T: StreamCipherCore<B>, const B: usize>(core: &mut T, bytes: &mut [u8])
    requires { length bytes.old % B ≡ 0 }
    ensures value { bytes.new ≡ xored (bytes_of B (T.keystream core.old)) bytes.old }
    ensures is_moved { IsMoved (T.keystream core.old) (length bytes.old / B) (T.keystream core.new) }
    ensures spent { Spends (T.remaining core.old) (length bytes.old / B) (T.remaining core.new) }
{
    let mut keys = [[0; B]; 16];
    let n = bytes.len();
    let mut at = 0;
    while at < n {
        let size = (n - at).min(16 * B);
        apply_some(core, &mut keys, &mut bytes[at..at + size]);
        at += size;
    }
}

// at most sixteen blocks
fn apply_some<T: StreamCipherCore<B>, const B: usize>(
    core: &mut T,
    keys: &mut [[u8; B]; 16],
    bytes: &mut [u8],
)
    requires whole { length bytes.old % B ≡ 0 }
    requires few { length bytes.old ≤ 16 * B }
    ensures value { bytes.new ≡ xored (bytes_of B (T.keystream core.old)) bytes.old }
    ensures is_moved { IsMoved (T.keystream core.old) (length bytes.old / B) (T.keystream core.new) }
    ensures spent { Spends (T.remaining core.old) (length bytes.old / B) (T.remaining core.new) }
{
    let count = bytes.len() / B;
    apply_keys(core, &mut keys[..count], bytes);
}

// as many blocks as there are places for keys
fn apply_keys<T: StreamCipherCore<B>, const B: usize>(
    core: &mut T,
    keys: &mut [[u8; B]],
    bytes: &mut [u8],
)
    requires { length bytes.old ≡ length keys.old * B }
    ensures value { bytes.new ≡ xored (bytes_of B (T.keystream core.old)) bytes.old }
    ensures is_moved { IsMoved (T.keystream core.old) (length keys.old) (T.keystream core.new) }
    ensures spent { Spends (T.remaining core.old) (length keys.old) (T.remaining core.new) }
{
    core.write_keystream_blocks(keys);
    xor_parts(bytes, keys);
}

fn xor_parts<const B: usize>(bytes: &mut [u8], keys: &[[u8; B]])
    requires { length bytes.old ≡ length keys.now * B }
    ensures value { bytes.new ≡ xored (joined B keys.now) bytes.old }
{
    for i in 0..keys.len() {
        xor_part(&mut bytes[i * B..i * B + B], &keys[i]);
    }
}
