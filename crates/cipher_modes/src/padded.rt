//! Messages that are padded and run through a mode, in bytes.

ghost use Rattle.std.specs.Prelude.{◌≡◌, ◌↔◌, ℕ, ◌+◌, ◌-◌, ◌*◌, ◌/◌, ◌%◌, ◌<◌, ◌≤◌, ◌++◌, List, Some, None, Option, IsOk, IsSome, IfOk, OnOk, OnErr, MatchResult, length, take, drop};
ghost use Rattle.std.specs.Prelude.{vec_len, IfErr};
ghost use Rattle.cipher.specs.Buffers.{pick};
ghost use Rattle.cipher_modes.specs.Steps.{run_of, state_after};
ghost use Rattle.cipher_modes.specs.Paddings.{Fits, IsPadded, padded};
ghost use Rattle.cipher_modes.specs.Padded.{IsFrontOf, blocks_of, bytes_run, enciphered, IsEncrypted, deciphered, left_by, message_in};
ghost use Rattle.cipher_modes.specs.PaddedVec.{TellsPad, TellsUnpad};

use crate::directions::{Decrypting, Encrypting, Runs};
use crate::modes::{BlockModeDecrypt, BlockModeEncrypt};
use crate::padding::{PadError, Padding, UnpadError};
use std::alloc::Global;

// pads a message, which is an input of `len` bytes or a prefix of the output, and encrypts it in the output
pub(crate) fn encrypt_message<P: Padding, M: BlockModeEncrypt<B>, const B: usize>(
    mode: &mut M,
    output: &mut [u8],
    input: &[u8],
    len: usize,
) -> Result<usize, PadError>
    ensures ok { IsOk result ↔ Fits (P.padding B len) len (length output.old) }
    ensures within { IfOk result (λ n. n ≤ length output.new) }
    ensures value { IfOk result (λ n. IsEncrypted M.step mode.old B
        (padded P.padding B (pick input.now (take len output.old))) n output.old output.new) }
    ensures err { OnErr result (output.new ≡ output.old) }
{
    let n = match P::pad(output, len, B) {
        Ok(n) => n,
        Err(error) => return Err(error),
    };
    load(&mut output[..len], input);
    run_bytes::<Encrypting, M, B>(mode, &mut output[..n]);
    Ok(n)
}

// an input of the output's length, or the output as it is
fn load(output: &mut [u8], input: &[u8])
    ensures value { output.new ≡ pick input.now output.old }
{
    if input.len() == output.len() {
        output.copy_from_slice(input);
    }
}

// block by block
pub(crate) fn run_bytes<D, M: Runs<D, B>, const B: usize>(mode: &mut M, bytes: &mut [u8])
    requires { length bytes.old % B ≡ 0 }
    ensures value { bytes.new ≡ bytes_run M.step mode.old B bytes.old }
{
    let mut at = 0;
    while at < bytes.len() {
        run_first::<D, M, B>(mode, &mut bytes[at..]);
        at += B;
    }
}

fn run_first<D, M: Runs<D, B>, const B: usize>(mode: &mut M, bytes: &mut [u8])
    requires { B ≤ length bytes.old }
    ensures value { bytes.new ≡ (M.step mode.old (take B bytes.old)).0 ++ drop B bytes.old }
    ensures stepped { mode.new ≡ (M.step mode.old (take B bytes.old)).1 }
{
    if let Some(block) = bytes.first_chunk_mut::<B>() {
        mode.run_block(block);
    }
}

// decrypts an input of the output's length, or the output, in the output, and finds the length of the message
pub(crate) fn decrypt_message<P: Padding, M: BlockModeDecrypt<B>, const B: usize>(
    mode: &mut M,
    output: &mut [u8],
    input: &[u8],
) -> Result<usize, UnpadError>
    ensures written { output.new ≡ left_by (deciphered M.step mode.old B (pick input.now output.old)) output.old }
    ensures told { MatchResult result
        (λ n. (n ≤ length output.new)
        × (message_in P.unpadded B (deciphered M.step mode.old B (pick input.now output.old))
        ≡ Some (take n output.new)))
        (λ _. message_in P.unpadded B (deciphered M.step mode.old B (pick input.now output.old)) ≡ None) }
{
    if output.len() % B != 0 {
        return Err(UnpadError);
    }
    load(output, input);
    run_bytes::<Decrypting, M, B>(mode, output);
    match P::unpad(output, B) {
        Ok(message) => Ok(message.len()),
        Err(error) => Err(error),
    }
}

// the first bytes of an output, as many as were made
pub(crate) fn first_bytes<E: Drop>(output: &[u8], made: Result<usize, E>) -> Result<&[u8], E>
    requires { IfOk made (λ n. n ≤ length output.now) }
    ensures { IsFrontOf output.now made result }
{
    match made {
        Ok(n) => Ok(&output[..n]),
        Err(error) => Err(error),
    }
}

// the same in a prefix of a longer output
pub(crate) fn decrypt_front<P: Padding, M: BlockModeDecrypt<B>, const B: usize>(
    mode: &mut M,
    output: &mut [u8],
    input: &[u8],
) -> Result<usize, UnpadError>
    requires { length input.now ≤ length output.old }
    ensures written { output.new
        ≡ left_by (deciphered M.step mode.old B input.now) (take (length input.now) output.old)
        ++ drop (length input.now) output.old }
    ensures told { MatchResult result
        (λ n. (n ≤ length input.now)
        × (message_in P.unpadded B (deciphered M.step mode.old B input.now) ≡ Some (take n output.new)))
        (λ _. message_in P.unpadded B (deciphered M.step mode.old B input.now) ≡ None) }
{
    decrypt_message::<P, M, B>(mode, &mut output[..input.len()], input)
}

/// Why `encrypt_padded_vec` or `decrypt_padded_vec` made nothing.
#[derive(Clone, Copy, Debug, PartialEq, Eq)]
pub enum PaddedVecError {
    /// The message cannot be padded.
    Pad,
    /// The deciphered bytes are no padded message.
    Unpad,
    /// There was no memory.
    OutOfMemory,
}

pub(crate) fn encrypt_vec<P: Padding, M: BlockModeEncrypt<B>, const B: usize>(
    mode: &mut M,
    alloc: Global,
    message: &[u8],
) -> Result<Vec<u8>, PaddedVecError>
    ensures told { MatchResult result
        (λ made. enciphered M.step mode.old B (padded P.padding B message.now) ≡ Some made.items)
        (λ error. TellsPad error (enciphered M.step mode.old B (padded P.padding B message.now))) }
{
    let n = match P::padded_len(message.len(), B) {
        Some(n) => n,
        None => return Err(PaddedVecError::OutOfMemory),
    };
    let mut output = match zeros(alloc, n) {
        Ok(output) => output,
        Err(error) => return Err(error),
    };
    match encrypt_message::<P, M, B>(mode, &mut output, message, message.len()) {
        Ok(_) => Ok(output),
        Err(_) => Err(PaddedVecError::Pad),
    }
}

fn zeros(alloc: Global, n: usize) -> Result<Vec<u8>, PaddedVecError>
    ensures value { IfOk result (λ bytes. vec_len bytes ≡ n) }
    ensures err { IfErr result (λ error. error ≡ PaddedVecError.OutOfMemory) }
{
    match vec![in alloc; 0; n] {
        Ok(bytes) => Ok(bytes),
        Err(_) => Err(PaddedVecError::OutOfMemory),
    }
}

pub(crate) fn decrypt_vec<P: Padding, M: BlockModeDecrypt<B>, const B: usize>(
    mode: &mut M,
    alloc: Global,
    ciphertext: &[u8],
) -> Result<Vec<u8>, PaddedVecError>
    ensures told { MatchResult result
        (λ made. message_in P.unpadded B (deciphered M.step mode.old B ciphertext.now) ≡ Some made.items)
        (λ error. TellsUnpad error (message_in P.unpadded B (deciphered M.step mode.old B ciphertext.now))) }
{
    let mut output = match zeros(alloc, ciphertext.len()) {
        Ok(output) => output,
        Err(error) => return Err(error),
    };
    match decrypt_message::<P, M, B>(mode, &mut output, ciphertext) {
        Ok(n) => {
            output.truncate(n);
            Ok(output)
        }
        Err(_) => Err(PaddedVecError::Unpad),
    }
}
