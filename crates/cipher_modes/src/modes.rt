//! Block modes.

ghost use Rattle.std.specs.Prelude.{◌≡◌, ◌↔◌, ℕ, ◌<◌, ◌≤◌, ◌++◌, List, Some, None, IsOk, IsErr, IfOk, OnOk, OnErr, MatchResult, length, take, drop};
ghost use Rattle.cipher.specs.Buffers.{read_of, read_all, pick, message_of};
ghost use Rattle.cipher.specs.Transcript.{Block};
ghost use Rattle.cipher_modes.specs.Steps.{run_of, state_after, IsRun, LedOn};
ghost use Rattle.cipher_modes.specs.Paddings.{Fits, padded};
ghost use Rattle.cipher_modes.specs.Padded.{enciphered, IsEncrypted, deciphered, left_by, message_in};
ghost use Rattle.cipher_modes.specs.PaddedVec.{TellsPad, TellsUnpad};

use crate::backends::{BlockModeDecClosure, BlockModeEncClosure};
use crate::padded::{
    PaddedVecError, decrypt_front, decrypt_message, decrypt_vec, encrypt_message, encrypt_vec,
    first_bytes,
};
use crate::padding::{PadError, Padding, UnpadError};
use cipher::{BlockCtx, BlocksCtx, InOut, InOutBuf, InOutBufReserved, NotEqualError};
use std::alloc::Global;

// The blocks of one slice into another, where there are as many.
macro_rules! on_equal {
    ($mode:ident, $in_blocks:ident, $out_blocks:ident, $call:ident) => {{
        if $in_blocks.len() != $out_blocks.len() {
            return Err(NotEqualError);
        }
        let mut ctx = BlocksCtx {
            output: $out_blocks,
            input: $in_blocks,
        };
        $mode.$call(&mut ctx);
        Ok(())
    }};
}

/// A block mode that encrypts blocks of B bytes in order, B being from 1 to 255.
pub trait BlockModeEncrypt<const B: usize>: Sized + Drop {
    // what it makes of a state and a block: the output and the next state
    ghost step: { Self → Block → Block × Self };

    /// Lends a backend to a closure: a transcript of the mode's steps alone leads it from its old state to its new one.
    fn encrypt_with_backend<F: BlockModeEncClosure<B>>(&mut self, f: &mut F)
        ensures kept { F.keeps f.old f.new }
        ensures led { LedOn step F.leads f.old f.new self.old self.new };

    ghost block_size: { (1 ≤ B) × (B < 256) };

    // the outputs for blocks of B bytes have B bytes
    ghost sized: { (s : Self) (x : Block) → length x ≡ B → length (step s x).0 ≡ B };

    /// Encrypts the block that is read into the place that is written.
    final fn encrypt_block_inout(&mut self, block: InOut<'_, '_, [u8; B]>)
        ensures value { block.exit.0.now ≡ (step self.old (read_of block.entry)).0 }
        ensures stepped { self.new ≡ (step self.old (read_of block.entry)).1 }
    {
        let InOut { output, input } = block;
        let mut ctx = BlockCtx { output, input };
        self.encrypt_with_backend(&mut ctx);
    }

    /// Encrypts the blocks that are read into the places that are written.
    final fn encrypt_blocks_inout(&mut self, blocks: InOutBuf<'_, '_, [u8; B]>)
        ensures value { blocks.exit.0.now ≡ run_of step self.old (read_all blocks.entry) }
        ensures stepped { self.new ≡ state_after step self.old (read_all blocks.entry) }
    {
        let InOutBuf { output, input } = blocks;
        let mut ctx = BlocksCtx { output, input };
        self.encrypt_with_backend(&mut ctx);
    }

    /// Encrypts a block in its place.
    final fn encrypt_block(&mut self, block: &mut [u8; B])
        ensures value { block.new ≡ (step self.old block.old).0 }
        ensures stepped { self.new ≡ (step self.old block.old).1 }
    {
        let mut ctx = BlockCtx {
            output: block,
            input: &[],
        };
        self.encrypt_with_backend(&mut ctx);
    }

    /// Encrypts one block into another place.
    final fn encrypt_block_b2b(&mut self, in_block: &[u8; B], out_block: &mut [u8; B])
        ensures value { out_block.new ≡ (step self.old in_block.now).0 }
        ensures stepped { self.new ≡ (step self.old in_block.now).1 }
    {
        *out_block = *in_block;
        self.encrypt_block(out_block);
    }

    /// Encrypts blocks in their places.
    final fn encrypt_blocks(&mut self, blocks: &mut [[u8; B]])
        ensures value { blocks.new ≡ run_of step self.old blocks.old }
        ensures stepped { self.new ≡ state_after step self.old blocks.old }
    {
        let mut ctx = BlocksCtx {
            output: blocks,
            input: &[],
        };
        self.encrypt_with_backend(&mut ctx);
    }

    /// Encrypts blocks into other places.
    ///
    /// # Errors
    /// `NotEqualError` exactly if there are not as many places as blocks. Nothing is written then, and the state is as
    /// before.
    final fn encrypt_blocks_b2b(
        &mut self,
        in_blocks: &[[u8; B]],
        out_blocks: &mut [[u8; B]],
    ) -> Result<(), NotEqualError>
        ensures ok { IsOk result ↔ (length in_blocks.now ≡ length out_blocks.old) }
        ensures ran { OnOk result (IsRun step self.old in_blocks.now out_blocks.new self.new) }
        ensures err { OnErr result ((out_blocks.new ≡ out_blocks.old) × (self.new ≡ self.old)) }
    {
        on_equal!(self, in_blocks, out_blocks, encrypt_with_backend)
    }

    /// Pads a message and encrypts it in the output. The answer is the length of the encrypted bytes, with which the
    /// output then begins.
    ///
    /// # Errors
    /// `PadError` exactly if the output is shorter than the padded length, the message is longer than the output, or
    /// the message cannot be padded. Nothing is written then.
    final fn encrypt_padded_len<P: Padding>(
        mut self,
        bytes: InOutBufReserved<'_, '_, u8>,
    ) -> Result<usize, PadError>
        ensures ok { IsOk result ↔ Fits (P.padding B bytes.entry.len) bytes.entry.len (length bytes.entry.output.now) }
        ensures value { IfOk result (λ n. IsEncrypted step self B (padded P.padding B (message_of bytes.entry)) n
            bytes.entry.output.now bytes.exit.0.now) }
        ensures err { OnErr result (bytes.exit.0.now ≡ bytes.entry.output.now) }
    {
        let InOutBufReserved { output, input, len } = bytes;
        encrypt_message::<P, Self, B>(&mut self, output, input, len)
    }

    /// The answer of `encrypt_padded_len`, with the encrypted bytes in place of their length.
    ///
    /// # Errors
    /// As `encrypt_padded_len`.
    final fn encrypt_padded_inout<'out, P: Padding>(
        mut self,
        bytes: InOutBufReserved<'_, 'out, u8>,
    ) -> Result<&'out [u8], PadError>
        ensures ok { IsOk result ↔ Fits (P.padding B bytes.entry.len) bytes.entry.len (length bytes.entry.output.now) }
        ensures value { IfOk result (λ made.
            enciphered step self B (padded P.padding B (message_of bytes.entry)) ≡ Some made.now) }
    {
        let InOutBufReserved { output, input, len } = bytes;
        let made = encrypt_message::<P, Self, B>(&mut self, &mut *output, input, len);
        first_bytes(output, made)
    }

    /// Like `encrypt_padded_inout` of the message that is the first `len` bytes of a buffer.
    ///
    /// # Errors
    /// As `encrypt_padded_len`.
    final fn encrypt_padded<P: Padding>(
        mut self,
        buffer: &mut [u8],
        len: usize,
    ) -> Result<&[u8], PadError>
        ensures ok { IsOk result ↔ Fits (P.padding B len) len (length buffer.old) }
        ensures value { IfOk result (λ made.
            enciphered step self B (padded P.padding B (take len buffer.old)) ≡ Some made.now) }
    {
        let made = encrypt_message::<P, Self, B>(&mut self, &mut *buffer, &[], len);
        first_bytes(buffer, made)
    }

    /// Like `encrypt_padded_inout` of a message and another buffer.
    ///
    /// # Errors
    /// As `encrypt_padded_len`.
    final fn encrypt_padded_b2b<'out, P: Padding>(
        mut self,
        message: &[u8],
        output: &'out mut [u8],
    ) -> Result<&'out [u8], PadError>
        ensures ok { IsOk result ↔ Fits (P.padding B (length message.now)) (length message.now) (length output.old) }
        ensures value { IfOk result (λ made.
            enciphered step self B (padded P.padding B message.now) ≡ Some made.now) }
    {
        let made = encrypt_message::<P, Self, B>(&mut self, &mut *output, message, message.len());
        first_bytes(output, made)
    }

    /// Pads a message and encrypts it in a vector.
    ///
    /// # Errors
    /// `Pad` only if the message cannot be padded; `Unpad` never. `OutOfMemory` may come in place of each answer, also
    /// if the padded length is no usize.
    final fn encrypt_padded_vec<P: Padding>(
        mut self,
        alloc: Global,
        message: &[u8],
    ) -> Result<Vec<u8>, PaddedVecError>
        ensures told { MatchResult result
            (λ made. enciphered step self B (padded P.padding B message.now) ≡ Some made.items)
            (λ error. TellsPad error (enciphered step self B (padded P.padding B message.now))) }
    {
        encrypt_vec::<P, Self, B>(&mut self, alloc, message)
    }
}

/// A block mode that decrypts blocks of B bytes in order, B being from 1 to 255.
pub trait BlockModeDecrypt<const B: usize>: Sized + Drop {
    // what it makes of a state and a block: the output and the next state
    ghost step: { Self → Block → Block × Self };

    /// Lends a backend to a closure: a transcript of the mode's steps alone leads it from its old state to its new one.
    fn decrypt_with_backend<F: BlockModeDecClosure<B>>(&mut self, f: &mut F)
        ensures kept { F.keeps f.old f.new }
        ensures led { LedOn step F.leads f.old f.new self.old self.new };

    ghost block_size: { (1 ≤ B) × (B < 256) };

    // the outputs for blocks of B bytes have B bytes
    ghost sized: { (s : Self) (x : Block) → length x ≡ B → length (step s x).0 ≡ B };

    /// Decrypts the block that is read into the place that is written.
    final fn decrypt_block_inout(&mut self, block: InOut<'_, '_, [u8; B]>)
        ensures value { block.exit.0.now ≡ (step self.old (read_of block.entry)).0 }
        ensures stepped { self.new ≡ (step self.old (read_of block.entry)).1 }
    {
        let InOut { output, input } = block;
        let mut ctx = BlockCtx { output, input };
        self.decrypt_with_backend(&mut ctx);
    }

    /// Decrypts the blocks that are read into the places that are written.
    final fn decrypt_blocks_inout(&mut self, blocks: InOutBuf<'_, '_, [u8; B]>)
        ensures value { blocks.exit.0.now ≡ run_of step self.old (read_all blocks.entry) }
        ensures stepped { self.new ≡ state_after step self.old (read_all blocks.entry) }
    {
        let InOutBuf { output, input } = blocks;
        let mut ctx = BlocksCtx { output, input };
        self.decrypt_with_backend(&mut ctx);
    }

    /// Decrypts a block in its place.
    final fn decrypt_block(&mut self, block: &mut [u8; B])
        ensures value { block.new ≡ (step self.old block.old).0 }
        ensures stepped { self.new ≡ (step self.old block.old).1 }
    {
        let mut ctx = BlockCtx {
            output: block,
            input: &[],
        };
        self.decrypt_with_backend(&mut ctx);
    }

    /// Decrypts one block into another place.
    final fn decrypt_block_b2b(&mut self, in_block: &[u8; B], out_block: &mut [u8; B])
        ensures value { out_block.new ≡ (step self.old in_block.now).0 }
        ensures stepped { self.new ≡ (step self.old in_block.now).1 }
    {
        *out_block = *in_block;
        self.decrypt_block(out_block);
    }

    /// Decrypts blocks in their places.
    final fn decrypt_blocks(&mut self, blocks: &mut [[u8; B]])
        ensures value { blocks.new ≡ run_of step self.old blocks.old }
        ensures stepped { self.new ≡ state_after step self.old blocks.old }
    {
        let mut ctx = BlocksCtx {
            output: blocks,
            input: &[],
        };
        self.decrypt_with_backend(&mut ctx);
    }

    /// Decrypts blocks into other places.
    ///
    /// # Errors
    /// `NotEqualError` exactly if there are not as many places as blocks. Nothing is written then, and the state is as
    /// before.
    final fn decrypt_blocks_b2b(
        &mut self,
        in_blocks: &[[u8; B]],
        out_blocks: &mut [[u8; B]],
    ) -> Result<(), NotEqualError>
        ensures ok { IsOk result ↔ (length in_blocks.now ≡ length out_blocks.old) }
        ensures ran { OnOk result (IsRun step self.old in_blocks.now out_blocks.new self.new) }
        ensures err { OnErr result ((out_blocks.new ≡ out_blocks.old) × (self.new ≡ self.old)) }
    {
        on_equal!(self, in_blocks, out_blocks, decrypt_with_backend)
    }

    /// Decrypts a buffer in its output. The answer is the length of the message, with which the output then begins.
    ///
    /// # Errors
    /// `UnpadError` exactly if the length is not one of whole blocks or the padding is malformed. In the first case
    /// nothing is written; in the second the output is what was deciphered.
    final fn decrypt_padded_len<P: Padding>(
        mut self,
        bytes: InOutBuf<'_, '_, u8>,
    ) -> Result<usize, UnpadError>
        ensures written { bytes.exit.0.now
            ≡ left_by (deciphered step self B (read_all bytes.entry)) bytes.entry.output.now }
        ensures told { MatchResult result
            (λ n. (n ≤ length bytes.exit.0.now)
            × (message_in P.unpadded B (deciphered step self B (read_all bytes.entry))
            ≡ Some (take n bytes.exit.0.now)))
            (λ _. message_in P.unpadded B (deciphered step self B (read_all bytes.entry)) ≡ None) }
    {
        let InOutBuf { output, input } = bytes;
        decrypt_message::<P, Self, B>(&mut self, output, input)
    }

    /// The answer of `decrypt_padded_len`, with the message in place of its length.
    ///
    /// # Errors
    /// As `decrypt_padded_len`.
    final fn decrypt_padded_inout<'out, P: Padding>(
        mut self,
        bytes: InOutBuf<'_, 'out, u8>,
    ) -> Result<&'out [u8], UnpadError>
        ensures told { MatchResult result
            (λ message. message_in P.unpadded B (deciphered step self B (read_all bytes.entry)) ≡ Some message.now)
            (λ _. message_in P.unpadded B (deciphered step self B (read_all bytes.entry)) ≡ None) }
    {
        let InOutBuf { output, input } = bytes;
        let made = decrypt_message::<P, Self, B>(&mut self, &mut *output, input);
        first_bytes(output, made)
    }

    /// Like `decrypt_padded_inout` of a buffer in its place.
    ///
    /// # Errors
    /// As `decrypt_padded_len`.
    final fn decrypt_padded<P: Padding>(mut self, buffer: &mut [u8]) -> Result<&[u8], UnpadError>
        ensures told { MatchResult result
            (λ message. message_in P.unpadded B (deciphered step self B buffer.old) ≡ Some message.now)
            (λ _. message_in P.unpadded B (deciphered step self B buffer.old) ≡ None) }
    {
        let made = decrypt_message::<P, Self, B>(&mut self, &mut *buffer, &[]);
        first_bytes(buffer, made)
    }

    /// Decrypts bytes in a prefix of another buffer. The answer is the length of the message.
    ///
    /// # Errors
    /// `UnpadError` exactly if the buffer is shorter than the bytes, or as for `decrypt_padded_len`. In the first case
    /// nothing is written.
    final fn decrypt_padded_b2b_len<P: Padding>(
        mut self,
        input: &[u8],
        output: &mut [u8],
    ) -> Result<usize, UnpadError>
        ensures short { length output.old < length input.now → IsErr result × (output.new ≡ output.old) }
        ensures written { length input.now ≤ length output.old → output.new
            ≡ left_by (deciphered step self B input.now) (take (length input.now) output.old)
            ++ drop (length input.now) output.old }
        ensures told { length input.now ≤ length output.old → MatchResult result
            (λ n. (n ≤ length input.now)
            × (message_in P.unpadded B (deciphered step self B input.now) ≡ Some (take n output.new)))
            (λ _. message_in P.unpadded B (deciphered step self B input.now) ≡ None) }
    {
        if output.len() < input.len() {
            return Err(UnpadError);
        }
        decrypt_front::<P, Self, B>(&mut self, output, input)
    }

    /// The answer of `decrypt_padded_b2b_len`, with the message in place of its length.
    ///
    /// # Errors
    /// As `decrypt_padded_b2b_len`.
    final fn decrypt_padded_b2b<'out, P: Padding>(
        self,
        input: &[u8],
        output: &'out mut [u8],
    ) -> Result<&'out [u8], UnpadError>
        ensures short { length output.old < length input.now → IsErr result }
        ensures told { length input.now ≤ length output.old → MatchResult result
            (λ message. message_in P.unpadded B (deciphered step self B input.now) ≡ Some message.now)
            (λ _. message_in P.unpadded B (deciphered step self B input.now) ≡ None) }
    {
        let made = self.decrypt_padded_b2b_len::<P>(input, &mut *output);
        first_bytes(output, made)
    }

    /// Decrypts bytes in a vector.
    ///
    /// # Errors
    /// `Unpad` only if there are not whole blocks or the padding is malformed; `Pad` never. `OutOfMemory` may come in
    /// place of each answer.
    final fn decrypt_padded_vec<P: Padding>(
        mut self,
        alloc: Global,
        ciphertext: &[u8],
    ) -> Result<Vec<u8>, PaddedVecError>
        ensures told { MatchResult result
            (λ made. message_in P.unpadded B (deciphered step self B ciphertext.now) ≡ Some made.items)
            (λ error. TellsUnpad error (message_in P.unpadded B (deciphered step self B ciphertext.now))) }
    {
        decrypt_vec::<P, Self, B>(&mut self, alloc, ciphertext)
    }
}
