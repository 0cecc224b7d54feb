//! Stream ciphers over bytes.

ghost use Rattle.std.specs.Prelude.{◌≡◌, ◌↔◌, ℕ, List, length, IsOk, OnOk, OnErr};
ghost use Rattle.cipher.specs.Buffers.{read_all, pick};
ghost use Rattle.cipher_stream.specs.Keystream.{xored};
ghost use Rattle.cipher_stream.specs.ByteStream.{ByteStream, to_come, next_bytes, HasMoved, LeavesRoom};

use crate::errors::StreamCipherError;
use cipher::{InOutBuf, NotEqualError};

/// A synchronous stream cipher: what it is applied to is xored with the bytes of its keystream from its position on.
pub trait StreamCipher {
    // the keystream and the position
    ghost stream: { Self → ByteStream };

    // whether so many bytes are left before the keystream repeats
    ghost has: { Self → ℕ → Type 0 };

    /// Whether `data_len` bytes are left, as the type says by `has`.
    ///
    /// # Errors
    /// `StreamCipherError` exactly if they are not.
    fn check_remaining(&self, data_len: usize) -> Result<(), StreamCipherError>
        ensures ok { IsOk result ↔ has self.now data_len };

    /// Writes the bytes of an input of the output's length, else those of the output, xor the bytes to come. As many
    /// are left. All calls that apply the keystream call this one.
    fn unchecked_apply_keystream_slices(&mut self, output: &mut [u8], input: &[u8])
        requires { has self.old (length output.old) }
        ensures value { output.new ≡ xored (to_come (stream self.old)) (pick input.now output.old) }
        ensures moved { HasMoved (stream self.old) (length output.old) (stream self.new) }
        ensures leaves { LeavesRoom (has self.old) (length output.old) (has self.new) };

    /// Writes the bytes to come. As many are left.
    fn unchecked_write_keystream(&mut self, buf: &mut [u8])
        requires { has self.old (length buf.old) }
        ensures value { buf.new ≡ next_bytes (length buf.old) (stream self.old) }
        ensures moved { HasMoved (stream self.old) (length buf.old) (stream self.new) }
        ensures leaves { LeavesRoom (has self.old) (length buf.old) (has self.new) };

    /// Writes the bytes that are read xor the bytes to come. As many are left.
    final fn unchecked_apply_keystream_inout(&mut self, buf: InOutBuf<'_, '_, u8>)
        requires { has self.old (length buf.output.now) }
        ensures value { buf.exit.0.now ≡ xored (to_come (stream self.old)) (read_all buf.entry) }
        ensures moved { HasMoved (stream self.old) (length buf.entry.output.now) (stream self.new) }
        ensures leaves { LeavesRoom (has self.old) (length buf.entry.output.now) (has self.new) }
    {
        let InOutBuf { output, input } = buf;
        self.unchecked_apply_keystream_slices(output, input);
    }

    /// Writes bytes xor the bytes to come in their places. As many are left.
    final fn unchecked_apply_keystream(&mut self, buf: &mut [u8])
        requires { has self.old (length buf.old) }
        ensures value { buf.new ≡ xored (to_come (stream self.old)) buf.old }
        ensures moved { HasMoved (stream self.old) (length buf.old) (stream self.new) }
        ensures leaves { LeavesRoom (has self.old) (length buf.old) (has self.new) }
    {
        self.unchecked_apply_keystream_slices(buf, &[]);
    }

    /// Writes an input xor the bytes to come into an output. As many are left.
    ///
    /// # Errors
    /// `NotEqualError` exactly if their lengths differ. Nothing changes then.
    final fn unchecked_apply_keystream_b2b(
        &mut self,
        input: &[u8],
        output: &mut [u8],
    ) -> Result<(), NotEqualError>
        requires { length input.now ≡ length output.old → has self.old (length output.old) }
        ensures ok { IsOk result ↔ (length input.now ≡ length output.old) }
        ensures value { OnOk result (output.new ≡ xored (to_come (stream self.old)) input.now) }
        ensures moved { OnOk result (HasMoved (stream self.old) (length output.old) (stream self.new)) }
        ensures leaves { OnOk result (LeavesRoom (has self.old) (length output.old) (has self.new)) }
        ensures err { OnErr result ((output.new ≡ output.old) × (self.new ≡ self.old)) }
    {
        if input.len() != output.len() {
            return Err(NotEqualError);
        }
        self.unchecked_apply_keystream_slices(output, input);
        Ok(())
    }

    /// Writes the bytes that are read xor the bytes to come.
    ///
    /// # Errors
    /// `StreamCipherError` exactly if fewer bytes are left. Nothing changes then.
    final fn try_apply_keystream_inout(
        &mut self,
        buf: InOutBuf<'_, '_, u8>,
    ) -> Result<(), StreamCipherError>
        ensures ok { IsOk result ↔ has self.old (length buf.entry.output.now) }
        ensures value { OnOk result (buf.exit.0.now ≡ xored (to_come (stream self.old)) (read_all buf.entry)) }
        ensures moved { OnOk result (HasMoved (stream self.old) (length buf.entry.output.now) (stream self.new)) }
        ensures leaves { OnOk result (LeavesRoom (has self.old) (length buf.entry.output.now) (has self.new)) }
        ensures err { OnErr result ((buf.exit.0.now ≡ buf.entry.output.now) × (self.new ≡ self.old)) }
    {
        let InOutBuf { output, input } = buf;
        try_apply(self, output, input)
    }

    /// Writes bytes xor the bytes to come in their places.
    ///
    /// # Errors
    /// `StreamCipherError` exactly if fewer bytes are left. Nothing changes then.
    final fn try_apply_keystream(&mut self, buf: &mut [u8]) -> Result<(), StreamCipherError>
        ensures ok { IsOk result ↔ has self.old (length buf.old) }
        ensures value { OnOk result (buf.new ≡ xored (to_come (stream self.old)) buf.old) }
        ensures moved { OnOk result (HasMoved (stream self.old) (length buf.old) (stream self.new)) }
        ensures leaves { OnOk result (LeavesRoom (has self.old) (length buf.old) (has self.new)) }
        ensures err { OnErr result ((buf.new ≡ buf.old) × (self.new ≡ self.old)) }
    {
        try_apply(self, buf, &[])
    }

    /// Writes an input xor the bytes to come into an output.
    ///
    /// # Errors
    /// `StreamCipherError` exactly if their lengths differ or fewer bytes are left. Nothing changes then.
    final fn try_apply_keystream_b2b(
        &mut self,
        input: &[u8],
        output: &mut [u8],
    ) -> Result<(), StreamCipherError>
        ensures ok { IsOk result ↔ ((length input.now ≡ length output.old) × has self.old (length output.old)) }
        ensures value { OnOk result (output.new ≡ xored (to_come (stream self.old)) input.now) }
        ensures moved { OnOk result (HasMoved (stream self.old) (length output.old) (stream self.new)) }
        ensures leaves { OnOk result (LeavesRoom (has self.old) (length output.old) (has self.new)) }
        ensures err { OnErr result ((output.new ≡ output.old) × (self.new ≡ self.old)) }
    {
        if input.len() != output.len() {
            return Err(StreamCipherError);
        }
        try_apply(self, output, input)
    }

    /// Writes the bytes to come.
    ///
    /// # Errors
    /// `StreamCipherError` exactly if fewer bytes are left. Nothing changes then.
    final fn try_write_keystream(&mut self, buf: &mut [u8]) -> Result<(), StreamCipherError>
        ensures ok { IsOk result ↔ has self.old (length buf.old) }
        ensures value { OnOk result (buf.new ≡ next_bytes (length buf.old) (stream self.old)) }
        ensures moved { OnOk result (HasMoved (stream self.old) (length buf.old) (stream self.new)) }
        ensures leaves { OnOk result (LeavesRoom (has self.old) (length buf.old) (has self.new)) }
        ensures err { OnErr result ((buf.new ≡ buf.old) × (self.new ≡ self.old)) }
    {
        self.check_remaining(buf.len())?;
        self.unchecked_write_keystream(buf);
        Ok(())
    }

    /// Writes the bytes that are read xor the bytes to come. As many are left.
    final fn apply_keystream_inout(&mut self, buf: InOutBuf<'_, '_, u8>)
        requires { has self.old (length buf.output.now) }
        ensures value { buf.exit.0.now ≡ xored (to_come (stream self.old)) (read_all buf.entry) }
        ensures moved { HasMoved (stream self.old) (length buf.entry.output.now) (stream self.new) }
        ensures leaves { LeavesRoom (has self.old) (length buf.entry.output.now) (has self.new) }
    {
        let InOutBuf { output, input } = buf;
        self.unchecked_apply_keystream_slices(output, input);
    }

    /// Writes bytes xor the bytes to come in their places. As many are left.
    final fn apply_keystream(&mut self, buf: &mut [u8])
        requires { has self.old (length buf.old) }
        ensures value { buf.new ≡ xored (to_come (stream self.old)) buf.old }
        ensures moved { HasMoved (stream self.old) (length buf.old) (stream self.new) }
        ensures leaves { LeavesRoom (has self.old) (length buf.old) (has self.new) }
    {
        self.unchecked_apply_keystream_slices(buf, &[]);
    }

    /// Writes an input xor the bytes to come into an output of its length. As many are left.
    final fn apply_keystream_b2b(&mut self, input: &[u8], output: &mut [u8])
        requires same_length { length input.now ≡ length output.old }
        requires left { has self.old (length output.old) }
        ensures value { output.new ≡ xored (to_come (stream self.old)) input.now }
        ensures moved { HasMoved (stream self.old) (length output.old) (stream self.new) }
        ensures leaves { LeavesRoom (has self.old) (length output.old) (has self.new) }
    {
        self.unchecked_apply_keystream_slices(output, input);
    }

    /// Writes the bytes to come. As many are left.
    final fn write_keystream(&mut self, buf: &mut [u8])
        requires { has self.old (length buf.old) }
        ensures value { buf.new ≡ next_bytes (length buf.old) (stream self.old) }
        ensures moved { HasMoved (stream self.old) (length buf.old) (stream self.new) }
        ensures leaves { LeavesRoom (has self.old) (length buf.old) (has self.new) }
    {
        self.unchecked_write_keystream(buf);
    }
}

// tests and then applies
fn try_apply<C: StreamCipher>(
    cipher: &mut C,
    output: &mut [u8],
    input: &[u8],
) -> Result<(), StreamCipherError>
    ensures ok { IsOk result ↔ C.has cipher.old (length output.old) }
    ensures value { OnOk result (output.new ≡ xored (to_come (C.stream cipher.old)) (pick input.now output.old)) }
    ensures moved { OnOk result (HasMoved (C.stream cipher.old) (length output.old) (C.stream cipher.new)) }
    ensures leaves { OnOk result (LeavesRoom (C.has cipher.old) (length output.old) (C.has cipher.new)) }
    ensures err { OnErr result ((output.new ≡ output.old) × (cipher.new ≡ cipher.old)) }
{
    cipher.check_remaining(output.len())?;
    cipher.unchecked_apply_keystream_slices(output, input);
    Ok(())
}

impl<C: StreamCipher> StreamCipher for &mut C {
    ghost stream = { λ c. C.stream c.now };

    ghost has = { λ c. C.has c.now };

    fn check_remaining(&self, data_len: usize) -> Result<(), StreamCipherError> {
        C::check_remaining(*self, data_len)
    }

    fn unchecked_apply_keystream_slices(&mut self, output: &mut [u8], input: &[u8]) {
        C::unchecked_apply_keystream_slices(*self, output, input);
    }

    fn unchecked_write_keystream(&mut self, buf: &mut [u8]) {
        C::unchecked_write_keystream(*self, buf);
    }
}
