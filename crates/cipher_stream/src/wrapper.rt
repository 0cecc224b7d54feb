//! The buffer over a core.

mod seeking;

ghost use Rattle.std.specs.Prelude.{◌≡◌, ◌↔◌, ℕ, ◌+◌, ◌-◌, ◌*◌, ◌/◌, ◌%◌, ◌<◌, ◌≤◌, ◌++◌, List, Some, codes, replicate, take, drop, length, IsOk, IfOk, OnOk, OnErr};
ghost use Rattle.cipher.specs.Buffers.{pick};
ghost use Rattle.cipher_stream.specs.Keystream.{Keystream, xored};
ghost use Rattle.cipher_stream.specs.ByteStream.{ByteStream, buffered, to_come, next_bytes, HasMoved, HasRoom, LeavesFewer, IsRest};

use crate::ciphers::StreamCipher;
use crate::cores::StreamCipherCore;
use crate::cores::partial::apply_whole;
use crate::errors::StreamCipherError;
use crate::xor::{xor_from, xor_part};
use cipher::{KeyInit, KeyIvInit};
use std::alloc::AllocError;
use std::fmt;
use std::marker::Model;

/// A core by the type of its blocks: a `StreamCipherCore<B>` is one for `[u8; B]`.
pub trait CoreOn<N>: Sized + Drop {
    // how many bytes a block has
    ghost size: { ℕ };

    ghost blocks: { Self → Keystream };

    ghost bytes: { N → List ℕ };

    /// How many bytes a block has.
    fn block_len() -> usize
        ensures value { result ≡ size };

    /// A block of zeros.
    fn zeros() -> N
        ensures value { bytes result ≡ replicate size 0 };
}

impl<T: StreamCipherCore<B>, const B: usize> CoreOn<[u8; B]> for T {
    ghost size = { B };

    ghost blocks = { λ core. T.keystream core };

    ghost bytes = { λ block. block };

    fn block_len() -> usize {
        B
    }

    fn zeros() -> [u8; B] {
        [0; B]
    }
}

/// A core of blocks of B bytes with the rest of its last block, so that it works on bytes.
pub type StreamCipherCoreWrapper<T, const B: usize> = BufferedCore<T, [u8; B]>;

/// A `StreamCipherCoreWrapper`, by the type of its blocks.
#[derive(Drop)]
pub struct BufferedCore<T: CoreOn<N>, N> {
    pub(crate) core: T,
    pub(crate) buffer: N,
    pub(crate) used: usize,
}

// the core, and how many bytes of its last block are not used yet
impl<T: CoreOn<N>, N> Model for BufferedCore<T, N> {
    ghost Value = { T × ℕ };

    ghost view = { λ w. (w.core, T.size - w.used) };

    ghost invariant = { λ w. (w.used ≤ T.size) × IsRest T.size (T.blocks w.core) (T.bytes w.buffer) w.used };
}

impl<T: CoreOn<N>, N: Drop> BufferedCore<T, N> {
    /// A cipher over this core, with no rest.
    pub fn from_core(core: T) -> Self
        ensures value { result ≡ (core, 0) }
    {
        BufferedCore {
            core,
            buffer: T::zeros(),
            used: T::block_len(),
        }
    }

    /// The core.
    pub fn get_core(&self) -> &T
        ensures value { result.now ≡ self.now.0 }
    {
        &self.core
    }
}

impl<T: StreamCipherCore<B>, const B: usize> BufferedCore<T, [u8; B]> {
    // what of the buffered rest is wanted: how many bytes it was
    fn apply_rest(&mut self, bytes: &mut [u8]) -> usize
        ensures within { result ≤ length bytes.old }
        ensures rest { result < length bytes.old → self.new.1 ≡ 0 }
        ensures value { bytes.new
            ≡ xored (to_come (buffered B T.keystream self.old)) (take result bytes.old) ++ drop result bytes.old }
        ensures moved { HasMoved (buffered B T.keystream self.old) result (buffered B T.keystream self.new) }
        ensures leaves { LeavesFewer B T.remaining self.old result self.new }
    {
        let n = bytes.len().min(B - self.used);
        xor_from(&mut bytes[..n], &self.buffer, self.used);
        self.used += n;
        n
    }

    // bytes where there is no rest: whole blocks, and then a part of one more
    fn apply_fresh(&mut self, bytes: &mut [u8])
        requires { self.old.1 ≡ 0 }
        ensures value { bytes.new ≡ xored (to_come (buffered B T.keystream self.old)) bytes.old }
        ensures moved { HasMoved (buffered B T.keystream self.old) (length bytes.old)
            (buffered B T.keystream self.new) }
        ensures leaves { LeavesFewer B T.remaining self.old (length bytes.old) self.new }
    {
        let whole = bytes.len() / B * B;
        self.apply_blocks(&mut bytes[..whole]);
        if whole < bytes.len() {
            self.apply_last(&mut bytes[whole..]);
        }
    }

    fn apply_blocks(&mut self, bytes: &mut [u8])
        requires fresh { self.old.1 ≡ 0 }
        requires whole { length bytes.old % B ≡ 0 }
        ensures fresh { self.new.1 ≡ 0 }
        ensures value { bytes.new ≡ xored (to_come (buffered B T.keystream self.old)) bytes.old }
        ensures moved { HasMoved (buffered B T.keystream self.old) (length bytes.old)
            (buffered B T.keystream self.new) }
        ensures leaves { LeavesFewer B T.remaining self.old (length bytes.old) self.new }
    {
        apply_whole(&mut self.core, bytes);
    }

    fn apply_last(&mut self, bytes: &mut [u8])
        requires fresh { self.old.1 ≡ 0 }
        requires some { 0 < length bytes.old }
        requires part { length bytes.old < B }
        ensures value { bytes.new ≡ xored (to_come (buffered B T.keystream self.old)) bytes.old }
        ensures moved { HasMoved (buffered B T.keystream self.old) (length bytes.old)
            (buffered B T.keystream self.new) }
        ensures leaves { LeavesFewer B T.remaining self.old (length bytes.old) self.new }
    {
        self.core.write_keystream_block(&mut self.buffer);
        self.used = bytes.len();
        xor_part(bytes, &self.buffer);
    }

    // bytes in their places
    fn apply(&mut self, bytes: &mut [u8])
        ensures value { bytes.new ≡ xored (to_come (buffered B T.keystream self.old)) bytes.old }
        ensures moved { HasMoved (buffered B T.keystream self.old) (length bytes.old)
            (buffered B T.keystream self.new) }
        ensures leaves { LeavesFewer B T.remaining self.old (length bytes.old) self.new }
    {
        let at = self.apply_rest(bytes);
        if at < bytes.len() {
            self.apply_fresh(&mut bytes[at..]);
        }
    }
}

impl<T: StreamCipherCore<B> + Clone, const B: usize> BufferedCore<T, [u8; B]> {
    /// An equal value, if the core's clone is equal to it.
    ///
    /// # Errors
    /// `AllocError` of the core's clone. If that always succeeds, so does this call.
    pub fn clone(&self) -> Result<Self, AllocError>
        requires { (c : T) → T.is_clone self.now.0 c → c ≡ self.now.0 }
        ensures value { IfOk result (λ other. other ≡ self.now) }
        ensures succeeds { T.is_infallible self.now.0 → IsOk result }
    {
        Ok(BufferedCore {
            core: self.core.clone()?,
            buffer: self.buffer,
            used: self.used,
        })
    }
}

/// Its name, and so neither the core nor a byte of the keystream that is not used yet.
impl<T: CoreOn<N>, N> fmt::Debug for BufferedCore<T, N> {
    ghost debug_output = { λ _. Some (codes "StreamCipherCoreWrapper { .. }") };

    fn fmt<W: fmt::Write>(&self, f: &mut fmt::Formatter<W>) -> fmt::Result {
        f.write_str("StreamCipherCoreWrapper { .. }")
    }
}

impl<T: CoreOn<N> + KeyInit<K>, N: Drop, const K: usize> KeyInit<K> for BufferedCore<T, N> {
    ghost keyed = { λ key. (T.keyed key, 0) };

    fn new(key: &[u8; K]) -> Self
        ensures value { result ≡ (T.keyed key.now, 0) }
    {
        BufferedCore::from_core(T::new(key))
    }

    ghost key_size = { T.key_size };
}

impl<T: CoreOn<N> + KeyIvInit<K, I>, N: Drop, const K: usize, const I: usize> KeyIvInit<K, I>
    for BufferedCore<T, N> {
    ghost keyed = { λ key iv. (T.keyed key iv, 0) };

    fn new(key: &[u8; K], iv: &[u8; I]) -> Self
        ensures value { result ≡ (T.keyed key.now iv.now, 0) }
    {
        BufferedCore::from_core(T::new(key, iv))
    }

    ghost key_size = { T.key_size };

    ghost iv_size = { T.iv_size };
}

impl<T: StreamCipherCore<B>, const B: usize> StreamCipher for BufferedCore<T, [u8; B]> {
    ghost stream = { λ w. buffered B T.keystream w };

    ghost has = { λ w. HasRoom B (T.remaining w.0) w.1 };

    fn check_remaining(&self, data_len: usize) -> Result<(), StreamCipherError> {
        let Some(remaining) = self.core.remaining_blocks() else {
            return Ok(());
        };
        let Some(past) = data_len.checked_sub(B - self.used) else {
            return Ok(());
        };
        if past > remaining.saturating_mul(B) {
            return Err(StreamCipherError);
        }
        Ok(())
    }

    fn unchecked_apply_keystream_slices(&mut self, output: &mut [u8], input: &[u8]) {
        if input.len() == output.len() {
            output.copy_from_slice(input);
        }
        self.apply(output);
    }

    fn unchecked_write_keystream(&mut self, buf: &mut [u8]) {
        buf.fill(0);
        self.apply(buf);
    }
}
