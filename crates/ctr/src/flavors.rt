//! The flavours of counter mode: the place of the counter in a block, and how it is added.
//!
//! A block of B bytes is a whole number of chunks, at least one. The flavours `BE` add the counter in the last chunk,
//! high byte first, and the flavours `LE` in the first, low byte first. All other bytes stay as they are.

mod chunks;
mod counted;
mod ctr128;
mod ctr32;
mod ctr64;
mod ends;

ghost use Rattle.std.specs.Prelude.{◌≡◌, ℕ, ◌+◌, ◌-◌, ◌%◌, ◌<◌, ◌≤◌, List, Some, length};
ghost use Rattle.cipher_stream.specs.Keystream.{as_usize};

pub use chunks::{BlockSizes, WholeChunks};
use cipher_stream::StreamCipherCounter;
pub use counted::{CountedNonce, CounterWord};
pub use ctr32::{Ctr32, Ctr32BE, Ctr32LE, CtrNonce32};
pub use ctr64::{Ctr64, Ctr64BE, Ctr64LE, CtrNonce64};
pub use ctr128::{Ctr128, Ctr128BE, Ctr128LE, CtrNonce128};
pub use ends::{FieldEnd, First, Last};
use std::marker::Model;

/// A flavour's name. A contract sees its bytes.
#[derive(Drop)]
pub struct FlavorName(pub &'static str);

impl Model for FlavorName {
    ghost use Rattle.std.specs.Prelude.{List, ℕ};

    ghost Value = { List ℕ };

    ghost view = { λ n. n.0.now };
}

impl FlavorName {
    /// The name's text.
    pub fn as_str(&self) -> &'static str
        ensures value { result.now ≡ self.now }
    {
        self.0
    }
}

/// A flavour of counter mode on blocks of B bytes.
pub trait CtrFlavor<const B: usize> {
    /// A nonce and a counter.
    type CtrNonce: Clone + Drop;

    /// The counter's type.
    type Backend: StreamCipherCounter;

    /// The flavour's name: the counter's bits and the order of its bytes, as `64BE`.
    const NAME: FlavorName;

    ghost NAME: { List ℕ };

    // how many counters there are
    ghost period: { ℕ };

    // block i from a nonce on
    ghost plus: { List ℕ → ℕ → List ℕ };

    ghost nonce: { Self.CtrNonce → List ℕ };

    ghost counter: { Self.CtrNonce → ℕ };

    // a nonce, with the counter at 0
    ghost started: { List ℕ → Self.CtrNonce };

    /// How many blocks remain: the greatest counter less this one, where that is a `usize`.
    fn remaining(cn: &Self::CtrNonce) -> Option<usize>
        ensures value { result ≡ as_usize (Some (period - 1 - counter cn.now)) };

    /// The current block, after which the counter is one more, and 0 after the greatest.
    fn next_block(cn: &mut Self::CtrNonce) -> [u8; B]
        ensures value { result ≡ plus (nonce cn.old) (counter cn.old) }
        ensures counter { counter cn.new ≡ (counter cn.old + 1) % period }
        ensures same { nonce cn.new ≡ nonce cn.old };

    /// The current block: the nonce with the counter added in its field.
    fn current_block(cn: &Self::CtrNonce) -> [u8; B]
        ensures value { result ≡ plus (nonce cn.now) (counter cn.now) };

    /// A nonce, with the counter at 0.
    fn from_nonce(block: &[u8; B]) -> Self::CtrNonce
        ensures value { result ≡ started block.now };

    /// Sets the counter.
    fn set_from_backend(cn: &mut Self::CtrNonce, v: Self::Backend)
        ensures counter { counter cn.new ≡ Self.Backend.value v }
        ensures same { nonce cn.new ≡ nonce cn.old };

    /// The counter.
    fn as_backend(cn: &Self::CtrNonce) -> Self::Backend
        ensures value { Self.Backend.value result ≡ counter cn.now };

    ghost within: { (cn : Self.CtrNonce) → counter cn < period };

    // the counters are the numbers of their type
    ghost most: { period ≡ Self.Backend.most + 1 };

    ghost starts_at: { (xs : List ℕ) → nonce (started xs) ≡ xs };

    ghost starts_at_0: { (xs : List ℕ) → counter (started xs) ≡ 0 };

    // the blocks repeat after the greatest counter
    ghost repeats: { (xs : List ℕ) (i : ℕ) → plus xs (i % period) ≡ plus xs i };

    // a block of a block is the block of the sum
    ghost adds: { (xs : List ℕ) (i j : ℕ) → plus (plus xs i) j ≡ plus xs (i + j) };

    ghost sized: { (xs : List ℕ) (i : ℕ) → length xs ≡ B → length (plus xs i) ≡ B };
}

/// A flavour of counter mode on blocks of type N, which is `[u8; B]` for a `CtrFlavor<B>`.
pub trait FlavorOn<N> {
    /// A nonce and a counter.
    type Nonce: Clone + Drop;
}

impl<F: CtrFlavor<B>, const B: usize> FlavorOn<[u8; B]> for F {
    type Nonce = F::CtrNonce;
}
