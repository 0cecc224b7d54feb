//! What the flavours share: a nonce with a counter of any width, which is added at either end.

ghost use Rattle.std.proofs.Common.{lit≤, refl};
ghost use Rattle.std.specs.Prelude.{◌≡◌, ℕ, ◌+◌, ◌-◌, ◌*◌, ◌%◌, ◌^◌, ◌<◌, ◌≤◌, ◌++◌, List, Some, codes, length};
ghost use Rattle.std.specs.Int.{Width, w32, w64, w128, byte_len, from_be_bytes, to_be_bytes, from_le_bytes, to_le_bytes};
ghost use Rattle.ctr.specs.Flavors.{field_size, plus};
ghost use Rattle.cipher_stream.specs.Keystream.{as_usize};

use super::ends::FieldEnd;
use cipher_stream::StreamCipherCounter;
use std::fmt;

/// A counter of 4, 8 or 16 bytes.
pub trait CounterWord: StreamCipherCounter {
    /// Its bytes.
    const SIZE: usize;

    ghost SIZE: { ℕ };

    // the name of a nonce with such a counter
    ghost nonce_name: { List ℕ };

    ghost width: { Width };

    ghost zero: { Self };

    /// The name of a nonce with this counter.
    fn nonce_name() -> &'static str
        ensures value { result.now ≡ nonce_name };

    /// The counter 0.
    fn zero() -> Self
        ensures value { result ≡ zero };

    /// The next counter, which is 0 after the greatest.
    fn next(self) -> Self
        ensures value { Self.value result ≡ (Self.value self + 1) % field_size width };

    /// The greatest counter less this one, where that is a `usize`.
    fn remaining(self) -> Option<usize>
        ensures value { result ≡ as_usize (Some (field_size width - 1 - Self.value self)) };

    /// Adds the counter to a field, high byte first.
    fn add_be(self, field: &mut [u8])
        requires { length field.old ≡ byte_len width }
        ensures value { field.new
            ≡ to_be_bytes width ((from_be_bytes width field.old + Self.value self) % field_size width) };

    /// Adds the counter to a field, low byte first.
    fn add_le(self, field: &mut [u8])
        requires { length field.old ≡ byte_len width }
        ensures value { field.new
            ≡ to_le_bytes width ((from_le_bytes width field.old + Self.value self) % field_size width) };

    ghost zero_is_0: { Self.value zero ≡ 0 };

    ghost sized: { SIZE ≡ byte_len width };
}

impl CounterWord for u32 {
    const SIZE: usize = 4;

    ghost SIZE = { 4 };

    ghost nonce_name = { codes "CtrNonce32" };

    ghost width = { w32 };

    ghost zero = { 0 };

    fn nonce_name() -> &'static str {
        "CtrNonce32"
    }

    fn zero() -> u32 {
        0
    }

    fn next(self) -> u32 {
        self.wrapping_add(1)
    }

    fn remaining(self) -> Option<usize> {
        Some((u32::MAX - self) as usize)
    }

    fn add_be(self, field: &mut [u8]) {
        let mut bytes = [0; 4];
        bytes.copy_from_slice(field);
        let sum = u32::from_be_bytes(bytes).wrapping_add(self);
        field.copy_from_slice(&sum.to_be_bytes());
    }

    fn add_le(self, field: &mut [u8]) {
        let mut bytes = [0; 4];
        bytes.copy_from_slice(field);
        let sum = u32::from_le_bytes(bytes).wrapping_add(self);
        field.copy_from_slice(&sum.to_le_bytes());
    }

    ghost zero_is_0 = { refl };

    ghost sized = { refl };
}

impl CounterWord for u64 {
    const SIZE: usize = 8;

    ghost SIZE = { 8 };

    ghost nonce_name = { codes "CtrNonce64" };

    ghost width = { w64 };

    ghost zero = { 0 };

    fn nonce_name() -> &'static str {
        "CtrNonce64"
    }

    fn zero() -> u64 {
        0
    }

    fn next(self) -> u64 {
        self.wrapping_add(1)
    }

    fn remaining(self) -> Option<usize> {
        Some((u64::MAX - self) as usize)
    }

    fn add_be(self, field: &mut [u8]) {
        let mut bytes = [0; 8];
        bytes.copy_from_slice(field);
        let sum = u64::from_be_bytes(bytes).wrapping_add(self);
        field.copy_from_slice(&sum.to_be_bytes());
    }

    fn add_le(self, field: &mut [u8]) {
        let mut bytes = [0; 8];
        bytes.copy_from_slice(field);
        let sum = u64::from_le_bytes(bytes).wrapping_add(self);
        field.copy_from_slice(&sum.to_le_bytes());
    }

    ghost zero_is_0 = { refl };

    ghost sized = { refl };
}

impl CounterWord for u128 {
    const SIZE: usize = 16;

    ghost SIZE = { 16 };

    ghost nonce_name = { codes "CtrNonce128" };

    ghost width = { w128 };

    ghost zero = { 0 };

    fn nonce_name() -> &'static str {
        "CtrNonce128"
    }

    fn zero() -> u128 {
        0
    }

    fn next(self) -> u128 {
        self.wrapping_add(1)
    }

    fn remaining(self) -> Option<usize> {
        usize::try_from(u128::MAX - self).ok()
    }

    fn add_be(self, field: &mut [u8]) {
        let mut bytes = [0; 16];
        bytes.copy_from_slice(field);
        let sum = u128::from_be_bytes(bytes).wrapping_add(self);
        field.copy_from_slice(&sum.to_be_bytes());
    }

    fn add_le(self, field: &mut [u8]) {
        let mut bytes = [0; 16];
        bytes.copy_from_slice(field);
        let sum = u128::from_le_bytes(bytes).wrapping_add(self);
        field.copy_from_slice(&sum.to_le_bytes());
    }

    ghost zero_is_0 = { refl };

    ghost sized = { refl };
}

/// A nonce, `[u8; B]`, and a counter.
#[derive(Clone, Drop)]
pub struct CountedNonce<W, N> {
    pub(crate) ctr: W,
    pub(crate) nonce: N,
}

impl<W: CounterWord, const B: usize> CountedNonce<W, [u8; B]> {
    pub(crate) fn start(nonce: &[u8; B]) -> CountedNonce<W, [u8; B]>
        ensures value { result ≡ record { ctr = W.zero; nonce = nonce.now } }
    {
        CountedNonce {
            ctr: W::zero(),
            nonce: *nonce,
        }
    }

    // The nonce with the counter added at this end.
    #[tactic(auto, using(crate::specs::FlavorLaws::plus_repeats))]
    pub(crate) fn counter_block<E: FieldEnd>(&self) -> [u8; B]
        requires { byte_len W.width ≤ B }
        ensures value { result ≡ plus E.end W.width self.now.nonce (W.value self.now.ctr % field_size W.width) }
    {
        let mut block = self.nonce;
        E::add(&mut block, self.ctr);
        block
    }

    // Counts on, from the greatest counter to 0.
    pub(crate) fn count(&mut self)
        ensures value { W.value self.new.ctr ≡ (W.value self.old.ctr + 1) % field_size W.width }
        ensures same { self.new.nonce ≡ self.old.nonce }
    {
        self.ctr = self.ctr.next();
    }
}

impl<W: CounterWord, const B: usize> fmt::Debug for CountedNonce<W, [u8; B]> {
    ghost debug_output = { λ _. Some (W.nonce_name ++ codes " { ... }") };

    fn fmt<X: fmt::Write>(&self, f: &mut fmt::Formatter<X>) -> fmt::Result {
        f.write_str(W::nonce_name())?;
        f.write_str(" { ... }")
    }
}
