//! Numbers of blocks.

ghost use Rattle.std.specs.Prelude.{◌≡◌, ◌↔◌, ℕ, ◌-◌, ◌≤◌, ◌^◌, IsTrue, IsSome, IfSome};

/// An unsigned number of blocks.
pub trait StreamCipherCounter: Copy + Drop {
    // the number
    ghost value: { Self → ℕ };

    // the least number
    ghost least: { ℕ };

    // the greatest number
    ghost most: { ℕ };

    /// Whether this is the greatest number.
    fn is_max(&self) -> bool
        ensures value { IsTrue result ↔ (value self.now ≡ most) };

    /// The number.
    fn to_u128(self) -> u128
        ensures value { result ≡ value self }
        ensures within { (least ≤ value self) × (value self ≤ most) };

    /// A number as one of this type, or `None` where it is above the greatest.
    fn from_u128(number: u128) -> Option<Self>
        ensures some { IsSome result ↔ (number ≤ most) }
        ensures value { IfSome result (λ n. value n ≡ number) };
}

// the same number, of which it is told that it lies between the least and the greatest
pub(crate) fn with_range<C: StreamCipherCounter>(counter: C) -> C
    ensures same { result ≡ counter }
    ensures within { C.value counter ≤ C.most }
{
    let _number = counter.to_u128();
    counter
}

impl StreamCipherCounter for u32 {
    ghost value = { λ n. n };

    ghost least = { 0 };

    ghost most = { 2 ^ 32 - 1 };

    fn is_max(&self) -> bool {
        *self == u32::MAX
    }

    fn to_u128(self) -> u128 {
        self as u128
    }

    fn from_u128(number: u128) -> Option<u32> {
        u32::try_from(number).ok()
    }
}

impl StreamCipherCounter for u64 {
    ghost value = { λ n. n };

    ghost least = { 0 };

    ghost most = { 2 ^ 64 - 1 };

    fn is_max(&self) -> bool {
        *self == u64::MAX
    }

    fn to_u128(self) -> u128 {
        self as u128
    }

    fn from_u128(number: u128) -> Option<u64> {
        u64::try_from(number).ok()
    }
}

impl StreamCipherCounter for u128 {
    ghost value = { λ n. n };

    ghost least = { 0 };

    ghost most = { 2 ^ 128 - 1 };

    fn is_max(&self) -> bool {
        *self == u128::MAX
    }

    fn to_u128(self) -> u128 {
        self
    }

    fn from_u128(number: u128) -> Option<u128> {
        Some(number)
    }
}
