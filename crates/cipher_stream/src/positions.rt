//! Numbers of bytes.

ghost use Rattle.std.specs.Prelude.{◌≡◌, ◌↔◌, ℕ, ℤ, pos, negsuc, ◌-◌, ◌/◌, ◌%◌, ◌≤◌, ◌<◌, ◌^◌, Option, Some, IsOk, IfOk, IsSome, IfSome, option_map};
ghost use Rattle.std.proofs.Common.{lit<};
ghost use Rattle.cipher_stream.specs.ByteStream.{AtMost, byte_place, below, natural};

use crate::counters::StreamCipherCounter;
use crate::errors::OverflowError;

/// A number of bytes, as a position in a keystream.
pub trait SeekNum: Sized + Drop {
    // the number, if it is not negative
    ghost place: { Self → Option ℕ };

    // the least number
    ghost least: { ℤ };

    // the greatest number
    ghost most: { ℕ };

    /// The number, or `None` where it is negative.
    fn to_u128(self) -> Option<u128>
        ensures value { result ≡ place self };

    /// A number as one of this type, or `None` where it is above the greatest.
    fn from_u128(number: u128) -> Option<Self>
        ensures some { IsSome result ↔ (number ≤ most) }
        ensures value { IfSome result (λ n. place n ≡ Some number) };

    ghost fits: { most < 2 ^ 128 };

    /// The place of a byte that is `bs - byte` before the block's first: `block * bs - (bs - byte)`.
    ///
    /// # Errors
    /// `OverflowError` exactly if `byte` is above `bs`, or the place is negative or no value of the type.
    final fn from_block_byte<T: StreamCipherCounter>(
        block: T,
        byte: u8,
        bs: u8,
    ) -> Result<Self, OverflowError>
        ensures ok { IsOk result ↔ AtMost (byte_place (T.value block) byte bs) most }
        ensures value { IfOk result (λ n. place n ≡ byte_place (T.value block) byte bs) }
    {
        let place = place_of(block.to_u128(), byte, bs).ok_or(OverflowError)?;
        Self::from_u128(place).ok_or(OverflowError)
    }

    /// The number of the block and the byte in it. Blocks have `bs` bytes, and `bs` is not 0.
    ///
    /// # Errors
    /// `OverflowError` exactly if the number is negative or that of the block is no counter value.
    final fn into_block_byte<T: StreamCipherCounter>(self, bs: u8) -> Result<(T, u8), OverflowError>
        requires { 1 ≤ bs }
        ensures ok { IsOk result ↔ AtMost (option_map (λ n. n / bs) (place self)) T.most }
        ensures value { IfOk result (λ r.
            (option_map (λ n. n / bs) (place self) ≡ Some (T.value r.0))
            × (option_map (λ n. n % bs) (place self) ≡ Some r.1)) }
    {
        match self.to_u128() {
            Some(number) => block_byte(number, bs),
            None => Err(OverflowError),
        }
    }
}

fn block_byte<T: StreamCipherCounter>(number: u128, bs: u8) -> Result<(T, u8), OverflowError>
    requires { 1 ≤ bs }
    ensures ok { IsOk result ↔ (number / bs ≤ T.most) }
    ensures value { IfOk result (λ r. (T.value r.0 ≡ number / bs) × (r.1 ≡ number % bs)) }
{
    let block = T::from_u128(number / bs as u128).ok_or(OverflowError)?;
    Ok((block, (number % bs as u128) as u8))
}

// in u128; the block's first byte is not taken from 0
fn place_of(block: u128, byte: u8, bs: u8) -> Option<u128>
    ensures value { result ≡ below (2 ^ 128) (byte_place block byte bs) }
{
    if byte > bs {
        return None;
    }
    if block == 0 {
        return if byte == bs { Some(0) } else { None };
    }
    let Some(before) = (block - 1).checked_mul(bs as u128) else {
        return None;
    };
    before.checked_add(byte as u128)
}

impl SeekNum for i32 {
    ghost place = { natural };

    ghost least = { negsuc (2 ^ 31 - 1) };

    ghost most = { 2 ^ 31 - 1 };

    fn to_u128(self) -> Option<u128> {
        u128::try_from(self).ok()
    }

    fn from_u128(number: u128) -> Option<i32> {
        i32::try_from(number).ok()
    }

    ghost fits = { lit< tt };
}

impl SeekNum for u32 {
    ghost place = { λ n. Some n };

    ghost least = { pos 0 };

    ghost most = { 2 ^ 32 - 1 };

    fn to_u128(self) -> Option<u128> {
        Some(self as u128)
    }

    fn from_u128(number: u128) -> Option<u32> {
        u32::try_from(number).ok()
    }

    ghost fits = { lit< tt };
}

impl SeekNum for u64 {
    ghost place = { λ n. Some n };

    ghost least = { pos 0 };

    ghost most = { 2 ^ 64 - 1 };

    fn to_u128(self) -> Option<u128> {
        Some(self as u128)
    }

    fn from_u128(number: u128) -> Option<u64> {
        u64::try_from(number).ok()
    }

    ghost fits = { lit< tt };
}

impl SeekNum for u128 {
    ghost place = { λ n. Some n };

    ghost least = { pos 0 };

    ghost most = { 2 ^ 128 - 1 };

    fn to_u128(self) -> Option<u128> {
        Some(self)
    }

    fn from_u128(number: u128) -> Option<u128> {
        Some(number)
    }

    ghost fits = { lit< tt };
}

impl SeekNum for usize {
    ghost place = { λ n. Some n };

    ghost least = { pos 0 };

    ghost most = { 2 ^ 64 - 1 };

    fn to_u128(self) -> Option<u128> {
        Some(self as u128)
    }

    fn from_u128(number: u128) -> Option<usize> {
        usize::try_from(number).ok()
    }

    ghost fits = { lit< tt };
}
