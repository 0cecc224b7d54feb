// A plane of any width: in parts of 16 bytes, one of eight blocks and two of sixteen.
ghost use Rattle.std.proofs.Common.{lit≤};
ghost use Rattle.std.specs.Prelude.{◌≡◌, ◌<◌, ◌*◌, ◌/◌, ◌%◌, ◌^◌, ℕ, List, bit_and, bit_xor, replicate};
ghost use lib.Lanes.{zip2};
ghost use Rattle.aes_block.specs.BitPlanes.{AT_FIRST, AT_INV_SHIFT, AT_SECOND, AT_SHIFT, picked_at};
ghost use Rattle.aes_block.specs.Parts.{IsSmall};
ghost use Rattle.aes_block.specs.Transposition.{IsVector};

use std::simd::prelude::*;

// A vector whose operations are, in each part, those of a vector of 16 bytes.
pub(crate) trait Plane: Copy {
    // part h
    ghost part: { ℕ → Self → List ℕ };

    // The vector with these bytes in each part.
    fn repeated(bytes: &[u8; 16]) -> Self
        ensures { (h : ℕ) → part h result ≡ bytes.now };

    // The vector with this byte in each place.
    fn splat(byte: u8) -> Self
        ensures { (h : ℕ) → part h result ≡ replicate 16 byte };

    fn xor(self, other: Self) -> Self
        ensures { (h : ℕ) → part h result ≡ zip2 bit_xor (part h self) (part h other) };

    fn and(self, other: Self) -> Self
        ensures { (h : ℕ) → part h result ≡ zip2 bit_and (part h self) (part h other) };

    // Each byte shifted towards its lowest bit.
    fn down(self, count: u8) -> Self
        requires { count < 8 }
        ensures { (h : ℕ) → part h result ≡ zip2 (λ x y. x / 2 ^ y) (part h self) (replicate 16 count) };

    // Each byte shifted towards its highest bit.
    fn up(self, count: u8) -> Self
        requires { count < 8 }
        ensures { (h : ℕ) → part h result ≡ zip2 (λ x y. x * 2 ^ y % 256) (part h self) (replicate 16 count) };

    // ShiftRows.
    fn shift_rows(self) -> Self
        ensures { (h : ℕ) → part h result ≡ picked_at (part h self) AT_SHIFT };

    // InvShiftRows.
    fn inv_shift_rows(self) -> Self
        ensures { (h : ℕ) → part h result ≡ picked_at (part h self) AT_INV_SHIFT };

    // Each byte takes the next of its column.
    fn first_on(self) -> Self
        ensures { (h : ℕ) → part h result ≡ picked_at (part h self) AT_FIRST };

    // Each byte takes the one two further in its column.
    fn second_on(self) -> Self
        ensures { (h : ℕ) → part h result ≡ picked_at (part h self) AT_SECOND };

    // The vector itself, whose parts are of 16 bytes.
    fn of_bytes(self) -> Self
        ensures same { result ≡ self }
        ensures bytes { (h : ℕ) → IsVector (part h self) };

    ghost small: { IsSmall Self.row };
}

impl Plane for u8x16 {
    ghost part = { λ h v. v };

    #[inline(always)]
    fn repeated(bytes: &[u8; 16]) -> u8x16 {
        u8x16::from_array(*bytes)
    }

    #[inline(always)]
    fn splat(byte: u8) -> u8x16 {
        u8x16::splat(byte)
    }

    #[inline(always)]
    fn xor(self, other: u8x16) -> u8x16 {
        self ^ other
    }

    #[inline(always)]
    fn and(self, other: u8x16) -> u8x16 {
        self & other
    }

    #[inline(always)]
    fn down(self, count: u8) -> u8x16 {
        self >> u8x16::splat(count)
    }

    #[inline(always)]
    fn up(self, count: u8) -> u8x16 {
        self << u8x16::splat(count)
    }

    #[inline(always)]
    fn shift_rows(self) -> u8x16 {
        self.swizzle([0, 5, 10, 15, 4, 9, 14, 3, 8, 13, 2, 7, 12, 1, 6, 11])
    }

    #[inline(always)]
    fn inv_shift_rows(self) -> u8x16 {
        self.swizzle([0, 13, 10, 7, 4, 1, 14, 11, 8, 5, 2, 15, 12, 9, 6, 3])
    }

    #[inline(always)]
    fn first_on(self) -> u8x16 {
        self.swizzle([1, 2, 3, 0, 5, 6, 7, 4, 9, 10, 11, 8, 13, 14, 15, 12])
    }

    #[inline(always)]
    fn second_on(self) -> u8x16 {
        self.swizzle([2, 3, 0, 1, 6, 7, 4, 5, 10, 11, 8, 9, 14, 15, 12, 13])
    }

    #[inline(always)]
    fn of_bytes(self) -> u8x16 {
        self
    }

    ghost small = { lit≤ tt };
}
