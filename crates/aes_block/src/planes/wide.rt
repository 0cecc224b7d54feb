// Planes of sixteen blocks: the first part is of the first eight blocks, the second of the others.
ghost use Rattle.std.proofs.Common.{lit≤};
ghost use Rattle.std.specs.Prelude.{◌≡◌, ◌++◌};
ghost use Rattle.aes_block.specs.Parts.{half};

use crate::planes::plane::Plane;
use std::simd::prelude::*;

// Two vectors of 16 bytes as one.
#[inline(always)]
pub(crate) fn joined(first: u8x16, second: u8x16) -> u8x32
    ensures { result ≡ first ++ second }
{
    first.shuffle(
        second,
        [
            0, 1, 2, 3, 4, 5, 6, 7, 8, 9, 10, 11, 12, 13, 14, 15, 16, 17, 18, 19, 20, 21, 22, 23,
            24, 25, 26, 27, 28, 29, 30, 31,
        ],
    )
}

impl Plane for u8x32 {
    ghost part = { half };

    #[inline(always)]
    fn repeated(bytes: &[u8; 16]) -> u8x32 {
        let v = u8x16::from_array(*bytes);
        joined(v, v)
    }

    #[inline(always)]
    fn splat(byte: u8) -> u8x32 {
        u8x32::splat(byte)
    }

    #[inline(always)]
    fn xor(self, other: u8x32) -> u8x32 {
        self ^ other
    }

    #[inline(always)]
    fn and(self, other: u8x32) -> u8x32 {
        self & other
    }

    #[inline(always)]
    fn down(self, count: u8) -> u8x32 {
        self >> u8x32::splat(count)
    }

    #[inline(always)]
    fn up(self, count: u8) -> u8x32 {
        self << u8x32::splat(count)
    }

    #[inline(always)]
    fn shift_rows(self) -> u8x32 {
        self.swizzle([
            0, 5, 10, 15, 4, 9, 14, 3, 8, 13, 2, 7, 12, 1, 6, 11, 16, 21, 26, 31, 20, 25, 30, 19,
            24, 29, 18, 23, 28, 17, 22, 27,
        ])
    }

    #[inline(always)]
    fn inv_shift_rows(self) -> u8x32 {
        self.swizzle([
            0, 13, 10, 7, 4, 1, 14, 11, 8, 5, 2, 15, 12, 9, 6, 3, 16, 29, 26, 23, 20, 17, 30, 27,
            24, 21, 18, 31, 28, 25, 22, 19,
        ])
    }

    #[inline(always)]
    fn first_on(self) -> u8x32 {
        self.swizzle([
            1, 2, 3, 0, 5, 6, 7, 4, 9, 10, 11, 8, 13, 14, 15, 12, 17, 18, 19, 16, 21, 22, 23, 20,
            25, 26, 27, 24, 29, 30, 31, 28,
        ])
    }

    #[inline(always)]
    fn second_on(self) -> u8x32 {
        self.swizzle([
            2, 3, 0, 1, 6, 7, 4, 5, 10, 11, 8, 9, 14, 15, 12, 13, 18, 19, 16, 17, 22, 23, 20, 21,
            26, 27, 24, 25, 30, 31, 28, 29,
        ])
    }

    #[inline(always)]
    fn of_bytes(self) -> u8x32 {
        self
    }

    ghost small = { lit≤ tt };
}
