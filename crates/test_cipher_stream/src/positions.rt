//! Positions as numbers.

use crate::rows;
use crate::rows::Row;
use cipher_stream::{OverflowError, SeekNum, StreamCipherCounter, StreamCipherError};

// whether numbers are made of a block and a byte exactly, and refused where they do not fit
fn are_exact() -> bool {
    u128::from_block_byte(1u128 << 124, 1, 16) == Ok(u128::MAX - 14)
        && u128::from_block_byte(u128::MAX, 255, 255) == Err(OverflowError)
        && i32::from_block_byte(3u64, 4, 7) == Ok(18)
        && i32::from_block_byte(0u32, 1, 2) == Err(OverflowError)
        && u32::from_block_byte(1u32, 8, 7) == Err(OverflowError)
}

// whether they are taken apart into both
fn are_taken_apart() -> bool {
    (-1).into_block_byte::<u64>(16) == Err(OverflowError)
        && (1u64 << 36).into_block_byte::<u32>(16) == Err(OverflowError)
        && 37usize.into_block_byte::<u32>(16) == Ok((2, 5))
}

fn is_greatest() -> bool {
    u32::MAX.is_max() && !7u64.is_max() && u128::MAX.is_max()
}

/// What is asked.
#[derive(Clone, Copy)]
pub enum Asked {
    Made,
    TakenApart,
    Greatest,
    Overflow,
}

/// Whether it is so.
pub fn holds(asked: Asked) -> bool {
    match asked {
        Asked::Made => are_exact(),
        Asked::TakenApart => are_taken_apart(),
        Asked::Greatest => is_greatest(),
        Asked::Overflow => StreamCipherError::from(OverflowError) == StreamCipherError,
    }
}

/// Rows of positions.
pub const ROWS: &[Row] = &[
    ("made", rows::Asked::Position(Asked::Made)),
    ("taken apart", rows::Asked::Position(Asked::TakenApart)),
    (
        "the greatest counters",
        rows::Asked::Position(Asked::Greatest),
    ),
    ("an overflow", rows::Asked::Position(Asked::Overflow)),
];
