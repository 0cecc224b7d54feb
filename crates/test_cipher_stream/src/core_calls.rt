//! Calls of cores.

use crate::cores::{Constant, Mixed};
use crate::rows;
use crate::rows::Row;
use crate::streams::{FIRST, IV, KEY};
use cipher::{InOut, InOutBuf, KeyIvInit};
use cipher_stream::{StreamCipherCore, StreamCipherError, StreamCipherSeekCore};

// whether eleven blocks are written, and the keystream applied to them in two parts gives zeros
fn eleven_blocks_agree() -> bool {
    let mut core = Mixed::new(&KEY, &IV);
    let mut blocks = [[0; 16]; 11];
    core.write_keystream_blocks(&mut blocks);
    let position = core.get_block_pos();
    core.set_block_pos(0);
    core.apply_keystream_blocks_inout(InOutBuf::from(&mut blocks[..4]));
    core.apply_keystream_blocks(&mut blocks[4..]);
    position == 11 && blocks == [[0; 16]; 11]
}

// whether the first block is written, and the keystream applied to it gives zeros
fn one_block_agrees() -> bool {
    let mut block = [0; 16];
    Mixed::new(&KEY, &IV).write_keystream_block(&mut block);
    let first = block[..] == FIRST[..16];
    Mixed::new(&KEY, &IV).apply_keystream_block_inout(InOut::from(&mut block));
    first && block == [0; 16]
}

fn wide_blocks_are_applied() -> bool {
    let mut blocks = [[1; 5]; 25];
    Constant::new(&[3], &[255]).apply_keystream_blocks(&mut blocks);
    blocks == [[2; 5]; 25]
}

fn wide_blocks_are_written() -> bool {
    let mut blocks = [[0; 5]; 25];
    Constant::new(&[3], &[255]).write_keystream_blocks(&mut blocks);
    blocks == [[3; 5]; 25]
}

// whether so many bytes, at most 12, are answered so and become these where one block of five remains
fn in_part(n: usize, want: Result<(), StreamCipherError>, held: &[u8; 12]) -> bool {
    let mut bytes = [0; 12];
    let core = Constant::new(&[3], &[1]);
    let told = core.try_apply_keystream_partial(InOutBuf::from(&mut bytes[..n.min(12)]));
    told == want && bytes == *held
}

fn first_in_part() -> bool {
    let mut bytes = [0; 3];
    Mixed::new(&KEY, &IV).apply_keystream_partial(InOutBuf::from(bytes.as_mut_slice()));
    bytes == [0xe8, 0x23, 0x93]
}

/// What is asked.
#[derive(Clone, Copy)]
pub enum Asked {
    ElevenBlocks,
    OneBlock,
    WideApplied,
    WideWritten,
    Remaining,
    TooMany,
    BlockAndPart,
    LessThanABlock,
}

/// Whether it is so.
pub fn holds(asked: Asked) -> bool {
    match asked {
        Asked::ElevenBlocks => eleven_blocks_agree(),
        Asked::OneBlock => one_block_agrees(),
        Asked::WideApplied => wide_blocks_are_applied(),
        Asked::WideWritten => wide_blocks_are_written(),
        Asked::Remaining => Constant::new(&[3], &[255]).remaining_blocks() == None,
        Asked::TooMany => in_part(12, Err(StreamCipherError), &[0; 12]),
        Asked::BlockAndPart => in_part(9, Ok(()), &[3, 3, 3, 3, 3, 3, 3, 3, 3, 0, 0, 0]),
        Asked::LessThanABlock => first_in_part(),
    }
}

/// Rows of cores.
pub const ROWS: &[Row] = &[
    ("eleven blocks", rows::Asked::Core(Asked::ElevenBlocks)),
    ("one block", rows::Asked::Core(Asked::OneBlock)),
    (
        "a wide backend applied",
        rows::Asked::Core(Asked::WideApplied),
    ),
    (
        "a wide backend written",
        rows::Asked::Core(Asked::WideWritten),
    ),
    (
        "what remains of no number",
        rows::Asked::Core(Asked::Remaining),
    ),
    ("more than remains", rows::Asked::Core(Asked::TooMany)),
    ("a block and a part", rows::Asked::Core(Asked::BlockAndPart)),
    (
        "less than a block",
        rows::Asked::Core(Asked::LessThanABlock),
    ),
];
