//! Calls of modes on blocks, and vectors.

ghost use Rattle.std.specs.Prelude.{◌≡◌, ℕ, List};
ghost use Rattle.cipher_modes.specs.Steps.{run_of, state_after};

use crate::chained::{Adding, Chained, decrypter, encrypter};
use crate::rows;
use crate::rows::Row;
use cipher::{InOut, InOutBuf, InnerIvInit, InvalidLength, IvState, NotEqualError, SetIvState};
use cipher_modes::dev::block_mode::{TestVector, decrypt, encrypt};
use cipher_modes::{BlockModeDecrypt, BlockModeEncrypt};

const BLOCKS: [[u8; 4]; 10] = [[1, 2, 3, 4]; 10];

// the blocks of a mode, and the state after them
fn encrypt_both<M: BlockModeEncrypt<4>>(mode: &mut M, blocks: &mut [[u8; 4]])
    ensures blocks { blocks.new ≡ run_of M.step mode.old blocks.old }
    ensures state { mode.new ≡ state_after M.step mode.old blocks.old }
{
    mode.encrypt_blocks(blocks);
}

// whether n blocks encrypted together are those encrypted one by one, and the states after them are one
fn goes_together(n: usize) -> bool {
    let n = n.min(10);
    let mut blocks = BLOCKS;
    let mut other = BLOCKS;
    let together = &mut blocks[..n];
    let singly = &mut other[..n];
    let mut mode = encrypter();
    let mut single = encrypter();
    encrypt_both(&mut mode, together);
    encrypt_singly(&mut single, singly);
    blocks == other && mode.iv == single.iv
}

fn encrypt_singly(mode: &mut Chained, blocks: &mut [[u8; 4]]) {
    for i in 0..blocks.len() {
        mode.encrypt_block(&mut blocks[i]);
    }
}

// n blocks there by a buffer and back in their places, and the way back by a buffer
fn goes_in_place(n: usize, want: &[[u8; 4]; 10]) -> bool {
    let n = n.min(10);
    let mut there = BLOCKS;
    let mut back = *want;
    let mut other = *want;
    let places = InOutBuf::from(&mut there[..n]);
    let made = &mut back[..n];
    let made_places = InOutBuf::from(&mut other[..n]);
    encrypter().encrypt_blocks_inout(places);
    decrypter().decrypt_blocks(made);
    decrypter().decrypt_blocks_inout(made_places);
    there == *want && back == BLOCKS && other == BLOCKS
}

const ZEROS: [[u8; 4]; 10] = [[0; 4]; 10];

// the first n of these blocks, n being at most 10, and behind them zeros
fn in_front(blocks: &[[u8; 4]; 10], n: usize) -> [[u8; 4]; 10] {
    let n = n.min(10);
    let mut all = ZEROS;
    all[..n].copy_from_slice(&blocks[..n]);
    all
}

// n blocks there and back in other places
fn goes_elsewhere(n: usize, want: &[[u8; 4]; 10]) -> bool {
    let n = n.min(10);
    let made = &want[..];
    let made = &made[..n];
    let mut there = BLOCKS;
    let mut back = ZEROS;
    let encrypted = encrypter().encrypt_blocks_b2b(&BLOCKS[..n], &mut there[..n]);
    let decrypted = decrypter().decrypt_blocks_b2b(made, &mut back[..n]);
    [encrypted, decrypted] == [Ok(()); 2] && there == *want && back == in_front(&BLOCKS, n)
}

// whether all calls agree on n blocks
fn goes(n: usize) -> bool {
    let mut want = BLOCKS;
    encrypter().encrypt_blocks(&mut want[..n.min(10)]);
    goes_together(n) && goes_in_place(n, &want) && goes_elsewhere(n, &want)
}

// whether they do up to ten
fn up_to_ten_go() -> bool {
    let mut same = true;
    for n in 0..11 {
        same = same && goes(n);
    }
    same
}

const NINES: [[u8; 4]; 2] = [[9; 4]; 2];

fn refuses_too_many() -> bool {
    let mut out = NINES;
    let mut mode = encrypter();
    let told = mode.encrypt_blocks_b2b(&BLOCKS[..3], &mut out);
    told == Err(NotEqualError) && out == NINES && mode.iv == [0; 4]
}

fn refuses_too_few() -> bool {
    let mut out = NINES;
    let mut mode = decrypter();
    let told = mode.decrypt_blocks_b2b(&BLOCKS[..1], &mut out);
    told == Err(NotEqualError) && out == NINES && mode.iv == [0; 4]
}

const TEXT: [u8; 4] = [1, 2, 3, 4];

const MADE: [u8; 4] = [2, 3, 4, 5];

/// How a block goes.
pub enum How {
    ThereElsewhere,
    ThereByPlaces,
    BackElsewhere,
    BackByPlaces,
    Back,
}

// what a block becomes
fn block_after(how: &How, from: &[u8; 4]) -> [u8; 4] {
    let mut block = *from;
    match how {
        How::ThereElsewhere => encrypter().encrypt_block_b2b(&TEXT, &mut block),
        How::ThereByPlaces => encrypter().encrypt_block_inout(InOut::new(&TEXT, &mut block)),
        How::BackElsewhere => decrypter().decrypt_block_b2b(&MADE, &mut block),
        How::BackByPlaces => decrypter().decrypt_block_inout(InOut::from(&mut block)),
        How::Back => decrypter().decrypt_block(&mut block),
    }
    block
}

// whether the blocks of a mode after three are those of another under its state
fn goes_on() -> bool {
    let mut first = encrypter();
    first.encrypt_blocks(&mut [[1, 2, 3, 4]; 3]);
    let mut second = Chained::inner_iv_init(Adding { key: 1 }, &[0; 4]);
    second.set_iv(&first.iv_state());
    let mut one = BLOCKS;
    let mut other = BLOCKS;
    first.encrypt_blocks(&mut one);
    second.encrypt_blocks(&mut other);
    one == other
}

// the state of a mode whose initialization vector is these bytes
fn state_from(iv: &[u8]) -> Result<[u8; 4], InvalidLength> {
    let mode = Chained::inner_iv_slice_init(Adding { key: 1 }, iv)?;
    Ok(mode.iv_state())
}

type VectorResult = Result<(), &'static str>;

const LONG_TEXT: &[u8] = &[1, 2, 3, 4, 4, 4, 4, 4];

const LONG_MADE: &[u8] = &[2, 3, 4, 5, 7, 8, 1, 2];

/// What is asked.
pub enum Asked {
    InOrder,
    TooMany,
    TooFew,
    // A block that becomes another.
    Block(How, [u8; 4], [u8; 4]),
    GoesOn,
    FourBytes,
    ThreeBytes,
    // A vector, and what is told.
    Encryption(TestVector, VectorResult),
    Decryption(TestVector, VectorResult),
}

/// Whether it is so.
pub fn holds(asked: &Asked) -> bool {
    match asked {
        Asked::InOrder => up_to_ten_go(),
        Asked::TooMany => refuses_too_many(),
        Asked::TooFew => refuses_too_few(),
        Asked::Block(how, from, to) => block_after(how, from) == *to,
        Asked::GoesOn => goes_on(),
        Asked::FourBytes => state_from(&[5; 4]) == Ok([5; 4]),
        Asked::ThreeBytes => state_from(&[0; 3]) == Err(InvalidLength),
        Asked::Encryption(vector, want) => encrypt::<Chained, 1, 4, 4>(vector) == *want,
        Asked::Decryption(vector, want) => decrypt::<Chained, 1, 4, 4>(vector) == *want,
    }
}

/// Rows of modes.
pub const ROWS: &[Row] = &[
    Row(
        "up to ten blocks of a mode",
        rows::Asked::Mode(Asked::InOrder),
    ),
    Row("too many blocks", rows::Asked::Mode(Asked::TooMany)),
    Row("too few", rows::Asked::Mode(Asked::TooFew)),
    Row(
        "a block encrypted elsewhere",
        rows::Asked::Mode(Asked::Block(How::ThereElsewhere, [0; 4], MADE)),
    ),
    Row(
        "a block encrypted by places",
        rows::Asked::Mode(Asked::Block(How::ThereByPlaces, [0; 4], MADE)),
    ),
    Row(
        "a block decrypted elsewhere",
        rows::Asked::Mode(Asked::Block(How::BackElsewhere, [0; 4], TEXT)),
    ),
    Row(
        "a block decrypted by places",
        rows::Asked::Mode(Asked::Block(How::BackByPlaces, MADE, TEXT)),
    ),
    Row(
        "a block decrypted in place",
        rows::Asked::Mode(Asked::Block(How::Back, MADE, TEXT)),
    ),
    Row(
        "another mode under the state",
        rows::Asked::Mode(Asked::GoesOn),
    ),
    Row(
        "a vector of four bytes",
        rows::Asked::Mode(Asked::FourBytes),
    ),
    Row("a vector of three", rows::Asked::Mode(Asked::ThreeBytes)),
    Row(
        "a right vector encrypted",
        rows::Asked::Mode(Asked::Encryption(
            TestVector {
                key: &[1],
                iv: &[0; 4],
                plaintext: LONG_TEXT,
                ciphertext: LONG_MADE,
            },
            Ok(()),
        )),
    ),
    Row(
        "a vector with a short initialization vector",
        rows::Asked::Mode(Asked::Encryption(
            TestVector {
                key: &[1],
                iv: &[0],
                plaintext: LONG_TEXT,
                ciphertext: LONG_MADE,
            },
            Err("cipher initialization failure"),
        )),
    ),
    Row(
        "a vector with a part of a block",
        rows::Asked::Mode(Asked::Encryption(
            TestVector {
                key: &[1],
                iv: &[0],
                plaintext: &[1, 2],
                ciphertext: &[1, 2],
            },
            Err("plaintext/ciphertext length is not multiple of block size"),
        )),
    ),
    Row(
        "a vector of two lengths",
        rows::Asked::Mode(Asked::Encryption(
            TestVector {
                key: &[1],
                iv: &[0],
                plaintext: &[1],
                ciphertext: &[1, 2],
            },
            Err("plaintext/ciphertext length mismatch"),
        )),
    ),
    Row(
        "a vector with too long a ciphertext",
        rows::Asked::Mode(Asked::Encryption(
            TestVector {
                key: &[1],
                iv: &[0],
                plaintext: &[1],
                ciphertext: &[0; 4097],
            },
            Err("ciphertext is bigger than MAX_MSG_LEN bytes"),
        )),
    ),
    Row(
        "a right vector decrypted",
        rows::Asked::Mode(Asked::Decryption(
            TestVector {
                key: &[255],
                iv: &[0; 4],
                plaintext: LONG_TEXT,
                ciphertext: LONG_MADE,
            },
            Ok(()),
        )),
    ),
    Row(
        "a vector of another block",
        rows::Asked::Mode(Asked::Decryption(
            TestVector {
                key: &[255],
                iv: &[0; 4],
                plaintext: LONG_TEXT,
                ciphertext: &[2, 3, 4, 5, 7, 8, 1, 3],
            },
            Err("single block decryption failure"),
        )),
    ),
    Row(
        "a vector with too long a plaintext",
        rows::Asked::Mode(Asked::Decryption(
            TestVector {
                key: &[255],
                iv: &[0; 4],
                plaintext: &[0; 4100],
                ciphertext: LONG_MADE,
            },
            Err("plaintext is bigger than MAX_MSG_LEN bytes"),
        )),
    ),
];
