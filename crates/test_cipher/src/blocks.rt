//! Calls on blocks, and vectors.

ghost use Rattle.std.specs.Prelude.{◌≡◌, ℕ, map};

use crate::rows;
use crate::rows::Row;
use crate::shifted::Shift;
use cipher::dev::block_cipher::{TestVector, decrypt_test, encrypt_decrypt_test, encrypt_test};
use cipher::{
    BlockCipherDecrypt, BlockCipherEncrypt, InOut, InOutBuf, InvalidLength, KeyInit, NotEqualError,
};

const PLAIN: [[u8; 5]; 10] = [[1, 2, 3, 4, 255]; 10];

const SHIFTED: [[u8; 5]; 10] = [[251, 252, 253, 254, 249]; 10];

// the first n of these blocks, n being at most 10, and behind them the others
fn with_front(front: &[[u8; 5]; 10], n: usize, behind: &[[u8; 5]; 10]) -> [[u8; 5]; 10] {
    let n = n.min(10);
    let mut blocks = *behind;
    blocks[..n].copy_from_slice(&front[..n]);
    blocks
}

// n blocks there and back, in their places, and by a buffer
fn shifts_in_place(c: &Shift, n: usize) -> bool {
    let n = n.min(10);
    let shifted = with_front(&SHIFTED, n, &PLAIN);
    let mut there = PLAIN;
    let mut other = PLAIN;
    let mut back = shifted;
    let mut again = shifted;
    let front = &mut there[..n];
    let places = InOutBuf::from(&mut other[..n]);
    let made = &mut back[..n];
    let made_places = InOutBuf::from(&mut again[..n]);
    c.encrypt_blocks(front);
    c.encrypt_blocks_inout(places);
    c.decrypt_blocks(made);
    c.decrypt_blocks_inout(made_places);
    there == shifted && other == shifted && back == PLAIN && again == PLAIN
}

const ZEROS: [[u8; 5]; 10] = [[0; 5]; 10];

// the same into other places
fn shifts_elsewhere(c: &Shift, n: usize) -> bool {
    let n = n.min(10);
    let mut there = ZEROS;
    let mut back = ZEROS;
    let encrypted = c.encrypt_blocks_b2b(&PLAIN[..n], &mut there[..n]);
    let decrypted = c.decrypt_blocks_b2b(&SHIFTED[..n], &mut back[..n]);
    [encrypted, decrypted] == [Ok(()); 2]
        && there == with_front(&SHIFTED, n, &ZEROS)
        && back == with_front(&PLAIN, n, &ZEROS)
}

// whether all calls shift up to ten
fn up_to_ten_are_shifted() -> bool {
    let c = Shift::new(&[250]);
    let mut same = true;
    for n in 0..11 {
        same = same && shifts_in_place(&c, n) && shifts_elsewhere(&c, n);
    }
    same
}

// whether n blocks for m places are refused, and nothing is written
fn is_misfit(n: usize, m: usize) -> bool {
    let mut there = ZEROS;
    let told = Shift::new(&[250]).encrypt_blocks_b2b(&PLAIN[..n.min(10)], &mut there[..m.min(10)]);
    told == Err(NotEqualError) && there == ZEROS
}

// whether other numbers of places are
fn misfits_change_nothing() -> bool {
    let mut same = true;
    for n in 0..11 {
        same = same && (n == 6 || is_misfit(n, 9 - n / 2));
    }
    same
}

// a block encrypted in its place, elsewhere and by places, and decrypted likewise
fn each_way() -> [[u8; 5]; 6] {
    let c = Shift::new(&[250]);
    let mut made = [PLAIN[0], [0; 5], PLAIN[0], SHIFTED[0], [0; 5], [0; 5]];
    c.encrypt_block(&mut made[0]);
    c.encrypt_block_b2b(&PLAIN[0], &mut made[1]);
    c.encrypt_block_inout(InOut::from(&mut made[2]));
    c.decrypt_block(&mut made[3]);
    c.decrypt_block_b2b(&SHIFTED[0], &mut made[4]);
    c.decrypt_block_inout(InOut::new(&SHIFTED[0], &mut made[5]));
    made
}

// what these blocks become: three shifted there, and three back
const WAYS: [[u8; 5]; 6] = [
    [251, 252, 253, 254, 249],
    [251, 252, 253, 254, 249],
    [251, 252, 253, 254, 249],
    [1, 2, 3, 4, 255],
    [1, 2, 3, 4, 255],
    [1, 2, 3, 4, 255],
];

type VectorResult = Result<(), &'static str>;

// how a vector is tried
#[derive(Clone, Copy)]
pub enum Way {
    There,
    Back,
    Both,
}

fn run_vector(way: Way, vector: &TestVector) -> VectorResult {
    match way {
        Way::There => encrypt_test::<Shift, 1, 5>(vector),
        Way::Back => decrypt_test::<Shift, 1, 5>(vector),
        Way::Both => encrypt_decrypt_test::<Shift, 1, 5>(vector),
    }
}

const FIVE: &[u8] = &[1, 2, 3, 4, 255];

const GOOD: &[u8] = &[251, 252, 253, 254, 249];

const BAD: &[u8] = &[251, 252, 253, 254, 250];

// blocks in their places, by a buffer that is passed by value
fn in_place<C: BlockCipherEncrypt<5>>(cipher: &C, blocks: &mut [[u8; 5]])
    ensures { blocks.new ≡ map (C.encrypts cipher.now) blocks.old }
{
    cipher.encrypt_blocks_inout(InOutBuf {
        output: blocks,
        input: &[],
    });
}

// whether a cipher behind a reference shifts the blocks
fn shifts_behind_a_reference() -> bool {
    let mut blocks = PLAIN;
    in_place(&&Shift::new(&[250]), &mut blocks);
    blocks == SHIFTED
}

/// What is asked.
pub enum Asked {
    UpToTen,
    Misfits,
    EachWay,
    // A vector tried that way, and what is told.
    Vector(Way, TestVector, VectorResult),
    Reference,
    Key,
    NoKey,
}

/// Whether it is so.
pub fn holds(asked: &Asked) -> bool {
    match asked {
        Asked::UpToTen => up_to_ten_are_shifted(),
        Asked::Misfits => misfits_change_nothing(),
        Asked::EachWay => each_way() == WAYS,
        Asked::Vector(way, vector, want) => run_vector(*way, vector) == *want,
        Asked::Reference => shifts_behind_a_reference(),
        Asked::Key => Shift::new_from_slice(&[250]).is_ok(),
        Asked::NoKey => Shift::new_from_slice(&[]).is_err(),
    }
}

/// Rows of blocks.
pub const ROWS: &[Row] = &[
    Row("up to ten blocks", rows::Asked::Block(Asked::UpToTen)),
    Row(
        "unequal numbers of blocks",
        rows::Asked::Block(Asked::Misfits),
    ),
    Row("one block each way", rows::Asked::Block(Asked::EachWay)),
    Row(
        "a right block",
        rows::Asked::Block(Asked::Vector(
            Way::Both,
            TestVector {
                key: &[250],
                plaintext: FIVE,
                ciphertext: GOOD,
            },
            Ok(()),
        )),
    ),
    Row(
        "a wrong block of an encryption",
        rows::Asked::Block(Asked::Vector(
            Way::There,
            TestVector {
                key: &[250],
                plaintext: FIVE,
                ciphertext: BAD,
            },
            Err("single block encryption failure"),
        )),
    ),
    Row(
        "a wrong block of a decryption",
        rows::Asked::Block(Asked::Vector(
            Way::Back,
            TestVector {
                key: &[250],
                plaintext: FIVE,
                ciphertext: BAD,
            },
            Err("single block decryption failure"),
        )),
    ),
    Row(
        "a ciphertext of another length",
        rows::Asked::Block(Asked::Vector(
            Way::Back,
            TestVector {
                key: &[250],
                plaintext: FIVE,
                ciphertext: &[1],
            },
            Err("unexpected size of ciphertext block"),
        )),
    ),
    Row(
        "a plaintext of another length",
        rows::Asked::Block(Asked::Vector(
            Way::There,
            TestVector {
                key: &[250],
                plaintext: &[1],
                ciphertext: &[1],
            },
            Err("unexpected size of plaintext block"),
        )),
    ),
    Row(
        "a key of another length",
        rows::Asked::Block(Asked::Vector(
            Way::Both,
            TestVector {
                key: &[],
                plaintext: &[1],
                ciphertext: &[1],
            },
            Err("cipher initialization failure"),
        )),
    ),
    Row("behind a reference", rows::Asked::Block(Asked::Reference)),
    Row("a key", rows::Asked::Block(Asked::Key)),
    Row("no key", rows::Asked::Block(Asked::NoKey)),
];
