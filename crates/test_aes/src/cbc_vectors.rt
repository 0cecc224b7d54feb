//! Vectors of SP 800-38A for cipher block chaining.

use crate::rows;
use crate::rows::Row;
use aes_block::{Aes128, Aes256};
use cipher::{BlockCipherDecrypt, BlockCipherEncrypt, InnerIvInit, IvState, KeyInit, SetIvState};
use cipher_modes::BlockModeEncrypt;
use cipher_modes::dev::block_mode::{TestVector, decrypt, encrypt};
use example_cbc::{Decryptor, Encryptor};

const IV: [u8; 16] = *b"\x00\x01\x02\x03\x04\x05\x06\x07\x08\x09\x0a\x0b\x0c\x0d\x0e\x0f";

const PLAINTEXT: [u8; 64] = *b"\x6b\xc1\xbe\xe2\x2e\x40\x9f\x96\xe9\x3d\x7e\x11\x73\x93\x17\x2a\
\xae\x2d\x8a\x57\x1e\x03\xac\x9c\x9e\xb7\x6f\xac\x45\xaf\x8e\x51\
\x30\xc8\x1c\x46\xa3\x5c\xe4\x11\xe5\xfb\xc1\x19\x1a\x0a\x52\xef\
\xf6\x9f\x24\x45\xdf\x4f\x9b\x17\xad\x2b\x41\x7b\xe6\x6c\x37\x10";

const KEY: &[u8] = b"\x2b\x7e\x15\x16\x28\xae\xd2\xa6\xab\xf7\x15\x88\x09\xcf\x4f\x3c";

const SMALL_TEXT: &[u8] = b"\x76\x49\xab\xac\x81\x19\xb2\x46\xce\xe9\x8e\x9b\x12\xe9\x19\x7d\
\x50\x86\xcb\x9b\x50\x72\x19\xee\x95\xdb\x11\x3a\x91\x76\x78\xb2\
\x73\xbe\xd6\xb8\xe3\xc1\x74\x3b\x71\x16\xe6\x9e\x22\x22\x95\x16\
\x3f\xf1\xca\xa1\x68\x1f\xac\x09\x12\x0e\xca\x30\x75\x86\xe1\xa7";

// SP 800-38A, F.2.1 and F.2.2
const SMALL: TestVector = TestVector {
    key: KEY,
    iv: &IV,
    plaintext: &PLAINTEXT,
    ciphertext: SMALL_TEXT,
};

// The same under another initialization vector.
const CHANGED: TestVector = TestVector {
    key: KEY,
    iv: b"\x01\x01\x02\x03\x04\x05\x06\x07\x08\x09\x0a\x0b\x0c\x0d\x0e\x0f",
    plaintext: &PLAINTEXT,
    ciphertext: SMALL_TEXT,
};

// SP 800-38A, F.2.5 and F.2.6
const LARGE: TestVector = TestVector {
    key: b"\x60\x3d\xeb\x10\x15\xca\x71\xbe\x2b\x73\xae\xf0\x85\x7d\x77\x81\
\x1f\x35\x2c\x07\x3b\x61\x08\xd7\x2d\x98\x10\xa3\x09\x14\xdf\xf4",
    iv: &IV,
    plaintext: &PLAINTEXT,
    ciphertext: b"\xf5\x8c\x4c\x04\xd6\xe5\xf1\xba\x77\x9e\xab\xfb\x5f\x7b\xfb\xd6\
\x9c\xfc\x4e\x96\x7e\xdb\x80\x8d\x67\x9f\x77\x7b\xc6\x70\x2c\x7d\
\x39\xf2\x33\x69\xa9\xd9\xba\xcf\xa5\x30\xe2\x63\x04\x23\x14\x61\
\xb2\xeb\x05\xe2\xc3\x9b\xe9\xfc\xda\x6c\x19\x07\x8c\x6a\x9d\x1b",
};

type VectorResult = Result<(), &'static str>;

// whether the tests both ways answer this
fn is_told<C: KeyInit<K> + BlockCipherEncrypt<16> + BlockCipherDecrypt<16> + Drop, const K: usize>(
    vector: &TestVector,
    want: &[VectorResult; 2],
) -> bool {
    encrypt::<Encryptor<C, [u8; 16]>, K, 16, 16>(vector) == want[0]
        && decrypt::<Decryptor<C, [u8; 16]>, K, 16, 16>(vector) == want[1]
}

// Blocks enciphered in their places.
fn encrypt_chain<C: BlockCipherEncrypt<16> + Drop>(
    cipher: C,
    iv: &[u8; 16],
    blocks: &mut [[u8; 16]],
) {
    let mut mode = Encryptor::inner_iv_init(cipher, iv);
    mode.encrypt_blocks(blocks);
}

// whether three blocks of a mode after three others are those of others under its state
fn goes_on() -> bool {
    let mut first = Encryptor::inner_iv_init(Aes128::new(&[7; 16]), &IV);
    let mut second = Encryptor::inner_iv_init(Aes128::new(&[7; 16]), &[0; 16]);
    first.encrypt_blocks(&mut [[1; 16]; 3]);
    let iv = first.iv_state();
    second.set_iv(&iv);
    let mut one = [[2; 16]; 3];
    let mut other = one;
    first.encrypt_blocks(&mut one);
    second.encrypt_blocks(&mut other);
    let mut third = [[2; 16]; 3];
    encrypt_chain(Aes128::new(&[7; 16]), &iv, &mut third);
    one == other && one == third
}

// whether a vector of 15 bytes is refused
fn refuses() -> bool {
    Decryptor::inner_iv_slice_init(Aes128::new(&[7; 16]), &[0; 15]).is_err()
}

const RIGHT: &[VectorResult; 2] = &[Ok(()); 2];

const WRONG: &[VectorResult; 2] = &[
    Err("single block encryption failure"),
    Err("single block decryption failure"),
];

/// A request of a row.
pub enum Asked {
    Small,
    Large,
    Changed,
    GoOn,
    Refuse,
}

/// Whether it is so.
pub fn holds(asked: &Asked) -> bool {
    match asked {
        Asked::Small => is_told::<Aes128, 16>(&SMALL, RIGHT),
        Asked::Large => is_told::<Aes256, 32>(&LARGE, RIGHT),
        Asked::Changed => is_told::<Aes128, 16>(&CHANGED, WRONG),
        Asked::GoOn => goes_on(),
        Asked::Refuse => refuses(),
    }
}

/// Rows of cipher block chaining.
pub const ROWS: &[Row] = &[
    Row("a key of 16 bytes", rows::Asked::Chain(Asked::Small)),
    Row("a key of 32 bytes", rows::Asked::Chain(Asked::Large)),
    Row(
        "another initialization vector",
        rows::Asked::Chain(Asked::Changed),
    ),
    Row("another mode goes on", rows::Asked::Chain(Asked::GoOn)),
    Row("a vector of 15 bytes", rows::Asked::Chain(Asked::Refuse)),
];
