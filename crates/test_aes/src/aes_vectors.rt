//! Vectors of FIPS 197.

ghost use Rattle.std.specs.Prelude.{◌≡◌, ◌↔◌, IsOk, IfOk, length};
ghost use Rattle.standards.specs.AesKeys.{aes};

use crate::rows;
use crate::rows::Row;
use crate::under_keys::Asked;
use aes_block::{Aes128, Aes192, Aes256};
use cipher::{BlockCipherEncrypt, InvalidLength, KeyInit};

const KEY: &[u8; 32] = &[
    0, 1, 2, 3, 4, 5, 6, 7, 8, 9, 10, 11, 12, 13, 14, 15, 16, 17, 18, 19, 20, 21, 22, 23, 24, 25,
    26, 27, 28, 29, 30, 31,
];

const TEXT: &[u8; 16] = b"\x00\x11\x22\x33\x44\x55\x66\x77\x88\x99\xaa\xbb\xcc\xdd\xee\xff";

/// C.1 to C.3, and appendix B.
pub const ROWS: &[Row] = &[
    Row(
        "AES under 16 bytes",
        rows::Asked::Key(
            &[0, 1, 2, 3, 4, 5, 6, 7, 8, 9, 10, 11, 12, 13, 14, 15],
            Asked::Block(
                TEXT,
                b"\x69\xc4\xe0\xd8\x6a\x7b\x04\x30\xd8\xcd\xb7\x80\x70\xb4\xc5\x5a",
            ),
        ),
    ),
    Row(
        "AES under 24 bytes",
        rows::Asked::Key(
            &[
                0, 1, 2, 3, 4, 5, 6, 7, 8, 9, 10, 11, 12, 13, 14, 15, 16, 17, 18, 19, 20, 21, 22,
                23,
            ],
            Asked::Block(
                TEXT,
                b"\xdd\xa9\x7c\xa4\x86\x4c\xdf\xe0\x6e\xaf\x70\xa0\xec\x0d\x71\x91",
            ),
        ),
    ),
    Row(
        "AES under 32 bytes",
        rows::Asked::Key(
            KEY,
            Asked::Block(
                TEXT,
                b"\x8e\xa2\xb7\xca\x51\x67\x45\xbf\xea\xfc\x49\x90\x4b\x49\x60\x89",
            ),
        ),
    ),
    Row(
        "AES, the example",
        rows::Asked::Key(
            b"\x2b\x7e\x15\x16\x28\xae\xd2\xa6\xab\xf7\x15\x88\x09\xcf\x4f\x3c",
            Asked::Block(
                b"\x32\x43\xf6\xa8\x88\x5a\x30\x8d\x31\x31\x98\xa2\xe0\x37\x07\x34",
                b"\x39\x25\x84\x1d\x02\xdc\x09\xfb\xdc\x11\x85\x97\x19\x6a\x0b\x32",
            ),
        ),
    ),
];

// A block encrypted, where the key has 32 bytes.
fn encrypt_block_under(key: &[u8], block: &[u8; 16]) -> Result<[u8; 16], InvalidLength>
    ensures ok { IsOk result ↔ (length key.now ≡ 32) }
    ensures value { IfOk result (λ out. out ≡ aes key.now block.now) }
{
    let cipher = Aes256::new_from_slice(key)?;
    let mut out = *block;
    cipher.encrypt_block(&mut out);
    Ok(out)
}

/// Whether the first n bytes of the key, n being at most 32, are taken by the ciphers that they should be taken by, and a
/// block is encrypted under 32.
pub fn are_taken(n: usize) -> bool {
    let key = &KEY[..n.min(32)];
    let taken = [
        Aes128::new_from_slice(key).is_ok(),
        Aes192::new_from_slice(key).is_ok(),
        Aes256::new_from_slice(key).is_ok(),
        encrypt_block_under(key, TEXT).is_ok(),
    ];
    taken == [n == 16, n == 24, n == 32, n == 32]
}
