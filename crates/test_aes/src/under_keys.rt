//! Vectors of AES under keys of each size, and of the modes over it.

use crate::cmac_vectors::TEXT;
use crate::seals::seals;
use aes_block::{Aes128, Aes192, Aes256};
use cipher::dev::block_cipher::{TestVector, encrypt_decrypt_test};
use cipher::{BlockCipherDecrypt, BlockCipherEncrypt, KeyInit};
use gcm::Gcm;
use hash_keys::cmac_into;

/// A request under a key.
pub enum Asked {
    /// To encrypt a block to that one, and to decrypt it again, also by a copy.
    Block(&'static [u8; 16], &'static [u8; 16]),
    /// To make that tag of this number of bytes of the text of SP 800-38B.
    Cmac(usize, [u8; 16]),
    /// To seal under a nonce and with data a text to those bytes, and to open them.
    Gcm([u8; 12], &'static [u8], &'static [u8], &'static [u8]),
}

// Whether a copy encrypts the block to that one, and decrypts it again.
fn copy_goes<C: BlockCipherEncrypt<16> + BlockCipherDecrypt<16> + Clone + Drop>(
    c: C,
    text: &[u8; 16],
    made: &[u8; 16],
) -> bool {
    let mut block = *text;
    match c.clone() {
        Ok(copy) => {
            copy.encrypt_block(&mut block);
            let same = block == *made;
            copy.decrypt_block(&mut block);
            same && block == *text
        }
        Err(_) => false,
    }
}

// Whether this is the tag of so many bytes of the text, at most 64.
fn has_cmac<C: BlockCipherEncrypt<16> + Drop>(c: C, n: usize, want: &[u8; 16]) -> bool {
    let mut out = [0u8; 16];
    cmac_into(&c, &TEXT[..n.min(64)], &mut out);
    out == *want
}

// Whether that is so of a cipher.
fn does<C: BlockCipherEncrypt<16> + BlockCipherDecrypt<16> + Clone + Drop>(
    c: C,
    asked: &Asked,
) -> bool {
    match asked {
        Asked::Block(text, made) => copy_goes(c, text, made),
        Asked::Cmac(n, tag) => has_cmac(c, *n, tag),
        Asked::Gcm(nonce, data, text, sealed) => seals(&Gcm::new(c), nonce, data, text, sealed),
    }
}

// Whether it is so of a cipher under the key.
fn holds_by<
    C: KeyInit<K> + BlockCipherEncrypt<16> + BlockCipherDecrypt<16> + Clone + Drop,
    const K: usize,
>(key: &'static [u8], asked: &Asked) -> bool {
    if let Asked::Block(plaintext, ciphertext) = asked {
        let vector = TestVector {
            key,
            plaintext: *plaintext,
            ciphertext: *ciphertext,
        };
        if encrypt_decrypt_test::<C, K, 16>(&vector).is_err() {
            return false;
        }
    }
    match C::new_from_slice(key) {
        Ok(c) => does(c, asked),
        Err(_) => false,
    }
}

/// Whether it is so.
pub fn holds(key: &'static [u8], asked: &Asked) -> bool {
    match key.len() {
        16 => holds_by::<Aes128, 16>(key, asked),
        24 => holds_by::<Aes192, 24>(key, asked),
        _ => holds_by::<Aes256, 32>(key, asked),
    }
}
