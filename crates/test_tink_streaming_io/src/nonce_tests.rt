//! The limits of keys and nonces.

use std::alloc::Global;
use test_util::{Answer, Ask, Verdict};
use tink_io::{Kind, TinkError};
use tink_streaming_ciphers::{
    AES_CTR_HMAC_NONCE_PREFIX_SIZE_IN_BYTES, AES_GCM_HKDF_NONCE_PREFIX_SIZE_IN_BYTES,
    validate_aes_key_size,
};
use tink_streaming_segment::generate_segment_nonce;

enum Asked {
    // whether keys of so many bytes are those of a variant, which has as many
    KeySize(usize),
    // whether of the sizes below this one those of keys are 16 and 32
    KeySizesBelow(usize),
    // whether the nonce of a segment of this number, which is the last or not, is this one
    Nonce(u64, bool, &'static [u8; 12]),
    // whether prefixes have so many bytes
    Prefixes(usize),
}

fn is_key_size(n: usize) -> Result<bool, TinkError> {
    match validate_aes_key_size(n) {
        Ok(variant) => Ok(variant.key_size() == n),
        Err(e) => Err(e),
    }
}

fn are_two_sizes(most: usize) -> bool {
    for n in 0..most {
        if matches!(is_key_size(n), Ok(true)) != (n == 16 || n == 32) {
            return false;
        }
    }
    true
}

// The nonce stands in the place of nines, which stay where there is none.
fn is_nonce(number: u64, last: bool, want: &[u8; 12]) -> Result<bool, TinkError> {
    let mut out = [9u8; 12];
    match generate_segment_nonce(&mut out, &[1, 2, 3, 4, 5, 6, 7], number, last) {
        Ok(()) => Ok(out == *want),
        Err(e) if out == *want => Err(e),
        Err(_) => Ok(false),
    }
}

impl Ask<()> for Asked {
    fn answer(&self, _alloc: Global, _of: &mut ()) -> Result<bool, TinkError> {
        match *self {
            Asked::KeySize(n) => is_key_size(n),
            Asked::KeySizesBelow(n) => Ok(are_two_sizes(n)),
            Asked::Nonce(number, last, want) => is_nonce(number, last, want),
            Asked::Prefixes(n) => Ok(
                AES_CTR_HMAC_NONCE_PREFIX_SIZE_IN_BYTES == n
                    && AES_GCM_HKDF_NONCE_PREFIX_SIZE_IN_BYTES == n,
            ),
        }
    }
}

const ROWS: &[(&str, Asked, Answer)] = &[
    ("sizes below 40", Asked::KeySizesBelow(40), Ok(true)),
    (
        "a key of 24 bytes",
        Asked::KeySize(24),
        Err(Kind::BadKeySize),
    ),
    (
        "258",
        Asked::Nonce(
            258,
            true,
            b"\x01\x02\x03\x04\x05\x06\x07\x00\x00\x01\x02\x01",
        ),
        Ok(true),
    ),
    (
        "the last u32",
        Asked::Nonce(
            4_294_967_295,
            false,
            b"\x01\x02\x03\x04\x05\x06\x07\xff\xff\xff\xff\x00",
        ),
        Ok(true),
    ),
    (
        "behind it",
        Asked::Nonce(4_294_967_296, false, &[9; 12]),
        Err(Kind::TooManySegments),
    ),
    ("prefixes", Asked::Prefixes(7), Ok(true)),
];

pub fn limits_are_those_of_the_rows(alloc: Global, verdict: &mut Verdict) {
    verdict.walk(alloc, (), ROWS);
}
