//! Tests of ciphers by vectors.

pub mod block_cipher;
