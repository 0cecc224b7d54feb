//! How fast AES is block by block, over many blocks together, and in counter mode.

use aes_block::Aes128;
use cipher::{BlockCipherDecrypt, BlockCipherEncrypt, KeyInit, KeyIvInit};
use cipher_stream::StreamCipher;
use ctr::Ctr64BE;
use std::io;
use std::time::Instant;

// Blocks of a round, which are 1 MiB.
const BLOCKS: usize = 65536;

// Rounds, of which the best time of each kind counts.
const ROUNDS: usize = 16;

const KEY: &[u8; 16] = &[0, 1, 2, 3, 4, 5, 6, 7, 8, 9, 10, 11, 12, 13, 14, 15];

/// Nanoseconds of each kind of work, in a round or the least of the rounds.
#[derive(Clone, Copy)]
struct Times {
    encrypt_block: u128,
    encrypt_blocks: u128,
    decrypt_block: u128,
    decrypt_blocks: u128,
    apply_keystream: u128,
}

/// Times rounds of each, and prints to standard error how fast they were.
///
/// # Errors
/// Those of the clock and of standard error, and OutOfMemory.
pub(crate) fn run(rt: HostRuntime) -> io::Result<()> {
    let mut blocks = vec![in rt.alloc(); [0u8; 16]; BLOCKS]?;
    let mut bytes = vec![in rt.alloc(); 0u8; 16 * BLOCKS]?;
    match best(&rt, &mut blocks, &mut bytes) {
        Ok(times) => print(&rt, &times),
        Err(e) => Err(e),
    }
}

fn best(rt: &HostRuntime, blocks: &mut [[u8; 16]], bytes: &mut [u8]) -> io::Result<Times> {
    let mut best = round(rt, blocks, bytes)?;
    for _ in 1..ROUNDS {
        best = least(best, round(rt, blocks, bytes)?);
    }
    Ok(best)
}

fn round(rt: &HostRuntime, blocks: &mut [[u8; 16]], bytes: &mut [u8]) -> io::Result<Times> {
    let start = Instant::now(rt)?;
    encrypt_each(blocks);
    let encrypted = start.elapsed(rt)?.as_nanos();
    Aes128::new(KEY).encrypt_blocks(blocks);
    let encrypted_together = start.elapsed(rt)?.as_nanos();
    decrypt_each(blocks);
    let decrypted = start.elapsed(rt)?.as_nanos();
    Aes128::new(KEY).decrypt_blocks(blocks);
    let decrypted_together = start.elapsed(rt)?.as_nanos();
    Ctr64BE::<Aes128>::new(KEY, &[0; 16]).apply_keystream(bytes);
    let applied = start.elapsed(rt)?.as_nanos();
    Ok(Times {
        encrypt_block: encrypted,
        encrypt_blocks: encrypted_together.saturating_sub(encrypted),
        decrypt_block: decrypted.saturating_sub(encrypted_together),
        decrypt_blocks: decrypted_together.saturating_sub(decrypted),
        apply_keystream: applied.saturating_sub(decrypted_together),
    })
}

fn least(one: Times, other: Times) -> Times {
    Times {
        encrypt_block: one.encrypt_block.min(other.encrypt_block),
        encrypt_blocks: one.encrypt_blocks.min(other.encrypt_blocks),
        decrypt_block: one.decrypt_block.min(other.decrypt_block),
        decrypt_blocks: one.decrypt_blocks.min(other.decrypt_blocks),
        apply_keystream: one.apply_keystream.min(other.apply_keystream),
    }
}

fn encrypt_each(blocks: &mut [[u8; 16]]) {
    let cipher = Aes128::new(KEY);
    for block in blocks.iter_mut() {
        cipher.encrypt_block(block);
    }
}

fn decrypt_each(blocks: &mut [[u8; 16]]) {
    let cipher = Aes128::new(KEY);
    for block in blocks.iter_mut() {
        cipher.decrypt_block(block);
    }
}

fn print(rt: &HostRuntime, times: &Times) -> io::Result<()> {
    let encrypted = hundredths(times.encrypt_block, times.encrypt_blocks);
    let decrypted = hundredths(times.decrypt_block, times.decrypt_blocks);
    let applied = hundredths(times.encrypt_blocks, times.apply_keystream);
    eprintln!(rt;
        "encrypt_block   {} MB/s
encrypt_blocks  {} MB/s, {}.{:02} times encrypt_block
decrypt_block   {} MB/s
decrypt_blocks  {} MB/s, {}.{:02} times decrypt_block
apply_keystream {} MB/s, {}.{:02} times encrypt_blocks",
        speed(times.encrypt_block),
        speed(times.encrypt_blocks),
        encrypted / 100,
        encrypted % 100,
        speed(times.decrypt_block),
        speed(times.decrypt_blocks),
        decrypted / 100,
        decrypted % 100,
        speed(times.apply_keystream),
        applied / 100,
        applied % 100
    )
}

/// Millions of bytes in a second, rounded down.
fn speed(time: u128) -> u128 {
    16 * 1000 * BLOCKS as u128 / time.max(1)
}

/// Hundredths of the first work's speed that the second has, rounded down.
fn hundredths(first: u128, second: u128) -> u128 {
    first.saturating_mul(100) / second.max(1)
}
