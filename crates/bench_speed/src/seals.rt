//! How long GCM takes to seal texts of some sizes, under a kept key and under a new one, GCM-SIV to seal them, and GHASH
//! to hash them.

ghost use Rattle.std.specs.Prelude.{◌≡◌, ◌+◌, length};

use aes_block::Aes128;
use cipher::KeyInit;
use gcm::{Gcm, GcmSiv, ghash};
use std::io;
use std::time::Instant;

// Bytes of all texts of a round together.
const BYTES: usize = 1 << 20;

// The most bytes of a text.
const MOST: usize = 1 << 16;

// Rounds, of which the best time of each kind counts.
const ROUNDS: usize = 24;

const KEY: &[u8; 16] = &[0, 1, 2, 3, 4, 5, 6, 7, 8, 9, 10, 11, 12, 13, 14, 15];

const NONCE: [u8; 12] = [9; 12];

const SIZES: [usize; 7] = [16, 64, 256, 1024, 2048, 4096, MOST];

/// Nanoseconds of each kind of work, in a round or the least of the rounds.
#[derive(Clone, Copy)]
struct Times {
    kept: u128,
    made: u128,
    siv: u128,
    hash: u128,
}

/// Times texts of each size, and prints to standard error how many nanoseconds one takes.
///
/// # Errors
/// Those of the clock and of standard error, and OutOfMemory.
pub(crate) fn run(rt: HostRuntime) -> io::Result<()> {
    for size in SIZES {
        let n = size.min(MOST);
        let text = vec![in rt.alloc(); 7u8; n]?;
        let mut out = vec![in rt.alloc(); 0u8; n + 16]?;
        match best(&rt, &text, &mut out) {
            Ok(times) => print(&rt, n, &times)?,
            Err(e) => return Err(e),
        }
    }
    Ok(())
}

fn best(rt: &HostRuntime, text: &[u8], out: &mut [u8]) -> io::Result<Times>
    requires { length out.old ≡ length text.now + 16 }
{
    let mut best = round(rt, text, out)?;
    for _ in 1..ROUNDS {
        best = least(best, round(rt, text, out)?);
    }
    Ok(best)
}

fn round(rt: &HostRuntime, text: &[u8], out: &mut [u8]) -> io::Result<Times>
    requires { length out.old ≡ length text.now + 16 }
{
    let count = BYTES / text.len().max(1);
    let start = Instant::now(rt)?;
    seal_kept(text, out, count);
    let kept = start.elapsed(rt)?.as_nanos();
    seal_made(text, out, count);
    let made = start.elapsed(rt)?.as_nanos();
    seal_siv(text, out, count);
    let siv = start.elapsed(rt)?.as_nanos();
    hash(text, count);
    let hash = start.elapsed(rt)?.as_nanos();
    Ok(Times {
        kept,
        made: made.saturating_sub(kept),
        siv: siv.saturating_sub(made),
        hash: hash.saturating_sub(siv),
    })
}

fn least(one: Times, other: Times) -> Times {
    Times {
        kept: one.kept.min(other.kept),
        made: one.made.min(other.made),
        siv: one.siv.min(other.siv),
        hash: one.hash.min(other.hash),
    }
}

fn seal_kept(text: &[u8], out: &mut [u8], count: usize)
    requires { length out.old ≡ length text.now + 16 }
{
    let gcm = Gcm::new(Aes128::new(KEY));
    for _ in 0..count {
        let _sealed = gcm.seal_into(&NONCE, &[], text, out);
    }
}

fn seal_made(text: &[u8], out: &mut [u8], count: usize)
    requires { length out.old ≡ length text.now + 16 }
{
    for _ in 0..count {
        let _sealed = Gcm::new(Aes128::new(KEY)).seal_into(&NONCE, &[], text, out);
    }
}

fn seal_siv(text: &[u8], out: &mut [u8], count: usize)
    requires { length out.old ≡ length text.now + 16 }
{
    let siv = GcmSiv::<Aes128, 16>::new(KEY);
    for _ in 0..count {
        let _sealed = siv.seal_into(&NONCE, &[], text, out);
    }
}

fn hash(text: &[u8], count: usize) {
    let mut key = *KEY;
    for _ in 0..count {
        key = ghash(&key, &[], text);
    }
}

fn print(rt: &HostRuntime, size: usize, times: &Times) -> io::Result<()> {
    let count = (BYTES / size.max(1)) as u128;
    let count = count.max(1);
    eprintln!(rt;
        "{} bytes: GCM {} ns, with a new key {} ns, GCM-SIV {} ns, GHASH {} ns",
        size,
        times.kept / count,
        times.made / count,
        times.siv / count,
        times.hash / count
    )
}
