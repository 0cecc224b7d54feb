//! How fast SHA-256 is.

use sha2::{Digest, Sha256};
use std::alloc::Global;
use std::io;
use std::io::Read;
use std::time::{Duration, Instant};

// Bytes that are read at once, as many as a seal reads.
const PIECE: usize = 65536;

/// What was hashed.
#[derive(Drop)]
struct Hashed {
    digest: [u8; 32],
    bytes: u64,
}

/// Prints the SHA-256 of the standard input, and to standard error how fast it was hashed.
///
/// # Errors
/// Those of the clock and of the streams, and OutOfMemory.
pub(crate) fn run(rt: HostRuntime) -> io::Result<()> {
    let start = Instant::now(&rt)?;
    let mut input = rt.stdin();
    let hashed = hash(rt.alloc(), &mut input)?;
    let time = start.elapsed(&rt)?;
    for byte in &hashed.digest {
        print!(rt; "{byte:02x}")?;
    }
    println!(rt)?;
    let tenths = tenths_of_megabytes(hashed.bytes, time);
    eprintln!(rt; "{}.{} MB/s", tenths / 10, tenths % 10)
}

/// Hashes all that the reader has left.
///
/// # Errors
/// Those of the reader, and OutOfMemory.
fn hash<R: Read>(alloc: Global, reader: &mut R) -> io::Result<Hashed> {
    let mut piece = vec![in alloc; 0u8; PIECE]?;
    let mut hasher = Sha256::new();
    let mut bytes: u64 = 0;
    for _ in 0..u64::MAX {
        let count = reader.read(&mut piece)?.min(piece.len());
        if count == 0 {
            break;
        }
        hasher.update(&piece[..count]);
        bytes = bytes.saturating_add(count as u64);
    }
    Ok(Hashed {
        digest: hasher.finalize(),
        bytes,
    })
}

/// Tenths of a million bytes in a second, rounded down.
fn tenths_of_megabytes(bytes: u64, time: Duration) -> u128 {
    bytes as u128 * 10 / time.as_micros().max(1)
}
