ghost use Rattle.std.specs.Prelude.{◌≡◌, ◌≤◌, ◌<◌, ◌+◌, ◌^◌, vec_len};

use crate::segment_traits::SegmentDecrypter;

/// How the segments of one stream are opened: the one-shot map, its nonces, and the sizes of segments. These
/// are of the first and of each later one, in bytes of ciphertext.
#[derive(Drop)]
pub struct Opener<D: SegmentDecrypter> {
    /// The one-shot map of a segment.
    pub decrypter: D,
    /// The nonce prefix of the stream.
    pub prefix: Vec<u8>,
    /// The bytes of a nonce.
    pub nonce_size: usize,
    /// The bytes that a segment has more than its text.
    pub overhead: usize,
    /// The bytes that the first segment has at most.
    pub first: usize,
    /// The bytes that a later segment has at most.
    pub size: usize,
    ghost overhead_is: { overhead ≡ D.overhead_of decrypter },
    ghost nonce_is: { nonce_size ≡ D.nonce_length decrypter },
    ghost prefix_fits: { vec_len prefix + 5 ≤ nonce_size },
    ghost some: { overhead < first },
    ghost first_fits: { first ≤ size },
    ghost small: { size < 2 ^ 32 },
}
