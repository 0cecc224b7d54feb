ghost use Rattle.std.specs.Prelude.{◌≡◌, ◌≤◌, ◌<◌, ◌+◌, ◌^◌, vec_len};

use crate::segment_traits::SegmentEncrypter;

/// How the segments of one stream are made: the one-shot map, its nonces, and the rooms of segments. These
/// are of the first and of each later one, in bytes of text.
#[derive(Drop)]
pub struct Sealer<E: SegmentEncrypter> {
    /// The one-shot map of a segment.
    pub encrypter: E,
    /// The nonce prefix of the stream.
    pub prefix: Vec<u8>,
    /// The bytes of a nonce.
    pub nonce_size: usize,
    /// The bytes that a segment has more than its text.
    pub overhead: usize,
    /// The bytes of text for which the first segment has room.
    pub first: usize,
    /// The bytes of text for which a later segment has room.
    pub room: usize,
    ghost overhead_is: { overhead ≡ E.overhead_of encrypter },
    ghost nonce_is: { nonce_size ≡ E.nonce_length encrypter },
    ghost prefix_fits: { vec_len prefix + 5 ≤ nonce_size },
    ghost some: { 0 < first },
    ghost first_fits: { first ≤ room },
    ghost small: { room + overhead < 2 ^ 32 },
}
