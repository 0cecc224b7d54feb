//! How much a text of some length fills.

ghost use Rattle.std.specs.Prelude.{◌≡◌, ◌≤◌, ◌<◌, ◌+◌, ◌-◌, ◌^◌};
ghost use Rattle.tink_c_pieces.specs.Due.{chunks_due, bytes_due};

/// How many chunks are full and have text behind them, if `held` bytes are there and `more` follow. The first chunk
/// has room for `first` bytes, each later one for `room`.
pub(crate) fn chunks_due(first: usize, room: usize, held: usize, more: usize) -> u64
    requires some { 0 < room }
    requires held { held ≤ first }
    ensures { result ≡ chunks_due first room (held + more) }
{
    let spare = first - held;
    if more <= spare {
        return 0;
    }
    ((more - spare - 1) / room) as u64 + 1
}

/// The bytes of `count` segments of full chunks: the first has `first` bytes, and each later one `size`.
pub(crate) fn bytes_due(first: usize, size: usize, count: u64) -> usize
    requires first { first ≤ size }
    requires size { size < 2 ^ 32 }
    requires count { count < 2 ^ 32 }
    ensures value { result ≡ bytes_due first size count }
    ensures most { result ≤ 2 ^ 64 - 2 ^ 33 + 1 }
{
    if count == 0 {
        return 0;
    }
    first + (count as usize - 1) * size
}
