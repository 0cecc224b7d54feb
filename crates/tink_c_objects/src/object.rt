//! What an object is.

use tink_aead::{AeadKind, WrappedAead};
use tink_c_pieces::PieceWriter;
use tink_c_streams::{PieceReader, RangeReader};
use tink_daead::WrappedDeterministicAead;
use tink_daead::subtle::AesSiv;
use tink_mac::{MacKind, WrappedMac};
use tink_prf::{PrfKind, Set};
use tink_streaming_aead::StreamSegment;

/// The primitives of a keyset, a writer or a reader of a stream, or a reader of ranges.
#[derive(Drop)]
pub enum Object {
    /// AEADs.
    Aead(WrappedAead<AeadKind>),
    /// Deterministic AEADs.
    Daead(WrappedDeterministicAead<AesSiv>),
    /// MACs. Those that sign tokens are MACs too.
    Mac(WrappedMac<MacKind>),
    /// Pseudorandom functions.
    Prfs(Set<PrfKind>),
    /// A writer of a stream in pieces.
    Writer(PieceWriter<StreamSegment>),
    /// A reader of ranges of streams.
    Ranges(RangeReader),
    /// A reader of a stream in pieces.
    Reader(PieceReader),
}
