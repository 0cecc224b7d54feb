//! Streams, their plaintexts and ranges, of inputs that are held whole, and writers of streams in pieces, under the keyset
//! of a file. Also readers of streams that come in pieces.
#![tactic(auto)]

mod choice;
mod choosing;
mod laws;
mod lent_at;
mod new_readers;
mod range_readers;
mod readers;
mod streams;
mod writers;

pub use choice::{Choice, choice_of};
pub use choosing::choose_key;
pub use laws::law_pieces_give_the_text;
pub use new_readers::reader_of;
pub use range_readers::{RangeReader, range_reader_of};
pub use readers::{PieceReader, UNREAD};
pub use streams::{range, rewrap_file, run_whole};
pub use writers::writer_of;
