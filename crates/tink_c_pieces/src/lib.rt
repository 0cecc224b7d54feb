//! Writers of streams in pieces, into buffers that each call is lent, and readers of the segments of such streams.
#![tactic(auto)]

mod due;
mod laws;
mod part;
mod putting;
mod reading;
mod reading_laws;
mod writing;

pub use laws::law_pieces_are_the_stream;
pub use part::Part;
pub use reading::{feed, finish, give};
pub use reading_laws::law_pieces_are_read;
pub use writing::PieceWriter;
