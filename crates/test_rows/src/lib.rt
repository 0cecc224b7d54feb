//! Tables of rows of text, and the one driver that runs their rows over sources and sinks in memory.
#![tactic(auto)]

pub use bytes::number;
pub use driver::{Calls, WrongRow, rows};
pub use ends::{
    Ends, Side, bytes_of, draws_of, first_of, number_of, setting, side_of, status_and_line,
};

mod bytes;
mod driver;
mod ends;
mod wanted;
