//! Ranges of a stream's text, from an object that is read in any place.
#![tactic(auto)]

pub use laws::{law_range_of_stream, law_shape_of_any};
pub use memory_at::{MemAt, SureAt};
pub use range_reader::RangeReader;
pub use read_at::ReadAt;
pub use steps::Steps;
pub use stream_sizes::{StreamSizes, sizes_under};
pub use under_keys::range_under;

mod choosing_at;
mod chunks;
mod giving;
mod laws;
mod memory_at;
mod opening_at;
mod range_reader;
mod range_reading;
mod read_at;
mod reading_at;
mod shape;
mod starting_at;
mod steps;
mod stream_sizes;
mod under_keys;
mod writing_part;
