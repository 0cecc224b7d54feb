//! Writers and readers of streams of segments, over any cipher of segments.
#![tactic(auto)]

mod buffers;
mod laws;
mod pouring;
mod progress;
mod reader;
mod reading;
mod reading_laws;
mod text_reader;
mod trying;
mod writer;
mod writing;

pub use buffers::{Buffers, WriterBuffers};
pub use laws::{law_any_cutting, law_full_segments};
pub use pouring::pour;
pub use progress::Progress;
pub use reader::{Reader, ReaderParams};
pub use reading::SegmentReader;
pub use reading_laws::{law_empty_buffer, law_for_good, law_whole_text};
pub use text_reader::TextReader;
pub use tink_streaming_segment::{
    Kept, Opener, Sealer, carry, fill, open_front, open_held, refill,
};
pub use trying::{Begun, KeyTrial, OpensStreams, front_opener, try_key};
pub use writer::{Writer, WriterParams};
pub use writing::{Mode, SegmentWriter};
