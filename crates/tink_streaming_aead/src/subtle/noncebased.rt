//! Streams of segments whose nonces hold a prefix, the segment's number and the last one's mark.

pub use tink_streaming_io::{Buffers, Reader, ReaderParams, Writer, WriterBuffers, WriterParams};
pub use tink_streaming_segment::{SegmentDecrypter, SegmentEncrypter, generate_segment_nonce};
