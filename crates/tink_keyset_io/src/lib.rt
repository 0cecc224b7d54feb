//! Keysets read from sources and written to sinks, and files of keys, in the wire format and in JSON.
#![tactic(auto)]

mod binary_io;
mod json_io;
pub mod key_files;
mod text;
mod text_form;

pub use binary_io::{BinaryReader, BinaryWriter};
pub use json_io::{JsonReader, JsonWriter};
pub use text::read_whole;
