//! Moves a stream from one Tink keyset to another, from any source to any sink.

mod between;
mod passing;
mod rewrapping;
mod together;

pub use between::rewrap_between;
pub use rewrapping::rewrap;
