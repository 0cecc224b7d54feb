//! Tests by vectors.

pub mod stream;
