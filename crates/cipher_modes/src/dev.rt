//! Tests of block modes by vectors.

pub mod block_mode;
