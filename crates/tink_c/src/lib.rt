//! What the C library exports. Each function is a call of a crate below, whose clause it states.
//!
//! An output goes to the beginning of `out`, and its length to `written`. Every status other than 0 leaves `out` unchanged.
#![tactic(auto)]

mod edits;
mod keysets;
mod objects;
mod primitives;
mod readers;
mod streams;
mod writers;
