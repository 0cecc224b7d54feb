//! Definitions of streams: how a text is cut, sealed and opened. The code here derives a stream's keys; the functions of
//! `laws` do nothing, and their contracts are laws of these definitions.
#![tactic(auto)]

mod keys;
pub mod laws;

pub use keys::derive_keys;
