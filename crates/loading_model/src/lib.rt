//! Definitions of loading: which keys of streams the messages of a keyset make, and which of them opens a stream. There
//! is no code here but functions that do nothing, whose contracts are laws of these definitions.
#![tactic(auto)]

pub mod laws;
