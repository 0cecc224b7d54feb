//! Keysets in JSON, by the JSON mapping of Protocol Buffers.
//!
//! `Keyset::from_json(alloc, text)` reads a message and `to_json` writes it: the trait [`Json`] has them. Members have
//! the names of the fields in lower camel case; those in snake case are read too. Bytes are base 64 with padding, enums
//! are names, and a number of 32 bits is read as a number or as its digits.
#![tactic(auto)]

mod fields;
mod laws;
mod messages;
mod names;
mod values;
mod whole;

pub use laws::law_keyset_read_again;
pub use messages::Json;
