//! A keyset under a master keyset: encrypted by the AEADs of another keyset, as a file, and decrypted again.

mod encrypting;
mod laws;
mod master;
mod text;
mod wrapping;

pub use laws::{law_wrapped_is_unwrapped, law_wrapped_outlives_commands};
pub(crate) use master::valid_in_file;
pub use master::{Master, load_master};
pub use wrapping::{unwrap_file, wrap_file};
