//! Signed tokens: a payload and its MAC, as a text.

mod laws;
mod signing;
mod spelling;

pub use laws::{law_old_tokens_verify, law_signed_tokens_verify, law_tokens_outlive_commands};
pub use signing::{sign, verify};
