//! Files of keys in memory: made, grown by a new key, converted, and encrypted under a master.
#![tactic(auto)]

mod making;
mod wrapping;

pub use making::{add, convert, create, rotate};
pub use wrapping::{unwrap, wrap};
