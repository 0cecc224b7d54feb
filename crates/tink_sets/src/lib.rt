//! Sets of primitives, one for each enabled key of a keyset, found by the prefix of what the key makes.
#![tactic(auto)]

pub use asking::{Question, ask_behind_prefix, ask_entries};
pub use entry::{Entry, TypedEntry};
pub use primitive_set::PrimitiveSet;
pub use typed_set::TypedPrimitiveSet;

mod asking;
mod copying;
pub mod cryptofmt;
mod entry;
mod primitive_set;
pub mod sorts;
mod typed_set;
