//! The parts that the wrapped primitives of all sorts share. A handle gives a set of one sort, and its entries are
//! asked in order until one accepts.

mod typing;

pub use tink_sets::{Question, ask_behind_prefix, ask_entries};
pub use typing::typed_primitives;
