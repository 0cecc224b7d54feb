//! Ranges of a stream's text under Tink keysets, from any object that is read in any place.

mod of_keyset;
mod of_set;

pub use of_keyset::run_range;
pub use of_set::range_of_set;
