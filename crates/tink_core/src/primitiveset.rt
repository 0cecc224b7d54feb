//! Sets of primitives, one for each enabled key of a keyset.

pub use tink_sets::{Entry, PrimitiveSet, TypedEntry, TypedPrimitiveSet};
