//! What the tests of several crates share: managers of test keys, a primitive, keys and keysets.
#![tactic(auto)]

pub use keys::{
    URL, bare, bytes_of, data_of, draws_of, enabled_key, gives, handle_of, key, keyset, kind_of,
    registry_of, template,
};
pub use named::Named;
pub use registering::{NamedRegistry, Registered, Template, is_made_and_registered};
pub use rows::{Answer, Failure, Verdict, answer_of, handle, succeeds};
pub use streams::{
    CTR_35, CTR_4096, CTR_4096_AND_DESTROYED, CTR_4096_ROTATED, GCM_41, shows, sink_of,
};
pub use test_aead::{TestAead, TestKinds};
pub use test_manager::TestManager;
pub use walk::{Ask, ask_made};

mod keys;
mod named;
mod registering;
mod rows;
mod streams;
mod test_aead;
mod test_manager;
mod walk;
