//! The key and the sizes of a stream under Tink keysets, found without decrypting all of it.

mod of_keyset;
mod of_set;

pub use of_keyset::stream_info;
pub use of_set::{StreamInfo, info_of_set};
