//! Objects that C holds: the primitives of a keyset, which are loaded once and asked often, writers and readers of streams,
//! and readers of ranges.
#![tactic(auto)]

mod asking;
mod asking_macs;
mod filling;
mod loose;
mod object;
mod owner;
mod ranging;
mod reading;
mod slot;
mod writing;

pub use asking::{aead_decrypt, aead_encrypt, daead_decrypt, daead_encrypt, prf_compute};
pub use asking_macs::{mac_compute, mac_verify, token_sign, token_verify};
pub use filling::{fill_aead, fill_daead, fill_mac, fill_prfs};
pub use object::Object;
pub use owner::Owner;
pub use ranging::{fill_ranges, range_read};
pub use reading::{fill_reader, reader_end, reader_feed, reader_read};
pub use writing::{fill_writer, writer_bound, writer_end, writer_write};
