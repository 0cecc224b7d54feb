//! The ciphers of segments by their traits, the nonces and sizes of segments, sealing and opening one segment, and
//! the bytes held of a source.
#![tactic(auto)]

mod held;
mod kept;
mod memory;
mod nonce;
mod opener;
mod opening;
mod sealer;
mod sealing;
mod segment_traits;
mod sizes;

pub use held::{carry, fill, hold};
pub use kept::Kept;
pub use memory::{refill, set_length};
pub use nonce::generate_segment_nonce;
pub use opener::Opener;
pub use opening::{open_front, open_held, size_of};
pub use sealer::Sealer;
pub use sealing::{room_of, send};
pub use segment_traits::{SegmentDecrypter, SegmentEncrypter, zeros};
pub use sizes::check_sizes;
