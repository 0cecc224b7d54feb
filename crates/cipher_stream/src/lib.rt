//! Traits of stream ciphers, the buffer over a block-level core, and tests by vectors.
#![tactic(auto)]

mod ciphers;
mod cores;
mod counters;
pub mod dev;
mod errors;
pub mod laws;
mod positions;
mod seek;
mod wrapper;
mod xor;

pub use ciphers::StreamCipher;
pub use cores::StreamCipherCore;
pub use cores::backends::{StreamCipherBackend, StreamCipherClosure};
pub use cores::seeking::StreamCipherSeekCore;
pub use counters::StreamCipherCounter;
pub use errors::{OverflowError, StreamCipherError};
pub use positions::SeekNum;
pub use seek::StreamCipherSeek;
pub use wrapper::{BufferedCore, CoreOn, StreamCipherCoreWrapper};
