//! Block modes of operation, and the padding of messages to whole blocks.
#![tactic(auto)]

mod backends;
mod contexts;
pub mod dev;
mod directions;
mod modes;
mod padded;
mod padding;

pub use backends::{
    BlockModeDecBackend, BlockModeDecClosure, BlockModeEncBackend, BlockModeEncClosure,
};
pub use modes::{BlockModeDecrypt, BlockModeEncrypt};
pub use padded::PaddedVecError;
pub use padding::{NoPadding, PadError, Padding, Pkcs7, UnpadError, ZeroPadding};
